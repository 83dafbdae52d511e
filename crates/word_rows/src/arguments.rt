//! The arguments of calls and lines, and what is wrong with numbers.
use mk_words::NumberFault;
use row_files::{RowFault, bytes};
use std::alloc::{AllocError, Global};

/// An argument, in the notation of bytes.
pub(crate) fn argument(alloc: Global, word: &str) -> Result<Vec<u8>, RowFault> {
    match word {
        "nothing" => Ok(Vec::new(alloc)),
        word => bytes::read(alloc, word),
    }
}

// A list grows here over any type, where what isn't taken is let go by one call.
pub(crate) fn add<T: Drop>(list: &mut Vec<T>, item: T) -> Result<(), AllocError> {
    list.push(item)?;
    Ok(())
}

fn add_each(alloc: Global, given: &mut Vec<Vec<u8>>, text: &str) -> Result<(), RowFault> {
    for word in text.split(' ') {
        add(given, argument(alloc, word)?)?;
    }
    Ok(())
}

/// The arguments of a call, with a blank between each two.
pub(crate) fn arguments(alloc: Global, text: &str) -> Result<Vec<Vec<u8>>, RowFault> {
    let mut given = Vec::new(alloc);
    add_each(alloc, &mut given, text)?;
    Ok(given)
}

/// What is wrong with a number.
pub(crate) fn number_fault(fault: NumberFault) -> &'static str {
    match fault {
        NumberFault::First => "first-is-no-number",
        NumberFault::Second => "second-is-no-number",
        NumberFault::Zero => "first-is-0",
    }
}
