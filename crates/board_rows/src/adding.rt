//! Lists that grow: over any item, where one that isn't taken is let go by one call.
use std::alloc::AllocError;

pub fn add<T: Drop>(list: &mut Vec<T>, item: T) -> Result<(), AllocError> {
    list.push(item)?;
    Ok(())
}
