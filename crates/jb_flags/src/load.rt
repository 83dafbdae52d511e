//! How busy a machine is, as options say it and as the system tells it.

use std::alloc::{AllocError, Global};

/// How many digits a load has at most before its point, and how many behind it count.
const DIGITS: usize = 9;

const COUNTED: usize = 6;

/// A load of the machine: how many processes want a processor.
#[derive(Clone, Copy, Debug, PartialEq, Eq)]
pub struct Load {
    millionths: u64,
}

fn are_digits(text: &[u8]) -> bool {
    text.iter().all(|byte| byte.is_ascii_digit())
}

// Appends digits to a number.
fn with_digits(number: u64, digits: &[u8]) -> u64 {
    let mut number = number;
    for digit in digits {
        number = number
            .saturating_mul(10)
            .saturating_add(u64::from(digit.saturating_sub(b'0')));
    }
    number
}

// What stands before the point of a text, and what behind it.
fn parted(text: &[u8]) -> (&[u8], &[u8]) {
    match text.iter().position(|byte| *byte == b'.') {
        Some(point) => (
            text.get(..point).unwrap_or(&[]),
            text.get(point.saturating_add(1)..).unwrap_or(&[]),
        ),
        None => (text, &[]),
    }
}

impl Load {
    /// The load that a text is: digits, of which a point may stand before some. None where it is none.
    pub fn of(text: &[u8]) -> Option<Load> {
        let (whole, behind) = parted(text);
        if whole.is_empty() && behind.is_empty() || whole.len() > DIGITS {
            return None;
        }
        if !are_digits(whole) || !are_digits(behind) {
            return None;
        }
        let counted = behind.get(..COUNTED).unwrap_or(behind);
        let mut millionths = with_digits(with_digits(0, whole), counted);
        for _ in counted.len()..COUNTED {
            millionths = millionths.saturating_mul(10);
        }
        Some(Load { millionths })
    }

    /// Whether it is less than another one.
    pub fn is_below(self, other: Load) -> bool {
        self.millionths < other.millionths
    }
}

// Takes the last byte away, where it is this one.
fn pop_if_last(word: &mut Vec<u8>, byte: u8) {
    if word.last() == Some(&byte) {
        word.pop();
    }
}

/// The option by which no further recipe begins from this load on, as GNU make writes it: no nought stands last behind the point.
pub fn load_word(alloc: Global, load: Load) -> Result<Vec<u8>, AllocError> {
    let whole = load.millionths / 1_000_000;
    let rest = load.millionths % 1_000_000;
    let text = format!(in alloc; " -l{whole}.{rest:06}")?;
    let mut word = Vec::from_slice(alloc, text.as_bytes())?;
    for _ in 0..COUNTED {
        pop_if_last(&mut word, b'0');
    }
    pop_if_last(&mut word, b'.');
    Ok(word)
}
