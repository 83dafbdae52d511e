//! Words by numbers as they are spelled.
ghost use Rattle.std.specs.Prelude.{◌≡◌, ◌-◌, ◌^◌, Ok, Err, MatchResult, min, option_map};
ghost use Rattle.std.specs.List.{list_all};
ghost use Rattle.std.specs.Char.{is_ascii_digit};
ghost use Rattle.mk_words.specs.Numbers.{number_by, number_of, word_of, word_list_of};

use crate::counted::{numbered_word, word_stretch};
use crate::cursor::{before_spaces, behind_spaces};

/// Why GNU make ends at a number.
#[derive(Clone, Copy, Debug, PartialEq, Eq)]
pub enum NumberFault {
    /// The first argument is no number.
    First,
    /// The second one isn't.
    Second,
    /// The first one is 0, and words are counted from 1 on.
    Zero,
}

fn are_digits(text: &[u8]) -> bool
    ensures { result ≡ list_all is_ascii_digit text.now }
{
    text.iter().all(|byte| byte.is_ascii_digit())
}

/// The number of digits. One that is larger than any number of words is the largest.
pub fn number_by(digits: &[u8]) -> Option<usize>
    ensures { result ≡ option_map (λ n. min n (2 ^ 64 - 1)) (number_by digits.now) }
{
    if !are_digits(digits) {
        return None;
    }
    let mut number = 0usize;
    for byte in digits {
        number = number
            .saturating_mul(10)
            .saturating_add(usize::from(byte - b'0'));
    }
    Some(number)
}

fn number_of(text: &[u8]) -> Option<usize>
    ensures { result ≡ option_map (λ n. min n (2 ^ 64 - 1)) (number_of text.now) }
{
    if text.is_empty() {
        None
    } else {
        number_by(before_spaces(behind_spaces(text)))
    }
}

/// `$(word NUMBER,TEXT)`
pub fn word<'a>(number: &[u8], text: &'a [u8]) -> Result<&'a [u8], NumberFault>
    ensures { MatchResult result (λ found. word_of number.now text.now ≡ Ok found.now)
        (λ fault. word_of number.now text.now ≡ Err fault) }
{
    match number_of(number) {
        None => Err(NumberFault::First),
        Some(number) => match numbered_word(number, text) {
            None => Err(NumberFault::Zero),
            Some(found) => Ok(found),
        },
    }
}

/// `$(wordlist FIRST,LAST,TEXT)`. What stands between two of the words stays as it is.
pub fn word_list<'a>(first: &[u8], last: &[u8], text: &'a [u8]) -> Result<&'a [u8], NumberFault>
    ensures { MatchResult result (λ found. word_list_of first.now last.now text.now ≡ Ok found.now)
        (λ fault. word_list_of first.now last.now text.now ≡ Err fault) }
{
    match (number_of(first), number_of(last)) {
        (None, _) => Err(NumberFault::First),
        (Some(_), None) => Err(NumberFault::Second),
        (Some(first), Some(last)) => match word_stretch(first, last, text) {
            None => Err(NumberFault::Zero),
            Some(found) => Ok(found),
        },
    }
}
