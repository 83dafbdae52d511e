//! Options whose value may be left out, where another word stands behind them: the number of a -j is that of the processors.
ghost use Rattle.std.specs.Prelude.{◌≤◌};

use crate::arguments::add;
use crate::loads::may_be_load;
use crate::option_table::{HELD, UNBOUND};
use dmk_reading::MAX_WORKERS;
use std::alloc::{AllocError, Global};
use std::thread::{self, Threads};

/// How many recipes run at once where -j has no number: as many as there are processors.
pub fn processors<R: Threads>(rt: &R) -> u16
    ensures one { 1 ≤ result }
    ensures most { result ≤ 256 }
{
    match thread::available_parallelism(rt) {
        Ok(found) => match u16::try_from(found.get()) {
            Ok(processors) => processors.min(MAX_WORKERS),
            Err(_) => MAX_WORKERS,
        },
        Err(_) => 1,
    }
}

/// What can't stand before the last letter in one word of letters: those that take a value, and the dash of a long option.
const NO_FLAGS: &str = "CEIKOWfjlo-";

// Whether a word ends in this letter of an option, without a value.
fn ends_in(word: &str, letter: char) -> bool {
    let Some(letters) = word.strip_prefix('-') else {
        return false;
    };
    match letters.strip_suffix(letter) {
        Some(flags) => !flags.chars().any(|flag| NO_FLAGS.contains(flag)),
        None => false,
    }
}

// Whether a word is this long option, perhaps cut short, without a value.
fn is_long(word: &str, name: &str) -> bool {
    match word.strip_prefix("--") {
        Some(front) => !front.is_empty() && name.starts_with(front),
        None => false,
    }
}

// Whether a word is meant as the number of a -j that stands before it. What is no number is refused there.
fn is_number_of_jobs(word: &str) -> bool {
    match word.as_bytes().first() {
        Some(byte) => byte.is_ascii_digit() || *byte == b'+',
        None => true,
    }
}

// Whether a word is one of these, and the next one isn't meant as its load.
fn has_no_load(word: &str, next: &str) -> bool {
    (is_long(word, "load-average") || is_long(word, "max-load")) && !may_be_load(next.as_bytes())
}

// What is to be written behind a word that leaves its value out, so that the next word isn't taken for it.
fn left_out<'a>(word: &str, next: &str, processors: &'a str) -> (&'static str, &'a str) {
    if is_long(word, "jobs") && !is_number_of_jobs(next) {
        ("=", processors)
    } else if ends_in(word, 'j') && !is_number_of_jobs(next) {
        ("", processors)
    } else if is_long(word, "output-sync") {
        ("=", HELD)
    } else if ends_in(word, 'O') {
        ("", HELD)
    } else if has_no_load(word, next) {
        ("=", UNBOUND)
    } else if ends_in(word, 'l') && !may_be_load(next.as_bytes()) {
        ("", UNBOUND)
    } else {
        ("", "")
    }
}

/// The words, each -j before a word that is no number of its with one, and each -O with its word: what stands behind is a target, or an
/// option.
pub fn with_numbers(
    alloc: Global,
    words: &[String],
    processors: &str,
) -> Result<Vec<String>, AllocError> {
    let mut all = Vec::with_capacity(alloc, words.len())?;
    let mut are_options = true;
    for (place, word) in words.iter().enumerate() {
        are_options = are_options && word.as_str() != "--";
        let (sign, value) = match words.get(place.saturating_add(1)) {
            Some(next) if are_options => left_out(word.as_str(), next.as_str(), processors),
            _ => ("", ""),
        };
        add(&mut all, with_value(word, sign, value)?)?;
    }
    Ok(all)
}

// The word with what is to be written behind it.
fn with_value(word: &String, sign: &str, value: &str) -> Result<String, AllocError> {
    let mut whole = word.clone()?;
    whole.push_str(sign)?;
    whole.push_str(value)?;
    Ok(whole)
}
