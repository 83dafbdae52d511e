//! How many recipes may run at once, as MAKEFLAGS says.
ghost use Rattle.std.specs.Prelude.{◌≡◌, ◌++◌, true, IfOk, codes, decimal, option_map};
ghost use Rattle.jb_flags.specs.Jobs.{has_value, behind_jobs, is_long, letters_of, asked, asked_by, jobs_of};

use byte_strings::{ByteStrings, number_of};
use std::alloc::{AllocError, Global};

/// The letters of options behind which a value stands, in this make and in others.
const WITH_VALUES: &[u8] = b"CDIJKOTVWfjlmov";

/// How many recipes may run at once.
#[derive(Clone, Copy, Debug, PartialEq, Eq)]
pub enum Jobs {
    /// As many as there are processors.
    Processors,
    UpTo(u16),
}

/// Whether a value stands behind this letter of options.
pub fn has_value(letter: u8) -> bool
    ensures { result ≡ has_value letter }
{
    WITH_VALUES.contains(&letter)
}

// What stands behind the `j` of these letters.
fn behind_jobs(letters: &[u8]) -> Option<&[u8]>
    ensures { option_map (λ behind. behind.now) result ≡ behind_jobs letters.now }
{
    let mut rest = letters;
    while let Some((letter, behind)) = rest.split_first() {
        if *letter == b'j' {
            return Some(behind);
        }
        if has_value(*letter) {
            return None;
        }
        rest = behind;
    }
    None
}

fn is_long(word: &[u8]) -> bool
    ensures { result ≡ is_long word.now }
{
    match word {
        [first, second, ..] => *first == b'-' && *second == b'-',
        _ => false,
    }
}

// The letters of a word of options.
fn letters_of(is_first: bool, word: &[u8]) -> Option<&[u8]>
    ensures { option_map (λ letters. letters.now) result ≡ letters_of is_first word.now }
{
    let (byte, rest) = word.split_first()?;
    if is_long(word) {
        None
    } else if *byte == b'-' {
        Some(rest)
    } else if is_first && !word.contains(&b'=') {
        Some(word)
    } else {
        None
    }
}

// What a -j asks for, by what stands behind it in its word, and the next word.
fn asked(behind: &[u8], next: Option<&[u8]>) -> Option<Jobs>
    ensures { result ≡ asked behind.now (option_map (λ word. word.now) next.entry) }
{
    if !behind.is_empty() {
        return Some(Jobs::UpTo(number_of(behind)?));
    }
    let number = match next {
        Some(word) => number_of(word),
        None => None,
    };
    match number {
        Some(number) => Some(Jobs::UpTo(number)),
        None => Some(Jobs::Processors),
    }
}

fn asked_by(is_first: bool, word: &[u8], next: Option<&[u8]>) -> Option<Jobs>
    ensures { result ≡ asked_by is_first word.now (option_map (λ word. word.now) next.entry) }
{
    asked(behind_jobs(letters_of(is_first, word)?)?, next)
}

/// A number as an option.
pub fn jobs_word(alloc: Global, number: u16) -> Result<Vec<u8>, AllocError>
    ensures { IfOk result (λ word. word.items ≡ codes " -j" ++ decimal number) }
{
    let text = format!(in alloc; " -j{number}")?;
    Vec::from_slice(alloc, text.as_bytes())
}

/// How many recipes may run at once by these words of MAKEFLAGS; None where they don't say it. The last -j counts.
pub fn jobs_of(words: &ByteStrings) -> Option<Jobs>
    ensures { result ≡ jobs_of true words.now }
{
    let mut jobs = None;
    let mut is_first = true;
    let mut ahead = words.iter();
    let _first = ahead.next();
    for word in words.iter() {
        if word == b"--".as_slice() {
            return jobs;
        }
        let next = ahead.next();
        if let Some(found) = asked_by(is_first, word, next) {
            jobs = Some(found);
        }
        is_first = false;
    }
    jobs
}
