//! The words of the command line. Names of targets may be any bytes, and clap takes text: it is given a mark for each word that is
//! none, and by the mark its word is found again.

use crate::request::WordsFault;
use std::alloc::AllocError;
use std::env::FillError;
use std::rt::Env;

// How often the room for a word is doubled: up to 32 MB, and the kernel hands a program no longer one.
const MAX_DOUBLINGS: usize = 17;

// No word has such a byte.
const MARK: &str = "\0";

/// The words as they are, and as clap reads them.
#[derive(Drop)]
pub struct Words {
    pub bytes: Vec<Vec<u8>>,
    pub texts: Vec<String>,
}

impl Words {
    /// The words of the command line, the program's name first.
    pub fn read(rt: HostRuntime) -> Result<Words, WordsFault> {
        let alloc = rt.alloc();
        let mut bytes = Vec::new(alloc);
        let mut texts = Vec::new(alloc);
        for number in 0..usize::MAX {
            let Some(word) = word_at(rt, number)? else {
                break;
            };
            match std::str::from_utf8(word.as_slice()) {
                Ok(text) => texts.push(String::from_str(alloc, text)?)?,
                Err(_) => texts.push(format!(in alloc; "{MARK}{number}")?)?,
            }
            bytes.push(word)?;
        }
        Ok(Words { bytes, texts })
    }

    /// The word that clap has so.
    pub fn named<'a>(&'a self, text: &'a str) -> &'a [u8] {
        let Some(number) = text.strip_prefix(MARK) else {
            return text.as_bytes();
        };
        match number.parse::<usize>() {
            Ok(number) if number < self.bytes.len() => self.bytes[number].as_slice(),
            _ => &[],
        }
    }
}

/// A word that is text.
pub fn is_text(word: &str) -> bool {
    !word.starts_with(MARK)
}

/// The word of this number; None behind the last one.
fn word_at(rt: HostRuntime, number: usize) -> Result<Option<Vec<u8>>, AllocError> {
    let alloc = rt.alloc();
    let mut capacity: usize = 256;
    for _ in 0..=MAX_DOUBLINGS {
        let mut bytes = vec![in alloc; 0u8; capacity]?;
        match rt.arg(number, bytes.as_mut_slice()) {
            Ok(len) => {
                bytes.truncate(len);
                return Ok(Some(bytes));
            }
            Err(FillError::NotPresent) => return Ok(None),
            Err(FillError::TooLong) => capacity = capacity.saturating_mul(2),
        }
    }
    Err(AllocError)
}
