//! The words of a row's line.
use crate::row_fault::RowFault;

/// A line from its next word on.
#[derive(Drop)]
pub struct Words<'a> {
    pub rest: &'a str,
}

impl<'a> Words<'a> {
    /// The next word, which ends at the first blank. It is empty behind the last one.
    pub fn next(&mut self) -> &'a str {
        let (word, rest) = self.rest.split_once(' ').unwrap_or((self.rest, ""));
        self.rest = rest;
        word
    }

    /// Passes over a word and its blank, where they come next.
    pub fn skip(&mut self, word: &str) -> bool {
        match self.rest.strip_prefix(word) {
            Some(rest) => {
                self.rest = rest;
                true
            }
            None => false,
        }
    }

    pub fn number(&mut self) -> Result<usize, RowFault> {
        number(self.next())
    }
}

pub fn number(word: &str) -> Result<usize, RowFault> {
    word.parse::<usize>().map_err(|_| RowFault::Word)
}
