//! Physical and logical lines, as values.
use byte_strings::ByteString;
use std::alloc::{AllocError, Global};
use std::marker::Model;

/// What ends a physical line.
#[derive(Clone, Copy)]
pub enum Ending {
    EndOfText,
    Newline,
    /// A carriage return and a newline.
    ReturnNewline,
}

/// A line as it stands in the text, without its ending.
#[derive(Clone, Copy)]
pub struct PhysicalLine<'a> {
    pub text: &'a [u8],
    pub ending: Ending,
}

/// The text of a logical line: a part of the file's, or several physical lines joined.
pub struct LineText<'a> {
    part: &'a [u8],
    joined: Option<Vec<u8>>,
}

impl<'a> Model for LineText<'a> {
    ghost use Rattle.std.specs.Prelude.{List, ℕ, option_map, unwrap_or};

    ghost Value = { List ℕ };

    ghost view = { λ t. unwrap_or (option_map (λ v. v.items) t.joined) t.part.now };
}

impl Drop for LineText<'_> {
    fn drop(self) {
        let LineText { part: _, joined: _ } = self;
    }
}

impl<'a> LineText<'a> {
    ghost use Rattle.std.specs.Prelude.{◌≡◌, IfOk};

    /// The text of a line that stands in the file as it is.
    pub fn part(part: &'a [u8]) -> LineText<'a>
        ensures { result ≡ part.now }
    {
        LineText { part, joined: None }
    }

    /// The text of a line that was joined of several.
    pub fn joined(text: Vec<u8>) -> LineText<'a>
        ensures { result ≡ text.items }
    {
        LineText {
            part: b"".as_slice(),
            joined: Some(text),
        }
    }

    /// The bytes of the text.
    pub fn as_slice(&self) -> &[u8]
        ensures { result.now ≡ self.now }
    {
        match &self.joined {
            Some(text) => text.as_slice(),
            None => self.part,
        }
    }

    /// The text as a byte string, copied where it is a part of the file's.
    pub fn into_string(self, alloc: Global) -> Result<ByteString, AllocError>
        ensures { IfOk result (λ s. s ≡ self.entry) }
    {
        let LineText { part, joined } = self;
        match joined {
            Some(text) => Ok(ByteString::new(text)),
            None => ByteString::from_slice(alloc, part),
        }
    }
}

/// Physical lines joined where a backslash stands at the end. A recipe line is without its TAB.
#[derive(Drop)]
pub struct LogicalLine<'a> {
    /// The number of the first physical line.
    pub number: usize,
    pub is_recipe: bool,
    pub text: LineText<'a>,
}
