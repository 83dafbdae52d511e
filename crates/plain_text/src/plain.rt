//! Text without control characters: a blank stands for each, but for the newline.
ghost use Rattle.std.specs.Prelude.{◌≡◌, IfOk};
ghost use Rattle.plain_text.specs.Plain.{plain};

use crate::control::{missing_behind, shown};
use std::alloc::{AllocError, Global};
use std::io::{self, Write};

/// The text with a blank for each control character but the newline.
pub fn to_plain(alloc: Global, text: &[u8]) -> Result<Vec<u8>, AllocError>
    ensures { IfOk result (λ plain_text. plain_text.items ≡ plain text.now) }
{
    let mut out = Vec::with_capacity(alloc, text.len())?;
    let mut missing = 0;
    let mut rest = text;
    while let Some((byte, after)) = rest.split_first() {
        if let Some(one) = shown(missing, *byte, after) {
            out.push(one)?;
        }
        missing = missing_behind(missing, *byte, after);
        rest = after;
    }
    Ok(out)
}

/// Writes a text as `to_plain` makes it.
pub fn write_plain<W: Write>(out: &mut W, text: &[u8]) -> io::Result<()> {
    let mut missing = 0;
    let mut begin = 0;
    let mut rest = text;
    while let Some((byte, after)) = rest.split_first() {
        let one = shown(missing, *byte, after);
        missing = missing_behind(missing, *byte, after);
        let at = text.len() - rest.len();
        rest = after;
        if one == Some(*byte) {
            continue;
        }
        out.write_all(&text[begin..at])?;
        begin = at + 1;
        if let Some(blank) = one {
            out.write_all(&[blank])?;
        }
    }
    out.write_all(&text[begin..])
}

/// What is written through it goes out by `write_plain`. Each piece is whole characters.
#[derive(Drop)]
pub struct Plain<'a, W> {
    out: &'a mut W,
}

impl<'a, W: Write> Plain<'a, W> {
    pub fn over(out: &'a mut W) -> Plain<'a, W> {
        Plain { out }
    }
}

impl<W: Write> Write for Plain<'_, W> {
    fn write(&mut self, buf: &[u8]) -> io::Result<usize> {
        write_plain(self.out, buf)?;
        Ok(buf.len())
    }

    fn flush(&mut self) -> io::Result<()> {
        self.out.flush()
    }
}
