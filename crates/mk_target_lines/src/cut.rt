//! Texts that are cut at a mark which no backslash quotes.
ghost use Rattle.std.specs.Prelude.{◌≡◌, ◌++◌, ℕ, List, IfOk, OnOk};
ghost use Rattle.mk_target_lines.specs.Cut.{backslashes, cut, kept_before, unquoted, with_colons};

use crate::mark::Mark;
use std::alloc::{AllocError, Global};
use std::marker::Model;

/// What stands before a mark, with what isn't quoted any more, and what stands from the mark on; nothing where there is none.
#[derive(Drop)]
pub(crate) struct CutText<'a> {
    pub(crate) front: Vec<u8>,
    pub(crate) left: &'a [u8],
}

impl<'a> Model for CutText<'a> {
    ghost Value = { List ℕ × List ℕ };

    ghost view = { λ s. (s.front.items, s.left.now) };
}

fn push_backslashes(out: &mut Vec<u8>, count: usize) -> Result<(), AllocError>
    ensures { OnOk result (out.new.items ≡ out.old.items ++ backslashes count) }
{
    for _ in 0..count {
        out.push(b'\\')?;
    }
    Ok(())
}

/// A text up to its first mark that isn't quoted.
pub(crate) fn cut(alloc: Global, mark: Mark, text: &[u8]) -> Result<CutText<'_>, AllocError>
    ensures { IfOk result (λ found. found ≡ cut mark text.now) }
{
    let mut front = Vec::new(alloc);
    let mut held = 0usize;
    let mut rest = text;
    while let Some((byte, behind)) = rest.split_first() {
        if *byte == b'\\' {
            held += 1;
        } else if !mark.is(*byte) {
            push_backslashes(&mut front, held)?;
            front.push(*byte)?;
            held = 0;
        } else if held % 2 == 0 {
            push_backslashes(&mut front, held / 2)?;
            return Ok(CutText { front, left: rest });
        } else {
            push_backslashes(&mut front, held / 2)?;
            front.push(*byte)?;
            held = 0;
        }
        rest = behind;
    }
    push_backslashes(&mut front, held)?;
    Ok(CutText { front, left: b"" })
}

/// The text in which marks aren't quoted any more, up to the first one that wasn't.
pub(crate) fn unquoted(alloc: Global, mark: Mark, text: &[u8]) -> Result<Vec<u8>, AllocError>
    ensures { IfOk result (λ v. v.items ≡ unquoted mark text.now) }
{
    let found = cut(alloc, mark, text)?;
    let mut out = found.front;
    out.extend_from_slice(found.left)?;
    Ok(out)
}

fn kept_before(held: usize, byte: u8) -> usize
    ensures { result ≡ kept_before held byte }
{
    if byte == b':' && held % 2 != 0 {
        held / 2
    } else {
        held
    }
}

/// The text in which no colon is quoted any more.
pub(crate) fn with_colons(alloc: Global, text: &[u8]) -> Result<Vec<u8>, AllocError>
    ensures { IfOk result (λ v. v.items ≡ with_colons text.now) }
{
    let mut out = Vec::new(alloc);
    let mut held = 0usize;
    let mut rest = text;
    while let Some((byte, behind)) = rest.split_first() {
        if *byte == b'\\' {
            held += 1;
        } else {
            push_backslashes(&mut out, kept_before(held, *byte))?;
            out.push(*byte)?;
            held = 0;
        }
        rest = behind;
    }
    push_backslashes(&mut out, held)?;
    Ok(out)
}
