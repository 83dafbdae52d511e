//! The lines of a text, from its front.
ghost use Rattle.std.specs.Prelude.{◌≡◌, ◌+◌, ◌≤◌, ◌==◌, ◌&&◌, ◌∷◌, ◌++◌, false, not, length, IfOk, OnOk, option_copied};
ghost use Rattle.mk_depfiles.specs.Gathering.{lines_left, size_left};
ghost use Rattle.mk_depfiles.specs.Lines.{begins_with, without_returns, quotes_next, quotes, line_len, lines, newlines};

use std::alloc::{AllocError, Global};

pub fn begins_with(bytes: &[u8], byte: u8) -> bool
    ensures { result ≡ begins_with byte bytes.now }
{
    match bytes.split_first() {
        Some((first, _)) => *first == byte,
        None => false,
    }
}

/// Adds a byte that isn't a carriage return before a newline.
fn push_kept(out: &mut Vec<u8>, byte: u8, behind: &[u8]) -> Result<(), AllocError>
    ensures { OnOk result (out.new.items ++ without_returns behind.now ≡ out.old.items ++ without_returns (byte ∷ behind.now)) }
{
    if byte == b'\r' && begins_with(behind, b'\n') {
        return Ok(());
    }
    out.push(byte)?;
    Ok(())
}

/// The text without carriage returns before newlines.
pub fn without_returns(alloc: Global, text: &[u8]) -> Result<Vec<u8>, AllocError>
    ensures { IfOk result (λ v. v.items ≡ without_returns text.now) }
{
    let mut out = Vec::new(alloc);
    let mut rest = text;
    while let Some((byte, behind)) = rest.split_first() {
        push_kept(&mut out, *byte, behind)?;
        rest = behind;
    }
    Ok(out)
}

fn quotes_next(is_quoted: bool, byte: u8) -> bool
    ensures { result ≡ quotes_next is_quoted byte }
{
    byte == b'\\' && !is_quoted
}

/// Whether what stands behind the text is quoted.
pub fn quotes(text: &[u8]) -> bool
    ensures { result ≡ quotes false text.now }
{
    let mut is_quoted = false;
    let mut rest = text;
    while let Some((byte, behind)) = rest.split_first() {
        is_quoted = quotes_next(is_quoted, *byte);
        rest = behind;
    }
    is_quoted
}

fn ends_line(is_quoted: bool, byte: u8) -> bool
    ensures { result ≡ (byte == 10 && not is_quoted) }
{
    byte == b'\n' && !is_quoted
}

/// How many bytes stand before the first newline that isn't quoted.
fn line_len(text: &[u8]) -> usize
    ensures value { result ≡ line_len false text.now }
    ensures within { result ≤ length text.now }
{
    let mut is_quoted = false;
    let mut rest = text;
    while let Some((byte, behind)) = rest.split_first() {
        if ends_line(is_quoted, *byte) {
            return text.len() - rest.len();
        }
        is_quoted = quotes_next(is_quoted, *byte);
        rest = behind;
    }
    text.len()
}

/// The line that a text begins with, and what stands behind its newline, if it has one.
pub fn next_line(text: &[u8]) -> (&[u8], Option<&[u8]>)
    ensures lines { lines false text.now ≡ result.0.now ∷ lines_left (option_copied result.1) }
    ensures size { length result.0.now + size_left (option_copied result.1) ≤ length text.now }
{
    let len = line_len(text);
    if len >= text.len() {
        return (text, None);
    }
    (&text[..len], Some(&text[len + 1..]))
}

/// How many newlines stand in a text.
pub fn newlines(text: &[u8]) -> usize
    ensures value { result ≡ newlines text.now }
    ensures within { result ≤ length text.now }
{
    text.iter().filter(|byte| **byte == b'\n').count()
}
