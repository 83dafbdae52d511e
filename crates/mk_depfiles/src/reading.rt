//! The whole text of a depfile.
ghost use Rattle.std.specs.Prelude.{◌≡◌, ◌+◌, false, Some, IfOk};
ghost use Rattle.std.specs.List.{position};
ghost use Rattle.mk_depfiles.specs.Depfile.{is_nul, without_newline, names_of_lines, each_once, names_in, names_of};
ghost use Rattle.mk_depfiles.specs.Lines.{lines};

use crate::lines::{newlines, next_line, quotes, without_returns};
use crate::mentions::first_mentions;
use crate::refusal::{Cause, Refusal};
use crate::rule::push_line;
use byte_strings::ByteStrings;
use std::alloc::{AllocError, Global};

/// What the lines of a text name, as often as they do.
fn names_of_lines(alloc: Global, text: &[u8]) -> Result<Result<ByteStrings, Refusal>, AllocError>
    ensures { IfOk result (λ found. found ≡ names_of_lines 1 (lines false text.now)) }
{
    let mut names = ByteStrings::empty(alloc);
    let mut number = 1;
    let mut left = Some(text);
    while let Some(bytes) = left {
        let (line, behind) = next_line(bytes);
        match push_line(alloc, &mut names, line)? {
            Some(cause) => {
                return Ok(Err(Refusal {
                    line: number,
                    cause,
                }));
            }
            None => number += newlines(line) + 1,
        }
        left = behind;
    }
    Ok(Ok(names))
}

fn nul_at(text: &[u8]) -> Option<usize>
    ensures { result ≡ position is_nul text.now }
{
    text.iter().position(|byte| *byte == 0)
}

/// The text without a newline at its end.
fn without_newline(text: &[u8]) -> &[u8]
    ensures { result.now ≡ without_newline text.now }
{
    match text.split_last() {
        Some((b'\n', front)) => front,
        _ => text,
    }
}

fn each_once(
    alloc: Global,
    found: Result<ByteStrings, Refusal>,
) -> Result<Result<ByteStrings, Refusal>, AllocError>
    ensures { IfOk result (λ once. once ≡ each_once found) }
{
    match found {
        Err(refusal) => Ok(Err(refusal)),
        Ok(names) => Ok(Ok(first_mentions(alloc, &names)?)),
    }
}

/// What a text without carriage returns before newlines names.
fn names_in(alloc: Global, text: &[u8]) -> Result<Result<ByteStrings, Refusal>, AllocError>
    ensures { IfOk result (λ found. found ≡ names_in text.now) }
{
    if let Some(at) = nul_at(text) {
        let line = newlines(text.split_at(at).0) + 1;
        return Ok(Err(Refusal {
            line,
            cause: Cause::Nul,
        }));
    }
    let whole = without_newline(text);
    if quotes(whole) {
        return Ok(Err(Refusal {
            line: newlines(whole) + 1,
            cause: Cause::Unfinished,
        }));
    }
    each_once(alloc, names_of_lines(alloc, text)?)
}

/// The files that a depfile names: what stands behind the targets of its rules, without a `./` in front, each once, in the order in which
/// they are first named. The targets of rules name nothing, so a rule with nothing behind its colon does neither.
///
/// Names are read as GCC, Clang, rustc, protoc and swiftc write them: `\ ` is a blank, `\#` a `#` and `$$` a `$`; 2N + 1 backslashes before a
/// blank are N of them and the blank; a backslash before anything else stands for itself, as in `C:\x.h`. A line goes on behind a
/// backslash, and one that begins with a `#` is a comment. Line ends are LF or CR LF.
///
/// The answer of another text is the first of its faults; then it names nothing. `Err` is for want of memory alone.
#[tactic(auto, unfolding(crate::specs::Depfile::names_of))]
pub fn names_of(alloc: Global, text: &[u8]) -> Result<Result<ByteStrings, Refusal>, AllocError>
    ensures { IfOk result (λ found. found ≡ names_of text.now) }
{
    let plain = without_returns(alloc, text)?;
    names_in(alloc, plain.as_slice())
}
