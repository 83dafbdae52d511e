//! The text of several lines as one.
ghost use Rattle.std.specs.Prelude.{◌≡◌, ◌≤◌, length, IfOk, OnOk};
ghost use Rattle.std.specs.List.{suffix_len};
ghost use Rattle.mk_target_lines.specs.OneLine.{is_backslash, without_backslash, ended, one_line};

use byte_strings::{is_blank, trim_end};
use std::alloc::{AllocError, Global};

/// How many backslashes stand at the end.
fn trailing_backslashes(bytes: &[u8]) -> usize
    ensures value { result ≡ suffix_len is_backslash bytes.now }
    ensures within { result ≤ length bytes.now }
{
    let mut end = bytes.len();
    while end > 0 && bytes[end - 1] == b'\\' {
        end -= 1;
    }
    bytes.len() - end
}

#[tactic(auto, unfolding(crate::specs::OneLine::without_backslash))]
fn without_backslash(line: &[u8]) -> &[u8]
    ensures { result.now ≡ without_backslash line.now }
{
    let backslashes = trailing_backslashes(line);
    let dropped = backslashes - backslashes / 2;
    line.split_at(line.len() - dropped).0
}

#[tactic(auto, using(crate::proofs::LineLemmas::line_ended))]
fn end_line(text: &mut Vec<u8>) -> Result<(), AllocError>
    ensures { OnOk result (text.new.items ≡ ended text.old.items) }
{
    text.truncate(trim_end(without_backslash(text.as_slice())).len());
    text.push(b' ')?;
    Ok(())
}

/// The text with a space in place of each newline and the blanks around it.
pub(crate) fn one_line(alloc: Global, text: &[u8]) -> Result<Vec<u8>, AllocError>
    ensures { IfOk result (λ v. v.items ≡ one_line text.now) }
{
    let mut made = Vec::new(alloc);
    let mut begins = false;
    let mut rest = text;
    while let Some((byte, behind)) = rest.split_first() {
        if *byte == b'\n' {
            end_line(&mut made)?;
            begins = true;
        } else if !begins || !is_blank(*byte) {
            made.push(*byte)?;
            begins = false;
        }
        rest = behind;
    }
    Ok(made)
}
