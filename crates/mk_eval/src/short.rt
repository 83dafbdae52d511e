//! Texts by the names that their words stand for: without a `./` in front, and with `:` for `\:`.
ghost use Rattle.std.specs.Prelude.{◌≡◌, ◌++◌, IfOk, OnOk};
ghost use Rattle.std.specs.List.{list_any};
ghost use Rattle.byte_strings.specs.Blanks.{words};
ghost use Rattle.mk_lines.specs.Text.{is_backslash};
ghost use Rattle.mk_short_names.specs.Short.{begins_here};
ghost use Rattle.mk_eval.specs.Short.{quotes_colon, has_quoted, unquoted, has_other_names, renamed};

use byte_strings::next_word;
use mk_short_names::{begins_here, short_name};
use std::alloc::{AllocError, Global};

/// Whether a word of the text begins with `./`.
fn has_here(text: &[u8]) -> bool
    ensures { result ≡ list_any begins_here (words text.now) }
{
    let mut rest = text;
    while let Some((word, behind)) = next_word(rest) {
        if begins_here(word) {
            return true;
        }
        rest = behind;
    }
    false
}

fn quotes_colon(byte: u8, behind: &[u8]) -> bool
    ensures { result ≡ quotes_colon byte behind.now }
{
    byte == b'\\' && matches!(behind, [b':', ..])
}

fn has_backslash(text: &[u8]) -> bool
    ensures { result ≡ list_any is_backslash text.now }
{
    text.contains(&b'\\')
}

#[tactic(auto, using(crate::proofs::ShortLemmas::none_quoted))]
fn has_quoted(text: &[u8]) -> bool
    ensures { result ≡ has_quoted text.now }
{
    // Most texts have none, and each byte would be looked at by itself.
    if !has_backslash(text) {
        return false;
    }
    let mut rest = text;
    while let Some((byte, behind)) = rest.split_first() {
        if quotes_colon(*byte, behind) {
            return true;
        }
        rest = behind;
    }
    false
}

/// Whether a word of the text stands for another name.
pub fn has_other_names(text: &[u8]) -> bool
    ensures { result ≡ has_other_names text.now }
{
    has_here(text) || has_quoted(text)
}

fn push_unquoted(line: &mut Vec<u8>, name: &[u8]) -> Result<(), AllocError>
    ensures { OnOk result (line.new.items ≡ line.old.items ++ unquoted name.now) }
{
    let mut rest = name;
    while let Some((byte, behind)) = rest.split_first() {
        if !quotes_colon(*byte, behind) {
            line.push(*byte)?;
        }
        rest = behind;
    }
    Ok(())
}

/// The text with the names that its words stand for.
pub fn renamed(alloc: Global, text: Vec<u8>) -> Result<Vec<u8>, AllocError>
    ensures { IfOk result (λ line. line.items ≡ renamed text.items) }
{
    if !has_other_names(text.as_slice()) {
        return Ok(text);
    }
    let mut line = Vec::with_capacity(alloc, text.len())?;
    let mut rest = text.as_slice();
    while let Some((word, behind)) = next_word(rest) {
        line.push(b' ')?;
        push_unquoted(&mut line, short_name(word))?;
        rest = behind;
    }
    Ok(line)
}
