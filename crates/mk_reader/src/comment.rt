//! What a line holds before its comment.
ghost use Rattle.std.specs.Prelude.{◌≡◌, ℕ, List, ◌∷◌, ◌++◌, false, not, ◌&&◌, ◌==◌, IfOk};
ghost use Rattle.std.specs.List.{before_first};
ghost use Rattle.mk_lines.specs.Text.{is_hash};
ghost use Rattle.mk_reader.specs.Form.{unescaped_from};

use mk_lines::len_before;
use std::alloc::{AllocError, Global};

/// What stands before the first `#`.
pub fn before_comment(text: &[u8]) -> &[u8]
    ensures { result.now ≡ before_first is_hash text.now }
{
    text.split_at(len_before(text, b'#')).0
}

/// Takes in a byte that is no comment's `#`, and answers whether it is a backslash that isn't written yet.
fn take_byte(content: &mut Vec<u8>, is_behind: bool, byte: u8) -> Result<bool, AllocError>
    requires { (not is_behind && byte == 35) ≡ false }
    ensures { IfOk result (λ now. (rest : List ℕ) →
        content.new.items ++ unescaped_from now rest ≡ content.old.items ++ unescaped_from is_behind (byte ∷ rest)) }
{
    if !is_behind && byte == b'\\' {
        return Ok(true);
    }
    if is_behind && byte != b'#' {
        content.push(b'\\')?;
    }
    content.push(byte)?;
    Ok(false)
}

/// What stands before the comment in the wide profile, with `#` for `\#`.
pub fn unescaped(alloc: Global, text: &[u8]) -> Result<Vec<u8>, AllocError>
    ensures { IfOk result (λ content. content.items ≡ unescaped_from false text.now) }
{
    let mut content = Vec::new(alloc);
    let mut is_behind = false;
    let mut rest = text;
    while let Some((byte, after)) = rest.split_first() {
        if !is_behind && *byte == b'#' {
            return Ok(content);
        }
        is_behind = take_byte(&mut content, is_behind, *byte)?;
        rest = after;
    }
    if is_behind {
        content.push(b'\\')?;
    }
    Ok(content)
}
