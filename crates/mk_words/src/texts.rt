//! Texts in texts.
ghost use Rattle.std.specs.Prelude.{◌≡◌, ◌<◌, length, IfOk};
ghost use Rattle.mk_words.specs.Texts.{replaced, substituted, stands_in, found_in};

use std::alloc::{AllocError, Global};

/// Each place where a text stands, which isn't empty, with another in its place.
fn replaced(alloc: Global, from: &[u8], to: &[u8], text: &[u8]) -> Result<Vec<u8>, AllocError>
    requires { 0 < length from.now }
    ensures { IfOk result (λ v. v.items ≡ replaced from.now to.now 0 text.now) }
{
    let mut out = Vec::new(alloc);
    let mut rest = text;
    while let Some((byte, after)) = rest.split_first() {
        match rest.strip_prefix(from) {
            Some(behind) => {
                out.extend_from_slice(to)?;
                rest = behind;
            }
            None => {
                out.push(*byte)?;
                rest = after;
            }
        }
    }
    Ok(out)
}

/// `$(subst FROM,TO,TEXT)`
pub fn subst(alloc: Global, from: &[u8], to: &[u8], text: &[u8]) -> Result<Vec<u8>, AllocError>
    ensures { IfOk result (λ v. v.items ≡ substituted from.now to.now text.now) }
{
    if !from.is_empty() {
        return replaced(alloc, from, to, text);
    }
    let mut out = Vec::from_slice(alloc, text)?;
    out.extend_from_slice(to)?;
    Ok(out)
}

fn stands_in(find: &[u8], text: &[u8]) -> bool
    ensures { result ≡ stands_in find.now text.now }
{
    let mut rest = text;
    while let Some((_, behind)) = rest.split_first() {
        if rest.starts_with(find) {
            return true;
        }
        rest = behind;
    }
    false
}

/// `$(findstring FIND,TEXT)`
pub fn find_string<'a>(find: &'a [u8], text: &[u8]) -> &'a [u8]
    ensures { result.now ≡ found_in find.now text.now }
{
    if stands_in(find, text) { find } else { &[] }
}
