//! What counts as text.
ghost use Rattle.std.specs.Prelude.{◌≡◌};
ghost use Rattle.std.specs.List.{list_all};
ghost use Rattle.std.specs.Str.{is_utf8};
ghost use Rattle.mk_lines.specs.Text.{is_plain, is_text};

use std::str;

/// Whether the bytes are UTF-8.
#[tactic(auto, using(crate::proofs::TextLemmas::ascii_is_utf8))]
pub fn is_utf8(bytes: &[u8]) -> bool
    ensures { result ≡ is_utf8 bytes.now }
{
    if bytes.is_ascii() {
        return true;
    }
    match str::from_utf8(bytes) {
        Ok(_) => true,
        Err(_) => false,
    }
}

/// Whether the byte is ASCII and no NUL.
pub fn is_plain(byte: u8) -> bool
    ensures { result ≡ is_plain byte }
{
    (1 <= byte) & (byte <= 127)
}

fn has_plain_bytes_alone(bytes: &[u8]) -> bool
    ensures { result ≡ list_all is_plain bytes.now }
{
    // No byte ends the loop, so that many can be looked at at once.
    let mut is_alone = true;
    let mut at = 0;
    while at < bytes.len() {
        is_alone &= is_plain(bytes[at]);
        at += 1;
    }
    is_alone
}

/// Whether the bytes are UTF-8 without a NUL.
#[tactic(auto, unfolding(crate::specs::Text::is_text), using(crate::proofs::TextLemmas::all_plain))]
pub fn is_text(bytes: &[u8]) -> bool
    ensures { result ≡ is_text bytes.now }
{
    if has_plain_bytes_alone(bytes) {
        return true;
    }
    is_utf8(bytes) && !bytes.contains(&0)
}
