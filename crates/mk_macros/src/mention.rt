//! Which macros a text refers to, before anything is expanded.
ghost use Rattle.std.specs.Prelude.{◌≡◌, ◌↔◌, IsTrue};
ghost use Rattle.mk_profile.specs.Profile.{is_wide};
ghost use Rattle.mk_macros.specs.Shown.{shown_piece};
ghost use Rattle.mk_macros.specs.Mention.{is_newer_name, names_newer, holds_references, RefersToNewer};

use crate::reference::{Piece, next_piece};
use mk_profile::Profile;

/// A name of the list of newer prerequisites, or of their directories or files.
fn is_newer_name(name: &[u8]) -> bool
    ensures { result ≡ is_newer_name name.now }
{
    name == b"?".as_slice() || name == b"?D".as_slice() || name == b"?F".as_slice()
}

fn names_newer(piece: &Piece<'_>) -> bool
    ensures { result ≡ names_newer (shown_piece piece.now) }
{
    match piece {
        Piece::Reference(name, _) => is_newer_name(name),
        Piece::Plain(_) | Piece::Unclosed | Piece::Nested(_) => false,
    }
}

/// Brackets that may hold references.
fn holds_references(piece: &Piece<'_>) -> bool
    ensures { result ≡ holds_references (shown_piece piece.now) }
{
    match piece {
        Piece::Unclosed | Piece::Nested(_) => true,
        Piece::Plain(_) | Piece::Reference(_, _) => false,
    }
}

/// Whether the text refers to `$?`, `$(?D)` or `$(?F)`, in any spelling and under any substitution. In the wide profile it is
/// looked for in the brackets of other references too. It takes no memory.
pub fn refers_to_newer(profile: Profile, text: &[u8]) -> bool
    ensures { IsTrue result ↔ RefersToNewer (is_wide profile) text.now }
{
    let is_wide = profile.is_wide();
    let mut rest = text;
    while let Some((piece, after)) = next_piece(profile, rest) {
        if names_newer(&piece) {
            return true;
        }
        if is_wide && holds_references(&piece) {
            rest = &rest[2..];
            continue;
        }
        rest = after;
    }
    false
}
