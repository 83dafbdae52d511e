//! The signs of definitions.
ghost use Rattle.std.specs.Prelude.{◌≡◌, drop, None, Some, MatchOption};
ghost use Rattle.mk_assignments.specs.Reading.{sign_at};

/// What a definition does, by its sign.
#[derive(Clone, Copy, Debug, PartialEq, Eq)]
pub enum Sign {
    /// `=`
    Recursive,
    /// `:=` and `::=`
    Simple,
    /// `:::=`
    Immediate,
    /// `?=`
    Conditional,
    /// `+=`
    Appending,
    /// `!=`
    Shell,
}

fn behind(text: &[u8], count: usize) -> &[u8]
    ensures { result.now ≡ drop count text.now }
{
    text.get(count..).unwrap_or(b"".as_slice())
}

/// The sign that a text begins with, and what stands behind it.
#[tactic(auto, unfolding(crate::specs::Reading::sign_at))]
pub(crate) fn sign_at(text: &[u8]) -> Option<(Sign, &[u8])>
    ensures { MatchOption result (sign_at text.now ≡ None) (λ found. sign_at text.now ≡ Some (found.0, found.1.now)) }
{
    if text.starts_with(b"=") {
        return Some((Sign::Recursive, behind(text, 1)));
    }
    if text.starts_with(b":=") {
        return Some((Sign::Simple, behind(text, 2)));
    }
    if text.starts_with(b"::=") {
        return Some((Sign::Simple, behind(text, 3)));
    }
    if text.starts_with(b":::=") {
        return Some((Sign::Immediate, behind(text, 4)));
    }
    if text.starts_with(b"?=") {
        return Some((Sign::Conditional, behind(text, 2)));
    }
    if text.starts_with(b"+=") {
        return Some((Sign::Appending, behind(text, 2)));
    }
    if text.starts_with(b"!=") {
        return Some((Sign::Shell, behind(text, 2)));
    }
    None
}
