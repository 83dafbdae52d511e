//! Whether a recipe left the files that it makes as they were.
ghost use Rattle.std.specs.Prelude.{◌≡◌, IsTrue, ◌↔◌};
ghost use Rattle.jb_marks.specs.Same.{IsSame};
ghost use Rattle.jb_marks.specs.Tests.{is_same, is_still};

use crate::sights::Sight;

fn is_still(before: Sight, behind: Sight) -> bool
    ensures { result ≡ is_still before behind }
{
    match (before, behind) {
        (
            Sight::File {
                time,
                size,
                changed,
            },
            Sight::File {
                time: now,
                size: bytes,
                changed: other,
            },
        ) => time == now && size == bytes && changed == other,
        _ => false,
    }
}

fn are_still(before: &[Sight], behind: &[Sight]) -> bool
    ensures { result ≡ is_same before.now behind.now }
{
    let mut left = behind;
    for was in before {
        let [is, rest @ ..] = left else {
            return false;
        };
        if !is_still(*was, *is) {
            return false;
        }
        left = rest;
    }
    left.is_empty()
}

/// Whether each of these files, as looks before a recipe told of them, is an ordinary one, is there behind it, and had nothing of it
/// changed, its ctime included: a time alone can be set to what it was.
pub fn is_same(before: &[Sight], behind: &[Sight]) -> bool
    ensures { IsTrue result ↔ IsSame before.now behind.now }
{
    are_still(before, behind)
}
