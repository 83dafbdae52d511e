//! From the text of the marks to what it has of a target as it is now.
ghost use Rattle.std.specs.Prelude.{◌≡◌, ◌+◌, suc, length, option_to_list};
ghost use Rattle.std.specs.Option.{option_copied};
ghost use Rattle.mk_marks.specs.Noted.{same_source, noted_by, noted};
ghost use Rattle.mk_marks.specs.Said.{said};

use crate::kept::Kept;
use mk_verdict::Mark;
use st_marks::read_marks;

/// What the state has of the files of a target.
#[derive(Drop)]
pub struct Noted<'e> {
    /// Another source is recorded than it has now.
    pub source_changed: bool,
    pub kept: Kept<'e>,
}

fn is_same_source(recorded: Option<&[u8]>, source: Option<&[u8]>) -> bool
    ensures { result ≡ same_source (option_copied recorded.entry) (option_copied source.entry) }
{
    match (recorded, source) {
        (None, None) => true,
        (Some(recorded), Some(source)) => recorded == source,
        _ => false,
    }
}

/// A target, so many files beside it, the source, if one is recorded, and so many names behind it, as a number without a limit.
fn count_with(others: usize, recorded: Option<&[u8]>, explicit: usize, hidden: usize) -> u128
    ensures { result ≡ suc (others + (length (option_to_list (option_copied recorded.entry)) + (explicit + hidden))) }
{
    let source = match recorded {
        None => 0u128,
        Some(_) => 1,
    };
    1 + (others as u128 + (source + (explicit as u128 + hidden as u128)))
}

/// What it has by this text.
fn note_in<'e>(
    text: &'e [u8],
    source: Option<&[u8]>,
    others: usize,
    explicit: usize,
    hidden: usize,
) -> Noted<'e>
    ensures { result ≡ noted_by (said text.now) (option_copied source.entry) others (explicit + hidden) }
{
    match read_marks(text) {
        None => Noted {
            source_changed: false,
            kept: Kept::nothing(Mark::Unknown),
        },
        Some(said) => Noted {
            source_changed: !is_same_source(said.source, source),
            kept: Kept::so_many(
                said.marks,
                count_with(others, said.source, explicit, hidden),
            ),
        },
    }
}

/// What the state has of a target with this text of its marks, if it has one, where the target has this source now, if any, and so
/// many files are made beside it, and so many explicit and hidden names are recorded.
pub fn note_of<'e>(
    text: Option<&'e [u8]>,
    source: Option<&[u8]>,
    others: usize,
    explicit: usize,
    hidden: usize,
) -> Noted<'e>
    ensures { result ≡ noted (option_copied text.entry) (option_copied source.entry) others (explicit + hidden) }
{
    match text {
        None => Noted {
            source_changed: false,
            kept: Kept::nothing(Mark::NotKept),
        },
        Some(text) => note_in(text, source, others, explicit, hidden),
    }
}
