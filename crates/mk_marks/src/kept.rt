//! Marks, one after the other.
ghost use Rattle.std.specs.Prelude.{◌≡◌, []};
ghost use Rattle.mk_marks.specs.Marks.{first_mark, later_marks, nothing_kept, so_many_kept};

use crate::mark::mark_of;
use mk_verdict::Mark;
use st_marks::{Marks, marks_of};

/// The marks of a target's files, of its source, and of its explicit and hidden prerequisites, in this order.
#[derive(Drop)]
pub struct Kept<'e> {
    pub marks: Marks<'e>,
    /// What each file has behind these.
    pub other: Mark,
}

fn no_marks<'e>() -> Marks<'e>
    ensures { result ≡ [] }
{
    marks_of(&[], 0)
}

impl<'e> Kept<'e> {
    /// This one for each file.
    pub fn nothing(other: Mark) -> Kept<'e>
        ensures { result ≡ nothing_kept other }
    {
        Kept {
            marks: no_marks(),
            other,
        }
    }

    /// These, where they are so many; else all are unknown.
    pub(crate) fn so_many(marks: Marks<'e>, count: u128) -> Kept<'e>
        ensures { result ≡ so_many_kept marks.entry count }
    {
        if marks.len() as u128 == count {
            Kept {
                marks,
                other: Mark::Unknown,
            }
        } else {
            Kept::nothing(Mark::Unknown)
        }
    }

    /// The next mark.
    pub fn take_mark(&mut self) -> Mark
        ensures first { result ≡ first_mark self.old }
        ensures later { self.new ≡ later_marks self.old }
    {
        match self.marks.next() {
            Some(kept) => mark_of(kept),
            None => self.other,
        }
    }
}
