//! Marks that lie in some bytes, one behind the other, without a copy of them.

ghost use Rattle.std.specs.Prelude.{◌≡◌, ◌≤◌, ℕ, List, [], Ok, length, take, drop, slice_get, replicate, IfSome, IfNone, IsErr};
ghost use Rattle.st_marks.specs.declared.mark.Mark.{Mark};
ghost use Rattle.st_marks.specs.declared.mark.Mark.TheVariants as mark;
ghost use Rattle.st_marks.specs.Reading.{mark_at, many_at, mark_or_unknown};

use crate::fields::mark_of;
use crate::mark::Mark;
use std::marker::Model;

/// The marks that are left. Contracts see them as the list of these.
#[derive(Drop)]
pub struct Marks<'a> {
    count: usize,
    bytes: &'a [u8],
}

impl<'a> Model for Marks<'a> {
    ghost use Rattle.std.specs.Prelude.{List};
    ghost use Rattle.st_marks.specs.declared.mark.Mark.{Mark};
    ghost use Rattle.st_marks.specs.Reading.{marks_in};

    ghost Value = { List Mark };

    ghost view = { λ m. marks_in m.count m.bytes.now };
}

impl<'a> Marks<'a> {
    /// So many unknown marks.
    pub(crate) fn unknown(count: usize) -> Marks<'a>
        ensures { result ≡ replicate count mark.Unknown }
    {
        Marks { count, bytes: &[] }
    }

    /// So many marks, which are all that the bytes hold; None where they hold anything else.
    pub(crate) fn read(count: u32, bytes: &'a [u8]) -> Option<Marks<'a>>
        ensures found { IfSome result (λ marks. many_at mark_at count bytes.now ≡ Ok (marks, [])) }
        ensures none { IfNone result ((marks : List Mark) → many_at mark_at count bytes.now ≡ Ok (marks, []) → ⊥) }
    {
        let rest = behind_marks(count, bytes)?;
        if !rest.is_empty() {
            return None;
        }
        Some(Marks {
            count: count as usize,
            bytes,
        })
    }

    /// These, if there are so many; else so many unknown ones.
    pub(crate) fn of_number(self, wanted: usize) -> Marks<'a>
        ensures same { length self.entry ≡ wanted → result ≡ self.entry }
        ensures unknown { (length self.entry ≡ wanted → ⊥) → result ≡ replicate wanted mark.Unknown }
    {
        if self.len() == wanted {
            self
        } else {
            Marks::unknown(wanted)
        }
    }

    /// The first of them, which isn't left then; None where none is left.
    pub fn first(&mut self) -> Option<Mark>
        ensures first { result ≡ slice_get self.old 0 }
        ensures left { self.new ≡ drop 1 self.old }
    {
        self.next()
    }

    /// The first of them, so many.
    pub(crate) fn front(&self, wanted: usize) -> Marks<'a>
        requires { wanted ≤ length self.now }
        ensures { result ≡ take wanted self.now }
    {
        Marks {
            count: wanted,
            bytes: self.bytes,
        }
    }

    /// Those behind the first ones, so many.
    pub(crate) fn behind(&self, passed: usize) -> Marks<'a>
        ensures { result ≡ drop passed self.now }
    {
        let whole = Marks {
            count: self.count,
            bytes: self.bytes,
        };
        behind(whole, passed)
    }

    /// How many marks are left.
    pub fn len(&self) -> usize
        ensures { result ≡ length self.now }
    {
        self.count
    }
}

impl<'a> Iterator for Marks<'a> {
    type Item = Mark;

    ghost use Rattle.std.specs.Iterator.{YieldsFirst, item_count};

    ghost next_gives = { YieldsFirst (λ m. m) };

    ghost remaining = { item_count (λ m. m) };

    fn next(&mut self) -> Option<Mark> {
        if self.count == 0 {
            return None;
        }
        let (mark, bytes) = mark_or_unknown(self.bytes);
        self.bytes = bytes;
        self.count -= 1;
        Some(mark)
    }
}

/// Those behind the first ones, so many.
fn behind(marks: Marks<'_>, passed: usize) -> Marks<'_>
    ensures { result ≡ drop passed marks.entry }
{
    let mut left = marks;
    for _ in 0..passed {
        let _mark = left.first();
    }
    left
}

/// The mark at the front and the bytes behind it, or an unknown one and no bytes.
fn mark_or_unknown(bytes: &[u8]) -> (Mark, &[u8])
    ensures mark { result.0 ≡ (mark_or_unknown (mark_at bytes.now)).0 }
    ensures behind { result.1.now ≡ (mark_or_unknown (mark_at bytes.now)).1 }
{
    match mark_of(bytes) {
        Some(found) => found,
        None => (Mark::Unknown, &[]),
    }
}

/// The bytes behind so many marks. Each takes a byte at least, so it ends with the bytes whatever the count says.
fn behind_marks(count: u32, bytes: &[u8]) -> Option<&[u8]>
    ensures found { IfSome result (λ rest. (marks : List Mark) × (many_at mark_at count bytes.now ≡ Ok (marks, rest.now))) }
    ensures none { IfNone result (IsErr (many_at mark_at count bytes.now)) }
{
    let mut rest = bytes;
    for _ in 0..count {
        let (_mark, after) = mark_of(rest)?;
        rest = after;
    }
    Some(rest)
}
