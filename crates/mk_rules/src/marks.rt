//! Marks of names by their numbers.
ghost use Rattle.std.specs.Prelude.{◌≡◌, ◌<◌, ◌≤◌, ◌&&◌, ℕ, nat_eq, not, length, OnOk};
ghost use Rattle.mk_graph.specs.Edges.{has};
ghost use Rattle.mk_rules.specs.NodeNotes.{is_marked};

use std::alloc::AllocError;

pub(crate) fn is_marked(marks: &[bool], number: usize) -> bool
    ensures { result ≡ is_marked marks.now number }
{
    match marks.get(number) {
        Some(mark) => *mark,
        None => false,
    }
}

// So many marks are made at once behind the one that is wanted, since numbers mostly come one after the other.
const MORE: usize = 255;

/// Makes the marks so many that this number is among them.
#[inline(never)]
fn grow(marks: &mut Vec<bool>, number: usize) -> Result<(), AllocError>
    requires { length marks.old.items ≤ number }
    ensures same { (n : ℕ) → is_marked marks.new.items n ≡ is_marked marks.old.items n }
    ensures room { OnOk result (number < length marks.new.items) }
{
    marks.resize(number.saturating_add(MORE), false)?;
    marks.push(false)?;
    Ok(())
}

/// Makes room for a mark of this number.
#[inline(always)]
pub(crate) fn make_room(marks: &mut Vec<bool>, number: usize) -> Result<(), AllocError>
    ensures same { (n : ℕ) → is_marked marks.new.items n ≡ is_marked marks.old.items n }
    ensures room { OnOk result (number < length marks.new.items) }
{
    if marks.len() <= number {
        grow(marks, number)?;
    }
    Ok(())
}

/// Takes the mark of this number away, if there is one.
fn unmark(marks: &mut [bool], number: usize)
    ensures { (n : ℕ) → is_marked marks.new n ≡ (is_marked marks.old n && not (nat_eq n number)) }
{
    if number < marks.len() {
        marks[number] = false;
    }
}

/// Takes the marks of these numbers away.
pub(crate) fn unmark_all(marks: &mut [bool], numbers: &[u32])
    ensures { (n : ℕ) → is_marked marks.new n ≡ (is_marked marks.old n && not (has numbers.now n)) }
{
    for number in numbers {
        unmark(marks, *number as usize);
    }
}
