//! The lines of a listing that are run in a dry run too.
ghost use Rattle.std.specs.Prelude.{◌≡◌, ◌++◌, OnOk};
ghost use Rattle.std.specs.List.{flat_map};
ghost use Rattle.dmk_dry.specs.AlwaysRun.{always_at};

use byte_strings::ByteString;
use mk_recipe::Line;
use std::alloc::{AllocError, Global};

/// A line that is run in a dry run too. It is no recipe: nothing is recorded of it.
#[derive(Debug)]
pub struct AlwaysRun {
    /// How many bytes of the listing stand before it, its own printed line among them.
    pub place: usize,
    /// Whose recipe it is of.
    pub target: ByteString,
    /// What the shell is given.
    pub text: ByteString,
    /// The status of the line doesn't matter.
    pub is_ignored: bool,
}

impl Drop for AlwaysRun {
    fn drop(self) {
        let AlwaysRun {
            place: _,
            target: _,
            text: _,
            is_ignored: _,
        } = self;
    }
}

/// Adds a line of a recipe, where it is one of them and so much stands before it.
pub fn add_line(
    alloc: Global,
    always: &mut Vec<AlwaysRun>,
    target: &[u8],
    place: usize,
    line: &Line,
) -> Result<(), AllocError>
    ensures { OnOk result (always.new.items ≡ always.old.items ++ always_at target.now place line.now) }
{
    if line.is_always_run && !line.is_blank() {
        always.push(AlwaysRun {
            place,
            target: ByteString::from_slice(alloc, target)?,
            text: line.text.copy(alloc)?,
            is_ignored: line.is_ignored,
        })?;
    }
    Ok(())
}

/// Adds the lines of a recipe that isn't printed.
pub fn add_lines(
    alloc: Global,
    always: &mut Vec<AlwaysRun>,
    target: &[u8],
    place: usize,
    lines: &[Line],
) -> Result<(), AllocError>
    ensures { OnOk result (always.new.items ≡ always.old.items ++ flat_map (always_at target.now place) lines.now) }
{
    for line in lines {
        add_line(alloc, always, target, place, line)?;
    }
    Ok(())
}
