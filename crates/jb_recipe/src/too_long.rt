//! Which line of a recipe is too long for a record.
ghost use Rattle.std.specs.Prelude.{◌≡◌, position};
ghost use Rattle.jb_recipe.specs.LongLine.{is_too_long};

use mk_recipe::Line;
use st_records::MAX_COMMAND_BYTES;

/// Whether the line's text would be recorded, and is too long for that.
fn is_too_long(line: &Line) -> bool
    ensures { result ≡ is_too_long line.now }
{
    !line.is_exempt && !line.is_blank() && line.text.as_slice().len() > MAX_COMMAND_BYTES
}

/// The number of the first line, from 0, that is too long for a record.
pub fn long_line(lines: &[Line]) -> Option<usize>
    ensures { result ≡ position is_too_long lines.now }
{
    lines.iter().position(|line| is_too_long(line))
}
