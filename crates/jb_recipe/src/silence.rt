//! The lines of a recipe as a run has them: those by which its target was judged, and in a silent run none of them printed.
ghost use Rattle.std.specs.Prelude.{◌≡◌, map};
ghost use Rattle.jb_recipe.specs.Silence.{unprinted, as_run};

use mk_recipe::Line;

fn unprinted(lines: Vec<Line>) -> Vec<Line>
    ensures { result.items ≡ map unprinted lines.items }
{
    let mut lines = lines;
    for line in lines.iter_mut() {
        line.is_printed = false;
    }
    lines
}

/// The lines of a recipe in a run that is silent, or isn't.
pub(crate) fn as_run(lines: Vec<Line>, silent: bool) -> Vec<Line>
    ensures { result.items ≡ as_run silent lines.items }
{
    if silent { unprinted(lines) } else { lines }
}
