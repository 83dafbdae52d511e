//! A mark of the state as a verdict takes it.
ghost use Rattle.std.specs.Prelude.{◌≡◌};
ghost use Rattle.mk_marks.specs.Marks.{mark_from};

use mk_verdict::{Look, Mark};

/// That a recipe writes the file itself makes no difference to a verdict.
pub fn mark_of(kept: st_marks::Mark) -> Mark
    ensures { result ≡ mark_from kept }
{
    match kept {
        st_marks::Mark::Unknown => Mark::Unknown,
        st_marks::Mark::NoFile => Mark::Was(Look::NoFile),
        st_marks::Mark::Other => Mark::Was(Look::Other),
        st_marks::Mark::File(stamp) | st_marks::Mark::Own(stamp) => Mark::Was(Look::File {
            time: i128::from(stamp.time),
            size: stamp.size,
        }),
    }
}
