//! What the statuses of a recipe's lines come to.
ghost use Rattle.std.specs.Prelude.{◌≡◌, find, option_copied};
ghost use Rattle.mk_recipe.specs.Outcome.{IsOutcome};
ghost use Rattle.mk_recipe.specs.Tests.{stops};

use crate::line_status::{LineStatus, Outcome};

/// The first line behind which the recipe doesn't go on.
fn first_failure(statuses: &[LineStatus], ignore: bool) -> Option<&LineStatus>
    ensures { option_copied result ≡ find (stops ignore) statuses.now }
{
    statuses
        .iter()
        .find(|line| line.status != 0 && !(line.is_ignored || ignore))
}

/// Done where each status is 0 or ignored, and else Failed with the first other one. `ignore` says that the whole run
/// ignores statuses. It takes no memory.
pub fn outcome(statuses: &[LineStatus], ignore: bool) -> Outcome
    ensures { IsOutcome ignore statuses.now result }
{
    match first_failure(statuses, ignore) {
        None => Outcome::Done,
        Some(line) => Outcome::Failed(line.status),
    }
}
