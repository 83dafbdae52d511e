//! Which of two definitions counts.
ghost use Rattle.std.specs.Prelude.{◌≡◌};
ghost use Rattle.mk_variables.specs.Ranks.{rank, met, is_of_environment, is_passed_over};

use mk_functions::Origin;

/// Where a variable of this origin stands among others: a later one counts.
fn rank(origin: Origin) -> u8
    ensures { result ≡ rank origin }
{
    match origin {
        Origin::Default => 0,
        Origin::Environment => 1,
        Origin::File => 2,
        Origin::EnvironmentOverride => 3,
        Origin::CommandLine => 4,
        Origin::Override => 5,
        Origin::Automatic => 6,
    }
}

/// The origin of a variable once a definition meets it.
pub(crate) fn met(is_environment_first: bool, origin: Origin) -> Origin
    ensures { result ≡ met is_environment_first origin }
{
    if !is_environment_first {
        return origin;
    }
    match origin {
        Origin::Environment => Origin::EnvironmentOverride,
        _ => origin,
    }
}

/// Whether a variable of this origin came with the environment.
pub(crate) fn is_of_environment(origin: Origin) -> bool
    ensures { result ≡ is_of_environment origin }
{
    match origin {
        Origin::Environment | Origin::EnvironmentOverride => true,
        Origin::Default
        | Origin::File
        | Origin::CommandLine
        | Origin::Override
        | Origin::Automatic => false,
    }
}

/// Whether a definition from here is passed over, where there is a variable from there.
pub(crate) fn is_passed_over(here: Origin, there: Origin) -> bool
    ensures { result ≡ is_passed_over here there }
{
    rank(here) < rank(there)
}
