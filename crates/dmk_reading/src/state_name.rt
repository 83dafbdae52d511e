//! The name of the state where the words name none.
ghost use Rattle.std.specs.Prelude.{◌≡◌, string_bytes, option_map, IfOk};
ghost use Rattle.dmk_reading.specs.StateName.{stem, usual_state};

use mk_profile::Profile;
use std::alloc::{AllocError, Global};

const USUAL: &str = ".make.state";

/// The name under which standard input is read as a makefile.
const INPUT: &str = "-";

/// What stands before the usual name.
fn stem(profile: Profile, first: Option<&str>) -> &str
    ensures { result.now ≡ stem profile (option_map (λ name. name.now) first.entry) }
{
    match (profile, first) {
        (Profile::Posix, Some(name)) if name != INPUT => name,
        _ => "",
    }
}

/// The state's side A, by the first of the makefiles that the words name.
pub fn usual_state(
    alloc: Global,
    profile: Profile,
    first: Option<&str>,
) -> Result<String, AllocError>
    ensures { IfOk result (λ name. string_bytes name ≡ usual_state profile (option_map (λ name. name.now) first.entry)) }
{
    let mut name = String::from_str(alloc, stem(profile, first))?;
    name.push_str(USUAL)?;
    Ok(name)
}
