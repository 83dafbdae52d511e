//! Lines that are refused and have blanks in front.
ghost use Rattle.std.specs.Prelude.{◌≡◌};
ghost use Rattle.mk_reader.specs.Spelled.{begins_blank};
ghost use Rattle.mk_reader.specs.Blanks.{behind_blanks, blanks_cause};

use crate::fault::{Cause, Refusal};
use byte_strings::is_blank;
use mk_profile::Profile;

pub fn begins_blank(bytes: &[u8]) -> bool
    ensures { result ≡ begins_blank bytes.now }
{
    match bytes.split_first() {
        Some((first, _)) => is_blank(*first),
        None => false,
    }
}

fn behind_blanks(cause: Cause) -> Cause
    ensures { result ≡ behind_blanks cause }
{
    match cause {
        Cause::MissingSeparator => Cause::BlanksInFront,
        other => other,
    }
}

/// The refusal of a line as it is told behind the blanks in front of what it holds.
#[tactic(auto, unfolding(crate::specs::Blanks::blanks_cause))]
pub fn refusal_behind(profile: Profile, content: &[u8], refused: Refusal) -> Refusal
    ensures file { result.file ≡ refused.file }
    ensures line { result.line ≡ refused.line }
    ensures cause { result.cause ≡ blanks_cause profile content.now refused.cause }
{
    if !profile.is_wide() || !begins_blank(content) {
        return refused;
    }
    let Refusal { file, line, cause } = refused;
    Refusal {
        file,
        line,
        cause: behind_blanks(cause),
    }
}
