// What a reference comes to, by what is known of its macro so far.
ghost use Rattle.std.specs.Prelude.{◌≡◌, ◌≤◌, ◌++◌, length, IfOk, IfErr, OnOk};
ghost use Rattle.mk_macros.specs.Reference.{used};
ghost use Rattle.mk_macros.specs.Shown.{shown_use};
ghost use Rattle.mk_macros.specs.Ranks.{defined_by, meaning_of};
ghost use Rattle.mk_macros.specs.Function.{function_in};
ghost use Rattle.mk_profile.specs.Profile.{is_wide};
ghost use Rattle.mk_macros.specs.Expansion.{limit, IsTooLongAt};
ghost use Rattle.mk_macros.specs.Lookup.{progress_at, Finds, FailsNow};

use crate::definitions::Macros;
use crate::dynamic::Dynamic;
use crate::fault::{MacroFault, most_bytes};
use crate::function::refuse_function;
use crate::reference::Use;
use crate::substitution::{append, append_changed_words};
use byte_strings::ByteString;
use mk_profile::Profile;
use std::alloc::Global;
use std::collections::HashMap;

/// How far the value of a macro is. One that wasn't met yet has none.
#[derive(Drop)]
pub(crate) enum Progress {
    Opened,
    Known(Vec<u8>),
}

/// Appends what a reference takes of a value.
fn append_used(
    out: &mut Vec<u8>,
    most: usize,
    value: &[u8],
    use_of: &Use<'_>,
) -> Result<(), MacroFault>
    requires { length out.old.items ≤ most }
    ensures ok { OnOk result ((out.new.items ≡ out.old.items ++ used (shown_use use_of.now) value.now)
        × (length out.new.items ≤ most)) }
    ensures err { IfErr result (IsTooLongAt most (length (out.old.items ++ used (shown_use use_of.now) value.now))) }
{
    match use_of {
        Use::Whole => append(out, most, value),
        Use::Words(change) => append_changed_words(out, most, value, change),
    }
}

impl Macros {
    /// Appends what a reference adds. Where its macro wasn't met yet, the macro's name and text are answered instead.
    pub(crate) fn append_reference<'a>(
        &'a self,
        alloc: Global,
        profile: Profile,
        line: &Dynamic<'_>,
        progress: &HashMap<&'a [u8], Progress>,
        made: &mut Vec<u8>,
        name: &[u8],
        use_of: &Use<'_>,
    ) -> Result<Option<(&'a [u8], &'a [u8])>, MacroFault>
        requires { length made.old.items ≤ limit (is_wide profile) }
        ensures ok { IfOk result (Finds (limit (is_wide profile)) (function_in (is_wide profile) name.now) (meaning_of (defined_by self.now).ranks line.now name.now) (progress_at progress.now name.now)
            (shown_use use_of.now) name.now made.old.items made.new.items) }
        ensures err { IfErr result (FailsNow (limit (is_wide profile)) (function_in (is_wide profile) name.now) (meaning_of (defined_by self.now).ranks line.now name.now) (progress_at progress.now name.now)
            (shown_use use_of.now) name.now made.old.items) }
    {
        if let Some(value) = line.value(alloc, most_bytes(profile), name)? {
            append_used(made, most_bytes(profile), &value, use_of)?;
            return Ok(None);
        }
        let Some((name, text)) = self.definition(name) else {
            refuse_function(alloc, profile, name)?;
            return Ok(None);
        };
        match progress.get(name) {
            None => Ok(Some((name, text))),
            Some(Progress::Known(value)) => {
                append_used(made, most_bytes(profile), value, use_of)?;
                Ok(None)
            }
            Some(Progress::Opened) => {
                Err(MacroFault::Loop(ByteString::from_slice(alloc, name)?))
            }
        }
    }
}
