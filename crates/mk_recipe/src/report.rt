//! The report of a target: the files that its commands have read beside those that the makefile names.
ghost use Rattle.std.specs.Prelude.{◌≡◌, ℕ, ◌∷◌, [], List, Some, true, false, IfOk, IfErr, OnOk, ◌||◌, ◌⊎◌};
ghost use Rattle.mk_lines.specs.Lines.{joined_lines};
ghost use Rattle.mk_recipe.specs.Report.{has, names_in, mentioned, AreHidden, IsReportFault};
ghost use Rattle.mk_recipe.specs.Reading.{Reads, Stops};
ghost use Rattle.mk_recipe.specs.declared.report.ReportFault.TheVariants.{TooMany};

use crate::name_set::NameSet;
use crate::report_line::names_on;
use byte_strings::{ByteStrings, Words};
use mk_lines::{is_text, next_joined_line};
use mk_profile::Profile;
use mk_short_names::name_in;
use st_records::{HashKey, MAX_HIDDEN_NAMES, MAX_NAME_BYTES};
use std::alloc::{AllocError, Global};
use thiserror::Error;

/// Why a report isn't taken. Of several faults the first in this order counts.
#[derive(Clone, Copy, Debug, PartialEq, Eq, Error)]
pub enum ReportFault {
    #[error("out of memory")]
    OutOfMemory,
    /// Bytes that aren't UTF-8, or a NUL, anywhere in the report.
    #[error("not text")]
    NotText,
    /// A hidden name is over [`MAX_NAME_BYTES`].
    #[error("a name is too long")]
    TooLong,
    /// The hidden names are over [`MAX_HIDDEN_NAMES`].
    #[error("too many names")]
    TooMany,
}

impl From<AllocError> for ReportFault {
    ghost use Rattle.std.specs.Prelude.{◌≡◌};
    ghost use Rattle.mk_recipe.specs.declared.report.ReportFault.TheVariants.{OutOfMemory};

    ghost from_gives = { λ _ fault. fault ≡ OutOfMemory };

    fn from(_error: AllocError) -> ReportFault {
        ReportFault::OutOfMemory
    }
}

/// Adds these names.
fn add_all(alloc: Global, names: &mut NameSet, added: &ByteStrings) -> Result<(), AllocError>
    ensures { OnOk result ((name : List ℕ) → has name names.new ≡ (has name names.old || has name added.now)) }
{
    for name in added {
        names.add(alloc, name)?;
    }
    Ok(())
}

/// The names that are no hidden prerequisites.
fn known_names(
    alloc: Global,
    key: HashKey,
    target: &[u8],
    known: &ByteStrings,
) -> Result<NameSet, AllocError>
    ensures { IfOk result (λ names. (name : List ℕ) → has name names ≡ has name (target.now ∷ known.now)) }
{
    let mut names = NameSet::new(alloc, key);
    names.add(alloc, target)?;
    add_all(alloc, &mut names, known)?;
    Ok(names)
}

/// Takes in a name that the report mentions. Says whether it is left out, since there are as many as may be.
fn read_name(
    alloc: Global,
    seen: &mut NameSet,
    hidden: &mut ByteStrings,
    name: &[u8],
) -> Result<bool, ReportFault>
    ensures ok { IfOk result (Reads (name.now ∷ []) seen.old hidden.old seen.new hidden.new) }
    ensures fault { IfErr result (Stops (name.now ∷ []) seen.old) }
{
    if seen.contains(name) {
        return Ok(false);
    }
    if name.len() > MAX_NAME_BYTES {
        return Err(ReportFault::TooLong);
    }
    if hidden.len() >= MAX_HIDDEN_NAMES {
        return Ok(true);
    }
    hidden.push(name)?;
    seen.add(alloc, name)?;
    Ok(false)
}

/// Takes in the names of a text. Says whether one is left out.
fn read_names(
    alloc: Global,
    profile: Profile,
    seen: &mut NameSet,
    hidden: &mut ByteStrings,
    text: &[u8],
) -> Result<bool, ReportFault>
    ensures ok { IfOk result (Reads (names_in profile text.now) seen.old hidden.old seen.new hidden.new) }
    ensures fault { IfErr result (Stops (names_in profile text.now) seen.old) }
{
    let mut left_out = false;
    for word in Words::new(text) {
        let is_left_out = read_name(alloc, seen, hidden, name_in(profile, word))?;
        left_out |= is_left_out;
    }
    Ok(left_out)
}

/// Takes in all names that the lines of a report say of the target. Says whether one is left out.
fn read_lines(
    alloc: Global,
    profile: Profile,
    seen: &mut NameSet,
    hidden: &mut ByteStrings,
    report: &[u8],
    target: &[u8],
) -> Result<bool, ReportFault>
    ensures ok { IfOk result (Reads (mentioned profile target.now (joined_lines (Some report.now)))
        seen.old hidden.old seen.new hidden.new) }
    ensures fault { IfErr result (Stops (mentioned profile target.now (joined_lines (Some report.now))) seen.old) }
{
    let mut left_out = false;
    let mut left = Some(report);
    while let Some(bytes) = left {
        let (line, after) = next_joined_line(alloc, bytes)?;
        let is_left_out = read_names(
            alloc,
            profile,
            seen,
            hidden,
            names_on(profile, target, line.as_slice()),
        )?;
        left_out |= is_left_out;
        left = after;
    }
    Ok(left_out)
}

/// The names that the lines of a report say of the target and that weren't seen before.
fn hidden_names(
    alloc: Global,
    profile: Profile,
    seen: &mut NameSet,
    report: &[u8],
    target: &[u8],
) -> Result<ByteStrings, ReportFault>
    ensures names { IfOk result (λ hidden. Reads (mentioned profile target.now (joined_lines (Some report.now)))
        seen.old [] seen.new hidden false) }
    ensures fault { IfErr result (λ fault. Stops (mentioned profile target.now (joined_lines (Some report.now))) seen.old fault
        ⊎ ((fault ≡ TooMany) × (hidden : List (List ℕ)) × Reads (mentioned profile target.now (joined_lines (Some report.now)))
        seen.old [] seen.new hidden true)) }
{
    let mut hidden = ByteStrings::empty(alloc);
    if read_lines(alloc, profile, seen, &mut hidden, report, target)? {
        return Err(ReportFault::TooMany);
    }
    Ok(hidden)
}

/// The hidden prerequisites that a target's report names, in order of their first mention: neither the target nor one
/// of the names in `known`, which are its source and its explicit prerequisites.
///
/// Names are read as in this profile's rule lines. Lines for other targets are passed over. An `Err` gives no names, and of several faults the first is answered.
/// `key` hides from the report's writer which names collide in a table.
pub fn read_report(
    alloc: Global,
    profile: Profile,
    key: HashKey,
    report: &[u8],
    target: &[u8],
    known: &ByteStrings,
) -> Result<ByteStrings, ReportFault>
    ensures names { IfOk result (AreHidden profile report.now target.now known.now) }
    ensures fault { IfErr result (IsReportFault profile report.now target.now known.now) }
{
    if !is_text(report) {
        return Err(ReportFault::NotText);
    }
    let mut seen = known_names(alloc, key, target, known)?;
    hidden_names(alloc, profile, &mut seen, report, target)
}
