//! Whether a target is finished, and if it isn't, why.
ghost use Rattle.std.specs.Prelude.{◌≡◌, position};
ghost use Rattle.std.specs.List.{list_any};
ghost use Rattle.std.specs.Option.{option_copied};
ghost use Rattle.mk_verdict.specs.Verdict.{IsVerdict};
ghost use Rattle.mk_verdict.specs.Tests.{is_later, is_newer, is_changed, is_gone, is_replaced, gone_at, counts_as_remade, phase_reason, changed_reason, recorded_reason, timed_reason, replaced_reason, present_reason, first_reason};

use crate::mark::{Look, MadeFile, Mark};
use byte_strings::ByteStrings;
use mk_lines::is_utf8;
use st_packed::PackedEntry;
use st_records::Phase;

/// A prerequisite as it is now.
#[derive(Clone, Copy)]
pub struct Prerequisite<'a> {
    pub name: &'a [u8],
    /// The time of its file, if it has one.
    pub stamp: Option<i128>,
    /// The makefile doesn't name it: the target's commands have read it.
    pub is_hidden: bool,
    /// The makefile has a rule for it.
    pub has_rule: bool,
    /// It was built in this run, or has no recipe and one of its own prerequisites was.
    pub is_remade: bool,
    /// Its file now. It counts only where a mark of it is kept.
    pub look: Look,
    /// Its file as it was when the target's recipe was begun.
    pub mark: Mark,
}

/// A target as it is now.
#[derive(Clone, Copy)]
pub struct Target<'a> {
    /// What its recipe would record.
    pub commands: &'a ByteStrings,
    /// The prerequisites that the makefile names for it, as they would be recorded.
    pub explicit: &'a ByteStrings,
    /// The time of its file, if it has one.
    pub stamp: Option<i128>,
    /// Its source, the explicit prerequisites, the hidden ones, without repeats. Reasons count them from 0.
    pub prerequisites: &'a [Prerequisite<'a>],
    /// Hidden prerequisites count for the order of this run, and so for what is remade.
    pub orders_hidden: bool,
    /// Another source is recorded than it has now.
    pub source_changed: bool,
    /// Its own file, and those that its recipe makes beside it.
    pub files: &'a [MadeFile],
}

/// Why a target is out of date. A number is that of a prerequisite. The order is that in which reasons are looked for.
#[derive(Clone, Copy)]
pub enum Reason {
    /// The state has nothing about the target.
    NoEntry,
    /// Its recipe was begun and didn't come to an end.
    WasBegun,
    WasFailed,
    CommandsChanged,
    /// The recorded list of the makefile's prerequisites is known, or the recorded source, and it is another one now.
    PrerequisitesChanged,
    /// The target has no file.
    Absent,
    /// A file of the target isn't the one that its recipe has left.
    TargetChanged,
    /// The prerequisite's file is later than the target's. Where a mark of it is kept this doesn't count, but for folders.
    Newer(usize),
    /// The prerequisite's file isn't the one of which the target was made.
    Changed(usize),
    /// A hidden prerequisite has neither file nor rule, or a name that isn't UTF-8.
    HiddenGone(usize),
    Remade(usize),
}

/// Whether a target is finished.
#[derive(Clone, Copy)]
pub enum Verdict {
    UpToDate,
    OutOfDate(Reason),
}

impl Prerequisite<'_> {
    fn is_later(&self, target: &Target<'_>) -> bool
        ensures { result ≡ is_later self.now.stamp target.now.stamp }
    {
        match (self.stamp, target.stamp) {
            (Some(stamp), Some(made)) => made < stamp,
            _ => false,
        }
    }

    fn is_newer(&self, keeping: bool, target: &Target<'_>) -> bool
        ensures { result ≡ is_newer keeping target.now.stamp self.now }
    {
        self.mark.kept(keeping).is_timed() && self.is_later(target)
    }

    fn is_changed(&self, keeping: bool) -> bool
        ensures { result ≡ is_changed keeping self.now }
    {
        self.mark.kept(keeping).differs(self.look)
    }

    fn is_gone(&self) -> bool
        ensures { result ≡ is_gone self.now }
    {
        self.is_hidden && ((self.stamp.is_none() && !self.has_rule) || !is_utf8(self.name))
    }

    fn counts_as_remade(&self, orders_hidden: bool) -> bool
        ensures { result ≡ counts_as_remade orders_hidden self.now }
    {
        self.is_remade && (orders_hidden || !self.is_hidden)
    }
}

fn phase_reason(phase: Phase) -> Option<Reason>
    ensures { result ≡ phase_reason phase }
{
    match phase {
        Phase::Begun => Some(Reason::WasBegun),
        Phase::Done => None,
        Phase::Failed(_) => Some(Reason::WasFailed),
    }
}

/// What has changed since the recipe was run to its end.
fn changed_reason(entry: &PackedEntry, target: &Target<'_>) -> Option<Reason>
    ensures { result ≡ changed_reason entry.now target.now }
{
    if !entry.commands().are(target.commands.iter()) {
        return Some(Reason::CommandsChanged);
    }
    if target.source_changed {
        return Some(Reason::PrerequisitesChanged);
    }
    match entry.explicit() {
        None => None,
        Some(names) => {
            if names.are(target.explicit.iter()) {
                None
            } else {
                Some(Reason::PrerequisitesChanged)
            }
        }
    }
}

/// The first of the reasons that the state alone gives.
fn recorded_reason(entry: Option<&PackedEntry>, target: &Target<'_>) -> Option<Reason>
    ensures { result ≡ recorded_reason (option_copied entry.entry) target.now }
{
    let Some(entry) = entry else {
        return Some(Reason::NoEntry);
    };
    match phase_reason(entry.phase()) {
        Some(reason) => Some(reason),
        None => changed_reason(entry, target),
    }
}

fn first_newer(keeping: bool, target: &Target<'_>) -> Option<usize>
    ensures { result ≡ position (is_newer keeping target.now.stamp) target.now.prerequisites.now }
{
    target
        .prerequisites
        .iter()
        .position(|p| p.is_newer(keeping, target))
}

fn first_changed(keeping: bool, target: &Target<'_>) -> Option<usize>
    ensures { result ≡ position (is_changed keeping) target.now.prerequisites.now }
{
    target
        .prerequisites
        .iter()
        .position(|p| p.is_changed(keeping))
}

fn first_gone(target: &Target<'_>) -> Option<usize>
    ensures { result ≡ position is_gone target.now.prerequisites.now }
{
    target.prerequisites.iter().position(|p| p.is_gone())
}

fn first_remade(target: &Target<'_>) -> Option<usize>
    ensures { result ≡ position (counts_as_remade target.now.orders_hidden) target.now.prerequisites.now }
{
    target
        .prerequisites
        .iter()
        .position(|p| p.counts_as_remade(target.orders_hidden))
}

/// The first hidden prerequisite that is gone, where state is kept.
fn gone_at(keeping: bool, target: &Target<'_>) -> Option<usize>
    ensures { result ≡ gone_at keeping target.now.prerequisites.now }
{
    if keeping { first_gone(target) } else { None }
}

/// The first of the reasons that files and this run give, where the target has a file.
fn timed_reason(keeping: bool, target: &Target<'_>) -> Option<Reason>
    ensures { result ≡ timed_reason keeping target.now }
{
    if let Some(number) = first_newer(keeping, target) {
        return Some(Reason::Newer(number));
    }
    if let Some(number) = first_changed(keeping, target) {
        return Some(Reason::Changed(number));
    }
    if let Some(number) = gone_at(keeping, target) {
        return Some(Reason::HiddenGone(number));
    }
    match first_remade(target) {
        Some(number) => Some(Reason::Remade(number)),
        None => None,
    }
}

/// Whether one of the target's files isn't, or may not be, the one that is recorded.
fn is_any_replaced(keeping: bool, target: &Target<'_>) -> bool
    ensures { result ≡ list_any (is_replaced keeping) target.now.files.now }
{
    target.files.iter().any(|file| file.is_replaced(keeping))
}

/// The first of the reasons that files and this run give, where the target has a file: first its own.
fn replaced_reason(keeping: bool, target: &Target<'_>) -> Option<Reason>
    ensures { result ≡ replaced_reason keeping target.now }
{
    if is_any_replaced(keeping, target) {
        return Some(Reason::TargetChanged);
    }
    timed_reason(keeping, target)
}

/// The first of the reasons that files and this run give.
fn present_reason(keeping: bool, target: &Target<'_>) -> Option<Reason>
    ensures { result ≡ present_reason keeping target.now }
{
    match target.stamp {
        None => Some(Reason::Absent),
        Some(_) => replaced_reason(keeping, target),
    }
}

/// The first of all reasons.
fn first_reason(keeping: bool, entry: Option<&PackedEntry>, target: &Target<'_>) -> Option<Reason>
    ensures { result ≡ first_reason keeping (option_copied entry.entry) target.now }
{
    if keeping {
        if let Some(reason) = recorded_reason(entry, target) {
            return Some(reason);
        }
    }
    present_reason(keeping, target)
}

/// Whether the target is up to date, or else the first reason why it isn't. It takes no memory.
///
/// `keeping` says that state is kept in this run; without it what the state says doesn't count. `entry` is what the
/// state has about the target. A target whose recipe was begun or failed is out of date whatever the times of files.
pub fn judge(keeping: bool, entry: Option<&PackedEntry>, target: &Target<'_>) -> Verdict
    ensures { IsVerdict keeping (option_copied entry.entry) target.now result }
{
    match first_reason(keeping, entry, target) {
        Some(reason) => Verdict::OutOfDate(reason),
        None => Verdict::UpToDate,
    }
}
