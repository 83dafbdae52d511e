//! A record says what happened to one target; an entry is what the state knows of it.

ghost use Rattle.std.specs.Prelude.{◌≡◌, IfOk};
ghost use Rattle.st_records.specs.declared.record.Record.TheVariants as records;
ghost use Rattle.st_records.specs.Parts.{explicit_from};
ghost use Rattle.st_records.specs.Parts.{names_known, marks_known, target_of, commands_of, hidden_of, explicit_of};

use byte_strings::{ByteString, ByteStrings, Iter};
use std::alloc::{AllocError, Global};

/// How far the last run of a target's recipe came.
#[derive(Clone, Copy, Debug, PartialEq, Eq)]
pub enum Phase {
    Begun,
    Done,
    /// The status of the command that failed: 0 to 255, or 256 where it was stopped or not started.
    Failed(u32),
}

/// The prerequisites that the makefile named for a target when its recipe was run to its end, in order.
#[derive(Debug, Drop)]
pub enum Explicit {
    /// No record says them: the last one is of version 1, or the recipe was not run to its end.
    Unknown,
    Known(ByteStrings),
    /// And which files the target and all that went into it were, as the text that `st_marks` reads and writes.
    Marked(ByteStrings, ByteString),
}

/// What is said of explicit names, where it is lent.
#[derive(Drop)]
pub enum Named<'a> {
    Unknown,
    Known(Iter<'a>),
    Marked(Iter<'a>, &'a [u8]),
}

impl Explicit {
    /// The names in order, none where they are unknown.
    pub fn names(&self) -> Iter<'_>
        ensures { result ≡ names_known self.now }
    {
        match self {
            Explicit::Unknown => Iter::empty(),
            Explicit::Known(names) => names.iter(),
            Explicit::Marked(names, _marks) => names.iter(),
        }
    }

    /// The text of the marks, empty where there are none.
    pub(crate) fn marks(&self) -> &[u8]
        ensures { result.now ≡ marks_known self.now }
    {
        match self {
            Explicit::Unknown => &[],
            Explicit::Known(_names) => &[],
            Explicit::Marked(_names, marks) => marks.as_slice(),
        }
    }

    pub fn lend(&self) -> Named<'_>
        ensures { explicit_from result ≡ self.now }
    {
        match self {
            Explicit::Unknown => Named::Unknown,
            Explicit::Known(names) => Named::Known(names.iter()),
            Explicit::Marked(names, marks) => Named::Marked(names.iter(), marks.as_slice()),
        }
    }

    pub fn copy(&self, alloc: Global) -> Result<Explicit, AllocError>
        ensures { IfOk result (λ copied. copied ≡ self.now) }
    {
        match self {
            Explicit::Unknown => Ok(Explicit::Unknown),
            Explicit::Known(names) => Ok(Explicit::Known(names.copy(alloc)?)),
            Explicit::Marked(names, marks) => {
                Ok(Explicit::Marked(names.copy(alloc)?, marks.copy(alloc)?))
            }
        }
    }
}

/// What the state knows of a target.
#[derive(Debug, Drop)]
pub struct Entry {
    pub phase: Phase,
    /// The commands that were run, each as one text.
    pub commands: ByteStrings,
    /// Files that the commands read beside the prerequisites which the makefile names.
    pub hidden: ByteStrings,
    pub explicit: Explicit,
}

impl Entry {
    pub fn copy(&self, alloc: Global) -> Result<Entry, AllocError>
        ensures { IfOk result (λ copied. copied ≡ self.now) }
    {
        Ok(Entry {
            phase: self.phase,
            commands: self.commands.copy(alloc)?,
            hidden: self.hidden.copy(alloc)?,
            explicit: self.explicit.copy(alloc)?,
        })
    }
}

/// One step in the history of a target.
#[derive(Debug, Drop)]
pub enum Record {
    /// Its recipe is about to be run.
    Begun {
        target: ByteString,
    },
    /// Its recipe was run to its end.
    Done {
        target: ByteString,
        commands: ByteStrings,
        hidden: ByteStrings,
        /// Known in version 2, and unknown in version 1; marked in version 4.
        explicit: Explicit,
    },
    /// Its recipe failed with this status.
    Failed {
        target: ByteString,
        status: u32,
    },
    /// All that was known of it when the file was written anew.
    Kept {
        target: ByteString,
        entry: Entry,
    },
}

impl Record {
    /// The target of which the record speaks.
    pub fn target(&self) -> &ByteString
        ensures { result.now ≡ target_of self.now }
    {
        match self {
            Record::Begun { target } => target,
            Record::Done { target, .. } => target,
            Record::Failed { target, .. } => target,
            Record::Kept { target, .. } => target,
        }
    }

    pub(crate) fn commands(&self) -> Iter<'_>
        ensures { result ≡ commands_of self.now }
    {
        match self {
            Record::Done { commands, .. } => commands.iter(),
            Record::Kept { entry, .. } => entry.commands.iter(),
            Record::Begun { .. } => Iter::empty(),
            Record::Failed { .. } => Iter::empty(),
        }
    }

    pub(crate) fn hidden(&self) -> Iter<'_>
        ensures { result ≡ hidden_of self.now }
    {
        match self {
            Record::Done { hidden, .. } => hidden.iter(),
            Record::Kept { entry, .. } => entry.hidden.iter(),
            Record::Begun { .. } => Iter::empty(),
            Record::Failed { .. } => Iter::empty(),
        }
    }

    pub(crate) fn explicit(&self) -> Iter<'_>
        ensures { result ≡ names_known (explicit_of self.now) }
    {
        match self {
            Record::Done { explicit, .. } => explicit.names(),
            Record::Kept { entry, .. } => entry.explicit.names(),
            Record::Begun { .. } => Iter::empty(),
            Record::Failed { .. } => Iter::empty(),
        }
    }

    pub(crate) fn marks(&self) -> &[u8]
        ensures { result.now ≡ marks_known (explicit_of self.now) }
    {
        match self {
            Record::Done { explicit, .. } => explicit.marks(),
            Record::Kept { entry, .. } => entry.explicit.marks(),
            Record::Begun { .. } => &[],
            Record::Failed { .. } => &[],
        }
    }

    pub fn copy(&self, alloc: Global) -> Result<Record, AllocError>
        ensures { IfOk result (λ copied. copied ≡ self.now) }
    {
        match self {
            Record::Begun { target } => begun_copied(alloc, target),
            Record::Done {
                target,
                commands,
                hidden,
                explicit,
            } => done_copied(alloc, target, commands, hidden, explicit),
            Record::Failed { target, status } => failed_copied(alloc, target, *status),
            Record::Kept { target, entry } => kept_copied(alloc, target, entry),
        }
    }
}

fn begun_copied(alloc: Global, target: &ByteString) -> Result<Record, AllocError>
    ensures { IfOk result (λ copied. copied ≡ records.Begun target.now) }
{
    Ok(Record::Begun {
        target: target.copy(alloc)?,
    })
}

fn done_copied(
    alloc: Global,
    target: &ByteString,
    commands: &ByteStrings,
    hidden: &ByteStrings,
    explicit: &Explicit,
) -> Result<Record, AllocError>
    ensures { IfOk result (λ copied. copied ≡ records.Done target.now commands.now hidden.now explicit.now) }
{
    Ok(Record::Done {
        target: target.copy(alloc)?,
        commands: commands.copy(alloc)?,
        hidden: hidden.copy(alloc)?,
        explicit: explicit.copy(alloc)?,
    })
}

fn failed_copied(alloc: Global, target: &ByteString, status: u32) -> Result<Record, AllocError>
    ensures { IfOk result (λ copied. copied ≡ records.Failed target.now status) }
{
    Ok(Record::Failed {
        target: target.copy(alloc)?,
        status,
    })
}

fn kept_copied(alloc: Global, target: &ByteString, entry: &Entry) -> Result<Record, AllocError>
    ensures { IfOk result (λ copied. copied ≡ records.Kept target.now entry.now) }
{
    Ok(Record::Kept {
        target: target.copy(alloc)?,
        entry: entry.copy(alloc)?,
    })
}
