//! A record as it is read: its entry's strings stand in one piece of memory.

ghost use Rattle.std.specs.Prelude.{◌≡◌, ◌≤◌, IfOk, IsTrue, length};
ghost use Rattle.st_records.specs.Parts.{is_kept};
ghost use Rattle.st_records.specs.Encoding.{encoding_in};
ghost use Rattle.st_records.specs.Clean.{IsClean};
ghost use Rattle.st_records.specs.Tests.{has_too_many, fault_of};
ghost use Rattle.st_packed.specs.Event.{record_from};

use crate::packed::PackedEntry;
use byte_strings::ByteString;
use st_records::{Form, Phase, Record, RecordFault};
use std::alloc::{AllocError, Global};
use std::marker::Model;

/// What happened to a target.
#[derive(Debug, Drop)]
pub enum Event {
    Begun,
    /// The phase of the entry doesn't count.
    Done(PackedEntry),
    Failed(u32),
    Kept(PackedEntry),
}

/// A record as it is read. Contracts see it as the record.
#[derive(Debug)]
pub struct PackedRecord {
    target: ByteString,
    event: Event,
}

impl Model for PackedRecord {
    ghost use Rattle.st_records.specs.declared.record.Record.{Record};

    ghost Value = { Record };

    ghost use Rattle.st_packed.specs.Event.{record_from};

    ghost view = { λ r. record_from r.target r.event };
}

impl Drop for PackedRecord {
    fn drop(self) {
        let PackedRecord {
            target: _,
            event: _,
        } = self;
    }
}

impl PackedRecord {
    pub(crate) fn new(target: ByteString, event: Event) -> PackedRecord
        ensures { result ≡ record_from target event }
    {
        PackedRecord { target, event }
    }

    /// A copy of a record.
    pub fn of(alloc: Global, original: &Record) -> Result<PackedRecord, AllocError>
        ensures { IfOk result (λ copied. copied ≡ original.now) }
    {
        let target = original.target().copy(alloc)?;
        let event = match original {
            Record::Begun { .. } => Event::Begun,
            Record::Done {
                commands,
                hidden,
                explicit,
                ..
            } => Event::Done(PackedEntry::of(alloc, Phase::Done, commands, hidden, explicit)?),
            Record::Failed { status, .. } => Event::Failed(*status),
            Record::Kept { entry, .. } => Event::Kept(PackedEntry::of_entry(alloc, entry)?),
        };
        Ok(PackedRecord { target, event })
    }

    /// The target, and what happened to it.
    pub fn into_parts(self) -> (ByteString, Event)
        ensures { record_from result.0 result.1 ≡ self }
    {
        let PackedRecord { target, event } = self;
        (target, event)
    }

    /// Whether the record says all that was known of its target.
    pub fn is_kept(&self) -> bool
        ensures { result ≡ is_kept self.now }
    {
        matches!(self.event, Event::Kept(_))
    }

    /// The record with its strings in lists of their own.
    pub fn unpack(&self, alloc: Global) -> Result<Record, AllocError>
        ensures { IfOk result (λ r. r ≡ self.now) }
    {
        let target = self.target.copy(alloc)?;
        match &self.event {
            Event::Begun => Ok(Record::Begun { target }),
            Event::Done(entry) => {
                let entry = entry.unpack(alloc)?;
                Ok(Record::Done {
                    target,
                    commands: entry.commands,
                    hidden: entry.hidden,
                    explicit: entry.explicit,
                })
            }
            Event::Failed(status) => Ok(Record::Failed {
                target,
                status: *status,
            }),
            Event::Kept(entry) => {
                let entry = entry.unpack(alloc)?;
                Ok(Record::Kept { target, entry })
            }
        }
    }

    /// The first fault of the record, which has so many bytes, or none. Where its strings were found clean as they were
    /// read, none of them is looked at again.
    #[tactic(auto, using(st_records::proofs::Clean::none_of_clean))]
    pub(crate) fn fault_within(
        &self,
        alloc: Global,
        form: Form,
        clean: bool,
        len: usize,
    ) -> Result<Option<RecordFault>, AllocError>
        requires clean { IsTrue clean → IsClean form self.now }
        requires length { length (encoding_in form self.now) ≤ len }
        ensures { IfOk result (λ fault. fault ≡ fault_of form self.now) }
    {
        if clean && len <= form.max_record_bytes() && !self.has_too_many() {
            return Ok(None);
        }
        Ok(self.unpack(alloc)?.fault(form))
    }

    fn has_too_many(&self) -> bool
        ensures { result ≡ has_too_many self.now }
    {
        match &self.event {
            Event::Begun => false,
            Event::Done(entry) => entry.has_too_many(),
            Event::Failed(_) => false,
            Event::Kept(entry) => entry.has_too_many(),
        }
    }
}
