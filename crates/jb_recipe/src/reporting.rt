//! How a target's recipe ended, as it is written.
ghost use Rattle.std.specs.Prelude.{◌≡◌, ◌⊎◌, ◌≤◌, ℕ, true, List, ◌∷◌, IfOk, IfSome, OnOk};
ghost use Rattle.std.specs.List.{AllByRecursion};
ghost use Rattle.st_records.specs.Limits.{IsGoodIn};
ghost use Rattle.st_records.specs.declared.record.Record.TheVariants as records;
ghost use Rattle.mk_recipe.specs.declared.line_status.Outcome.TheVariants.{Done};
ghost use Rattle.bd_lists.specs.Running.{FailsInRange};
ghost use Rattle.jb_recipe.specs.Files.{AreMarksOf, IsLeftSame};
ghost use Rattle.jb_recipe.specs.Noting.{said_in, IsEndOf};
ghost use Rattle.jb_recipe.specs.OnDisk.{StandsBehind};

use crate::depfile::Read;
use crate::elsewhere::tells_elsewhere;
use crate::end_note::{EndNote, Last, NOT_TAKEN, failed};
use crate::files::Files;
use crate::hidden::hidden_by;
use crate::looking::{Behind, look_at_left};
use crate::noting::writable;
use crate::place::sync_made;
use crate::said::said_in;
use crate::{NotDone, Place, PlaceFault};
use byte_strings::{ByteString, ByteStrings};
use jb_marks::Earlier;
use mk_profile::Profile;
use mk_recipe::{Outcome, read_report};
use st_records::{HashKey, Record};
use std::alloc::{AllocError, Global};

/// The status of a recipe a line of which was stopped or not started.
const STOPPED: u32 = 256;

/// The bytes of a report, which isn't left behind; None where there is none.
fn taken_away<P: Place>(
    alloc: Global,
    place: &P,
    path: &[u8],
) -> Result<Option<Vec<u8>>, PlaceFault> {
    let found = place.report(alloc, path);
    if !matches!(found, Ok(None)) {
        let _ = place.remove(path);
    }
    found
}

/// The hidden names of a report, None where there is none, or why it can't be taken.
fn taken<P: Place>(
    alloc: Global,
    key: HashKey,
    place: &P,
    path: &ByteString,
    target: &ByteString,
    profile: Profile,
    known: &ByteStrings,
) -> Result<Result<Option<ByteStrings>, NotDone>, AllocError> {
    let bytes = match taken_away(alloc, place, path.as_slice()) {
        Ok(Some(bytes)) => bytes,
        Ok(None) => return Ok(Ok(None)),
        Err(PlaceFault::Device(error)) => return Ok(Err(NotDone::Unread(error))),
        Err(PlaceFault::OutOfMemory) => return Err(AllocError),
    };
    match read_report(alloc, profile, key, &bytes, target.as_slice(), known) {
        Ok(hidden) => Ok(Ok(Some(hidden))),
        Err(fault) => match NotDone::of_report(fault) {
            Some(not_done) => Ok(Err(not_done)),
            None => Err(AllocError),
        },
    }
}

impl EndNote {
    // Removes the file of a failed recipe's target, where that is to be and the recipe changed it. Whether it is gone.
    fn remove_target<P: Place>(&self, place: &P) -> bool {
        let target = self.target.as_slice();
        if !self.removes {
            return false;
        }
        let after = place.stamp(target);
        if after.is_none() || after == self.before {
            return false;
        }
        let _ = place.remove(target);
        place.stamp(target).is_none()
    }

    // What there is to say of a recipe that failed with this status.
    fn failure<P: Place>(&self, place: &P, status: u32) -> Option<NotDone> {
        let removed = self.remove_target(place);
        let stopped = if status == STOPPED {
            place.stopped()
        } else {
            None
        };
        NotDone::of_failed(stopped, removed)
    }

    // The hidden names that the recipe reported, None where there is no report, or why it can't be taken.
    fn hidden<P: Place>(
        &self,
        alloc: Global,
        key: HashKey,
        place: &P,
    ) -> Result<Result<Option<ByteStrings>, NotDone>, AllocError> {
        match &self.report {
            Some(path) => taken(
                alloc,
                key,
                place,
                path,
                &self.target,
                self.profile,
                &self.known,
            ),
            None => Ok(Ok(None)),
        }
    }

    // What the recipe has written beside the report of what it read; nothing where that wasn't looked for.
    fn read_depfiles<P: Place>(
        &self,
        alloc: Global,
        place: &P,
    ) -> Result<Result<Read, NotDone>, AllocError> {
        match &self.depfiles {
            Some(depfiles) => depfiles.read(alloc, place),
            None => Ok(Ok(Read::nothing())),
        }
    }

    // What was read by the report and by what was written beside it.
    fn read_by(
        &self,
        alloc: Global,
        reported: Option<ByteStrings>,
        elsewhere: Read,
    ) -> Result<Read, AllocError> {
        let Read {
            names,
            is_whole,
            unwritten,
        } = elsewhere;
        let is_whole = is_whole || reported.is_some();
        let Some(names) = names else {
            return Ok(Read {
                names: reported,
                is_whole,
                unwritten,
            });
        };
        let reported = match reported {
            Some(reported) => reported,
            None => ByteStrings::empty(alloc),
        };
        let target = self.target.as_slice();
        let hidden = hidden_by(alloc, target, &self.known, &reported, &names)?;
        Ok(Read {
            names: Some(hidden),
            is_whole,
            unwritten,
        })
    }

    // Whether a compiler was told to write elsewhere what the report was to have.
    fn is_told_elsewhere(&self) -> bool {
        self.report.is_some() && self.commands.iter().any(|command| tells_elsewhere(command))
    }

    // The 'done', with this text of the marks.
    fn done(self, hidden: ByteStrings, marks: ByteString) -> Record
        ensures { result ≡ records.Done self.target self.commands hidden (said_in self.form self.files.explicit marks) }
    {
        let EndNote {
            form,
            target,
            commands,
            files,
            known: _,
            report: _,
            places: _,
            profile: _,
            removes: _,
            before: _,
            looked: _,
            depfiles: _,
        } = self;
        let Files {
            others: _,
            source: _,
            explicit,
            recorded: _,
        } = files;
        Record::Done {
            target,
            commands,
            hidden,
            explicit: said_in(form, explicit, marks),
        }
    }

    // Puts the files that the recipe makes on the disk, or says why one isn't there. Only a state that is kept could outlive them.
    fn synced<P: Place>(&self, place: &P) -> Result<Result<(), NotDone>, AllocError>
        ensures { IfOk result (λ r. OnOk r (IfSome self.now.report
            (λ _. AllByRecursion (P.synced place.now) (self.now.target ∷ self.now.files.others)))) }
    {
        if self.report.is_none() {
            return Ok(Ok(()));
        }
        match sync_made(place, self.target.as_slice(), &self.files.others) {
            Ok(()) => Ok(Ok(())),
            Err(PlaceFault::Device(error)) => Ok(Err(NotDone::NotSynced(error))),
            Err(PlaceFault::OutOfMemory) => Err(AllocError),
        }
    }

    // What a recipe that passed has read, or why a report of that can't be taken or the target's file isn't on the disk.
    fn read_once_synced<P: Place>(
        &self,
        alloc: Global,
        key: HashKey,
        place: &P,
    ) -> Result<Result<Read, NotDone>, AllocError>
        ensures { IfOk result (λ r. IfOk r (λ _. IfSome self.now.report
            (λ _. AllByRecursion (P.synced place.now) (self.now.target ∷ self.now.files.others)))) }
    {
        let reported = match self.hidden(alloc, key, place)? {
            Ok(reported) => reported,
            Err(not_done) => return Ok(Err(not_done)),
        };
        let elsewhere = match self.read_depfiles(alloc, place)? {
            Ok(elsewhere) => elsewhere,
            Err(not_done) => return Ok(Err(not_done)),
        };
        let read = self.read_by(alloc, reported, elsewhere)?;
        match self.synced(place)? {
            Ok(()) => Ok(Ok(read)),
            Err(not_done) => Ok(Err(not_done)),
        }
    }

    // What the recipe has left, which reports these hidden names.
    fn behind<P: Place, E: Earlier>(
        &self,
        alloc: Global,
        place: &P,
        run: &E,
        hidden: &ByteStrings,
    ) -> Result<Behind, AllocError>
        ensures marks { IfOk result (λ b. AreMarksOf (P.told place.now) (E.said run.now) self.now.target self.now.files self.now.looked hidden.now b.marks) }
        ensures same { IfOk result (λ b. b.is_same ≡ true → IsLeftSame (P.told place.now) self.now.target self.now.files self.now.looked) }
    {
        match &self.looked {
            Some(before) => {
                let names = self.files.names(self.target.as_slice());
                look_at_left(alloc, place, run, &names, before, hidden)
            }
            None => Ok(Behind {
                marks: ByteString::new(Vec::new(alloc)),
                is_same: false,
            }),
        }
    }

    // A 'done' where it may stand in the state, else a 'failed'.
    fn into_done(
        self,
        alloc: Global,
        hidden: ByteStrings,
        behind: Behind,
        unreported: bool,
    ) -> Result<Last, AllocError>
        ensures good { IfOk result (λ l. IfSome l.record (λ note. IsGoodIn self.form note)) }
        ensures end { IfOk result (λ l. IfSome l.record (λ note. (note ≡ records.Failed self.target 256)
            ⊎ (note ≡ records.Done self.target self.commands hidden (said_in self.form self.files.explicit behind.marks)))) }
        ensures same { IfOk result (λ l. l.is_same ≡ true → behind.is_same ≡ true) }
    {
        let form = self.form;
        let target = self.target.copy(alloc)?;
        let Behind { marks, is_same } = behind;
        match writable(form, self.done(hidden, marks)) {
            Some(done) => Ok(Last {
                record: Some(done),
                not_done: None,
                unreported,
                unwritten: None,
                is_same,
            }),
            None => Ok(Last {
                record: failed(form, target, NOT_TAKEN),
                not_done: Some(NotDone::LongRecord),
                unreported: false,
                unwritten: None,
                is_same: false,
            }),
        }
    }

    // The record of a recipe that passed, whose files are on the disk, and which has read this.
    fn passed<P: Place, E: Earlier>(
        self,
        alloc: Global,
        place: &P,
        run: &E,
        read: Read,
    ) -> Result<Last, AllocError>
        ensures good { IfOk result (λ l. IfSome l.record (λ note. IsGoodIn self.form note)) }
        ensures end { IfOk result (λ l. IfSome l.record (λ note. IsEndOf self.form Done self.target self.commands self.files.explicit
            (AreMarksOf (P.told place.now) (E.said run.now) self.target self.files self.looked) note)) }
        ensures same { IfOk result (λ l. l.is_same ≡ true → IsLeftSame (P.told place.now) self.target self.files self.looked) }
    {
        let Read {
            names,
            is_whole,
            unwritten,
        } = read;
        let unreported = !is_whole && self.is_told_elsewhere();
        let hidden = match names {
            Some(hidden) => hidden,
            None => ByteStrings::empty(alloc),
        };
        let behind = self.behind(alloc, place, run, &hidden)?;
        let mut last = self.into_done(alloc, hidden, behind, unreported)?;
        last.unwritten = unwritten;
        Ok(last)
    }

    /// The record of the end: a 'done' only where the report was taken, the target's file is on the disk, and the record may
    /// stand in the state. Where it says which files the target was made of, what the recipe made and what is new in the report are
    /// looked at once the files are on the disk. Where a report is asked for, as in each run that keeps a state, a 'done' stands behind the
    /// sync of each file that the recipe made.
    pub fn last_record<P: Place, E: Earlier>(
        self,
        alloc: Global,
        key: HashKey,
        place: &P,
        run: &E,
        outcome: Outcome,
    ) -> Result<Last, AllocError>
        requires { FailsInRange outcome }
        ensures good { IfOk result (λ l. IfSome l.record (λ note. IsGoodIn self.form note)) }
        ensures end { IfOk result (λ l. IfSome l.record (λ note. IsEndOf self.form outcome self.target self.commands self.files.explicit
            (AreMarksOf (P.told place.now) (E.said run.now) self.target self.files self.looked) note)) }
        ensures same { IfOk result (λ l. l.is_same ≡ true → IsLeftSame (P.told place.now) self.target self.files self.looked) }
        ensures on_disk { IfOk result (λ l. IfSome l.record (λ note. IfSome self.report
            (λ _. StandsBehind (P.synced place.now) (self.target ∷ self.files.others) note))) }
    {
        if let Outcome::Failed(status) = outcome {
            let _ = self.remove_report(place);
            let removed = self.failure(place, status);
            return Ok(self.into_failed(status, removed));
        }
        match self.read_once_synced(alloc, key, place)? {
            Ok(read) => self.passed(alloc, place, run, read),
            Err(not_done) => Ok(self.into_failed(NOT_TAKEN, Some(not_done))),
        }
    }
}
