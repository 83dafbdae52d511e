//! What the record of a recipe's end will say, from its target's 'begun' on.
ghost use Rattle.std.specs.Prelude.{◌≡◌, ◌≤◌, false, None, IfOk, IfSome, OnOk, option_copied};
ghost use Rattle.st_records.specs.Limits.{IsGoodIn};
ghost use Rattle.st_records.specs.declared.record.Record.TheVariants as records;
ghost use Rattle.jb_recipe.specs.Environment.{NamesReport};
ghost use Rattle.jb_recipe.specs.Files.{AreLooksAt, IsLooked, is_marked};

use crate::depfile::Depfiles;
use crate::files::Files;
use crate::looking::look_before;
use crate::noting::{Plan, writable};
use crate::{NotDone, Place, PlaceFault};
use bd_flusher::Receipt;
use bd_lists::{Clearance, Recipe};
use byte_strings::{ByteString, ByteStrings};
use jb_marks::{Before, Earlier};
use mk_profile::Profile;
use st_records::{Form, Record};
use std::alloc::{AllocError, Global};
use std::io;

/// The status of a target whose report can't be taken, or whose file can't be put on the disk.
pub(crate) const NOT_TAKEN: u32 = 256;

/// What the record of a recipe's end says, but for what came of the recipe.
#[derive(Drop)]
pub struct EndNote {
    /// That of the record.
    pub(crate) form: Form,
    pub(crate) target: ByteString,
    pub(crate) commands: ByteStrings,
    pub(crate) files: Files,
    pub(crate) known: ByteStrings,
    pub(crate) report: Option<ByteString>,
    /// Where the recipe writes what it read, as the makefile says.
    pub(crate) places: Option<ByteStrings>,
    /// How the names of the report are read.
    pub(crate) profile: Profile,
    pub(crate) removes: bool,
    /// The time of the target's file before the recipe, where that may be removed.
    pub(crate) before: Option<i128>,
    /// What was looked at before the recipe, where the record says which files the target was made of.
    pub(crate) looked: Option<Before>,
    /// The files of which this recipe may have written some with what it read, looked at then too.
    pub(crate) depfiles: Option<Depfiles>,
}

/// The last record of a target, and what there is to say where it isn't a 'done'.
#[derive(Drop)]
pub struct Last {
    /// None where not even a 'failed' may stand in the state.
    pub record: Option<Record>,
    pub not_done: Option<NotDone>,
    /// There was no report, and a compiler was told to write what it read elsewhere.
    pub unreported: bool,
    /// The recipe is done, and didn't write these files, which the makefile says that it writes what it read into.
    pub unwritten: Option<ByteStrings>,
    /// The recipe is done, and each file that it makes is as it was before it.
    pub is_same: bool,
}

impl Plan {
    /// The 'begun', the recipe that it clears, what the record of its end will say, and the lines that say why it is run.
    pub fn apart(self, alloc: Global) -> Result<(Record, Recipe, EndNote, ByteStrings), AllocError>
        ensures good { IfOk result (λ p. IsGoodIn self.form p.0) }
        ensures own { IfOk result (λ p. p.0 ≡ records.Begun p.1.target) }
        ensures recipe { IfOk result (λ p. p.1 ≡ self.recipe) }
        ensures note { IfOk result (λ p. p.2 ≡ record {
          form = self.form;
          target = self.recipe.target;
          commands = self.commands;
          files = self.files;
          known = self.known;
          report = self.report;
          places = self.places;
          profile = self.profile;
          removes = self.removes;
          before = None;
          looked = None;
          depfiles = None;
        }) }
        ensures named { IfOk result (λ p. IfSome p.2.report (NamesReport p.1.target p.1.env.items)) }
        ensures told { IfOk result (λ p. p.3 ≡ self.told) }
    {
        let target = self.recipe.target.copy(alloc)?;
        let note = EndNote {
            form: self.form,
            target,
            commands: self.commands,
            files: self.files,
            known: self.known,
            report: self.report,
            places: self.places,
            profile: self.profile,
            removes: self.removes,
            before: None,
            looked: None,
            depfiles: None,
        };
        Ok((self.begun, self.recipe, note, self.told))
    }
}

pub(crate) fn failed(form: Form, target: ByteString, status: u32) -> Option<Record>
    requires { status ≤ 256 }
    ensures good { IfSome result (λ r. IsGoodIn form r) }
    ensures note { IfSome result (λ r. r ≡ records.Failed target status) }
{
    writable(form, Record::Failed { target, status })
}

/// Whether a record of this form says which files a target with this report was made of.
fn is_marked(form: Form, report: Option<&ByteString>) -> bool
    ensures { result ≡ is_marked form (option_copied report.entry) }
{
    match form {
        Form::Old | Form::Plain => false,
        Form::Marked => report.is_some(),
    }
}

impl EndNote {
    /// Between the target's 'begun' and the first line of its recipe. A report of an earlier run must not be taken for this one's, nor be
    /// a link by which a compiler writes elsewhere: where it can't be removed, which a fault of the device tells, no line may be run. What
    /// the recipe changes is told by the time of the file as it was; and where the record of the end has marks, all that goes into the
    /// target is looked at.
    pub fn before_run<P: Place, E: Earlier>(
        &mut self,
        alloc: Global,
        clearance: &Clearance<Receipt>,
        place: &P,
        run: &E,
    ) -> Result<(), PlaceFault>
        requires own { clearance.now.told.noted ≡ records.Begun self.old.target }
        ensures gone { OnOk result (IfSome self.new.report (P.gone place.now)) }
        ensures report { self.new.report ≡ self.old.report }
        ensures form { self.new.form ≡ self.old.form }
        ensures names { (self.new.target ≡ self.old.target) × (self.new.commands ≡ self.old.commands) × (self.new.files ≡ self.old.files) }
        ensures looked { OnOk result (IsLooked (is_marked self.old.form self.old.report)
            (AreLooksAt (P.told place.now) (E.said run.now) (P.ticked place.now) self.old.target self.old.files) self.new.looked) }
    {
        if let Err(error) = self.remove_report(place) {
            return Err(PlaceFault::Device(error));
        }
        let _of_before = place.stopped();
        if self.removes {
            self.before = place.stamp(self.target.as_slice());
        }
        self.looked = self.looks(alloc, place, run)?;
        self.depfiles = self.depfile_looks(alloc, place)?;
        Ok(())
    }

    // Where the recipe may write what it read, where the record of its end is to say which files those were.
    fn depfile_looks<P: Place>(
        &self,
        alloc: Global,
        place: &P,
    ) -> Result<Option<Depfiles>, AllocError> {
        if self.looked.is_none() {
            return Ok(None);
        }
        let places = self.places.as_ref();
        Ok(Some(Depfiles::look(alloc, place, &self.commands, places)?))
    }

    // What goes into the target, looked at where the record of its end is to say it.
    fn looks<P: Place, E: Earlier>(
        &self,
        alloc: Global,
        place: &P,
        run: &E,
    ) -> Result<Option<Before>, AllocError>
        ensures { IfOk result (IsLooked (is_marked self.now.form self.now.report)
            (AreLooksAt (P.told place.now) (E.said run.now) (P.ticked place.now) self.now.target self.now.files)) }
    {
        if !is_marked(self.form, self.report.as_ref()) {
            return Ok(None);
        }
        let names = self.files.names(self.target.as_slice());
        Ok(Some(look_before(alloc, place, run, &names)?))
    }

    pub fn target(&self) -> &[u8]
        ensures { result.now ≡ self.now.target }
    {
        self.target.as_slice()
    }

    /// Where the recipe writes its report, if it is to.
    pub fn report(&self) -> Option<&ByteString>
        ensures { option_copied result ≡ self.now.report }
    {
        self.report.as_ref()
    }

    /// The record of a recipe of which no line was run, since a report of an earlier run can't be removed.
    pub fn left(self, error: io::Error) -> Last
        ensures good { IfSome result.record (λ r. IsGoodIn self.form r) }
        ensures note { IfSome result.record (λ r. r ≡ records.Failed self.target 256) }
    {
        self.into_failed(NOT_TAKEN, Some(NotDone::NotRemoved(error)))
    }

    /// The report of a failed recipe isn't left behind either.
    pub(crate) fn remove_report<P: Place>(&self, place: &P) -> io::Result<()>
        ensures { OnOk result (IfSome self.now.report (P.gone place.now)) }
    {
        match &self.report {
            Some(path) => place.remove(path.as_slice()),
            None => Ok(()),
        }
    }

    pub(crate) fn into_failed(self, status: u32, not_done: Option<NotDone>) -> Last
        requires { status ≤ 256 }
        ensures good { IfSome result.record (λ r. IsGoodIn self.form r) }
        ensures note { IfSome result.record (λ r. r ≡ records.Failed self.target status) }
        ensures same { result.is_same ≡ false }
    {
        Last {
            record: failed(self.form, self.target, status),
            not_done,
            unreported: false,
            unwritten: None,
            is_same: false,
        }
    }
}
