//! How a run goes, by the words of the command line and the makefile.

ghost use Rattle.std.specs.Prelude.{◌≡◌, ◌||◌, nat_le, if◌then◌else◌, IfOk};
ghost use Rattle.dmk_reading.specs.Lost.{goes_without};
ghost use Rattle.mk_settings.specs.Pools.{waiting_for};
ghost use Rattle.jb_recipe.specs.declared.variables.Makeflags.TheVariants as flags;

use bd_lists::Variable;
use byte_strings::ByteString;
use dmk_reading::goes_without;
use jb_recipe::{Conduct, Makeflags};
use mk_plan::Telling;
use mk_profile::Profile;
use mk_settings::Settings;
use st_records::Form;
use std::alloc::{AllocError, Global};

/// What the words of the command line ask of a run, beside makefile and targets.
#[derive(Drop)]
pub struct Wishes<'a> {
    /// The name of the state's side A.
    pub state: String,
    /// The name of it by which recipes find their reports.
    pub reports: &'a [u8],
    pub workers: usize,
    pub goes_on: bool,
    pub is_silent: bool,
    pub ignores_statuses: bool,
    /// Each target is made, whatever the files and the state say of it.
    pub makes_all: bool,
    /// How much is told of why targets are made.
    pub telling: Telling,
}

/// How many workers there are beside so many, which wait for a place in a pool: one alone makes nodes in order, and needs none.
pub fn waiting_beside(workers: usize, settings: &Settings) -> usize
    ensures { result ≡ (if nat_le workers 1 then 0 else waiting_for settings.now.pools) }
{
    if workers <= 1 {
        0
    } else {
        settings.pools.waiting()
    }
}

impl Wishes<'_> {
    /// How many recipes may run at once.
    pub fn workers(&self, settings: &Settings) -> usize
        ensures { result ≡ (if settings.now.has_one_worker then 1 else self.now.workers) }
    {
        if settings.has_one_worker {
            1
        } else {
            self.workers
        }
    }

    /// Whether the run goes on without names that have no file and that nothing makes.
    pub(crate) fn goes_without(&self, profile: Profile) -> bool
        ensures { result ≡ goes_without profile self.now.goes_on }
    {
        goes_without(profile, self.goes_on)
    }

    /// How the run goes. What recipes get of MAKEFLAGS, and how many are run at once, is said when the job slots are known.
    pub(crate) fn conduct(
        &self,
        alloc: Global,
        form: Form,
        keeps_state: bool,
        definitions: Vec<Variable>,
    ) -> Result<Conduct, AllocError>
        ensures form { IfOk result (λ c. c.form ≡ form) }
        ensures state { IfOk result (λ c. (c.keeps_state ≡ keeps_state) × (c.state_name ≡ self.now.reports.now)) }
        ensures records { IfOk result (λ c. c.counts_records ≡ self.now.makes_all || keeps_state) }
        ensures goes_on { IfOk result (λ c. c.goes_on ≡ self.now.goes_on) }
        ensures ignores { IfOk result (λ c. c.ignores_statuses ≡ self.now.ignores_statuses) }
        ensures silent { IfOk result (λ c. c.prints_no_lines ≡ self.now.is_silent) }
        ensures telling { IfOk result (λ c. c.telling ≡ self.now.telling) }
        ensures definitions { IfOk result (λ c. c.definitions ≡ definitions) }
        ensures flags { IfOk result (λ c. c.makeflags ≡ flags.Removed) }
    {
        Ok(Conduct {
            keeps_state,
            form,
            counts_records: self.makes_all || keeps_state,
            goes_on: self.goes_on,
            ignores_statuses: self.ignores_statuses,
            prints_no_lines: self.is_silent,
            telling: self.telling,
            definitions,
            makeflags: Makeflags::Removed,
            at_once: 1,
            state_name: ByteString::from_slice(alloc, self.reports)?,
        })
    }
}
