//! What holds over every order of steps. Nothing here runs: each body is empty.

ghost use Rattle.st_records.specs.declared.version.Form.{Form};
ghost use Rattle.bd_steps.specs.Interleavings.{EveryInterleavingIn, EachCutOffIn, EveryInterleaving, EachCutOff};
ghost use Rattle.bd_steps.specs.Steps.{FlushesAreRunsIn, TidyingsAreRunsIn, LooksAreStepsIn, TakesAreStepsIn, NewIsOpenedIn, FlushesAreRuns, TidyingsAreRuns, LooksAreSteps, TakesAreSteps, NewIsOpened};
ghost use Rattle.bd_steps.specs.Boards.{NewBoardIsOpenedIn, DrainsAreStepsIn, NewBoardIsOpened, SubmitsAreSteps, DrainsAreSteps, AdvancesAreSteps, ClaimsAreNoSteps, SettlingsAreNoSteps, StepsKeepBoards, RecipesAreSteps, EndsAreSteps, ClearancesStay};
ghost use Rattle.bd_steps.specs.Others.{OthersDontHinder, InterleavedIsRun, FlushesAmongOthersIn, FlushesAmongOthers};
ghost use Rattle.bd_steps.specs.Examples.{SomeAcknowledgedDone, SomeCutOff, SomeCompaction, SomeMarkedDone};

use st_disk::Disk;

/// However workers interleave and wherever a power cut falls, before or within any write of the disk model, recovery gives
/// the fold of a prefix of the submitted records that holds every acknowledged one; so every target whose recipe was started
/// and whose 'done' is not in that prefix is judged out of date, whatever the file times; and each receipt names the one
/// batch that holds its record.
pub fn every_interleaving()
    ensures { EveryInterleaving }
{}

/// So it is whichever form records are written in.
pub fn every_interleaving_in()
    ensures { (form : Form) → EveryInterleavingIn form }
{}

/// A target whose recipe was started and hasn't ended when the power is cut is judged out of date.
pub fn cut_off()
    ensures { EachCutOff }
{}

/// So it is whichever form records are written in.
pub fn cut_off_in()
    ensures { (form : Form) → EachCutOffIn form }
{}

/// What a site's methods do are steps of these: a new site is as an opened world before any step; a receipt is given where a look
/// may give one; where what waits on the board are the submitted records behind the told ones, to take it in is a step. What a
/// flush does, whatever it answers, is a list of steps: a call of the device for each of its moments, in order, first those of a
/// compaction and then those of a commit, and then the commit's end, or the call that was refused; so is a compaction alone.
pub fn flushes_are_runs<D: Disk + Drop>()
    ensures new { NewIsOpened D.moments }
    ensures looks { LooksAreSteps D.moments }
    ensures takes { TakesAreSteps D.moments }
    ensures flushes { FlushesAreRuns (Unit {0}) D.honest D.moments D.seen D.faults }
    ensures tidyings { TidyingsAreRuns (Unit {0}) D.honest D.moments D.seen D.faults }
{}

/// So it is of a site whose store writes some form: its steps are those of a world of that form.
pub fn flushes_are_runs_in<D: Disk + Drop>()
    ensures new { NewIsOpenedIn D.moments }
    ensures looks { LooksAreStepsIn D.moments }
    ensures takes { TakesAreStepsIn D.moments }
    ensures flushes { FlushesAreRunsIn (Unit {0}) D.honest D.moments D.seen D.faults }
    ensures tidyings { TidyingsAreRunsIn (Unit {0}) D.honest D.moments D.seen D.faults }
{}

/// A board's calls are steps of these too: a new board is as an opened world before any step; what it takes may be submitted by a
/// step; what waits on it are the submitted records behind those that were taken, so that to take them in is the step that does
/// so; a receipt that a look gave clears a recipe by a step, or settles its node. Its other moves are no steps, and no step beside
/// them moves it.
pub fn board_calls_are_steps<D: Disk + Drop>()
    ensures new { NewBoardIsOpened }
    ensures submits { SubmitsAreSteps }
    ensures drains { DrainsAreSteps D.moments }
    ensures advances { AdvancesAreSteps }
    ensures claims { ClaimsAreNoSteps }
    ensures settlings { SettlingsAreNoSteps }
    ensures others { StepsKeepBoards }
{}

/// So it is of a board of records of some form, and of a site that writes it. The other clauses are of any board.
pub fn board_calls_are_steps_in<D: Disk + Drop>()
    ensures new { (form : Form) → NewBoardIsOpenedIn form }
    ensures drains { DrainsAreStepsIn D.moments }
{}

/// A clearance is handed out for a ticket with which none was; it stays out until its recipe is started or ends. To run the
/// recipe is the step that starts it and then, whatever came since, the one that ends it; to give the clearance up is the latter.
pub fn recipes_are_steps()
    ensures run { RecipesAreSteps }
    ensures ends { EndsAreSteps }
    ensures stay { ClearancesStay }
{}

/// Between a flush's steps other workers may submit, go on with receipts, and start and end recipes: no such step hinders one of
/// the flush, nor one of the flush it, and in whichever order they are made the same comes of them. So what a flush does is a
/// list of steps also among those of others.
pub fn others_dont_hinder<D: Disk + Drop>()
    ensures steps { OthersDontHinder }
    ensures lists { InterleavedIsRun }
    ensures flushes { FlushesAmongOthers (Unit {0}) D.honest D.moments D.seen D.faults }
{}

/// So it is of a flush of a site that writes some form. The other clauses are of steps of any form.
pub fn others_dont_hinder_in<D: Disk + Drop>()
    ensures { FlushesAmongOthersIn (Unit {0}) D.honest D.moments D.seen D.faults }
{}

/// There are such runs, over bytes of real state files: to a cut with an acknowledged 'done'; to one with two targets in a
/// batch, a failed call of the device and a 'done' in the prefix that nobody acknowledged, while a recipe was cut off; and one
/// from a state that isn't empty, which is compacted first.
pub fn some_interleavings()
    ensures acknowledged { SomeAcknowledgedDone }
    ensures cut_off { SomeCutOff }
    ensures compacted { SomeCompaction }
{}

/// There is such a run over bytes of version 4 too: to a cut with an acknowledged 'done' that has marks.
pub fn some_interleavings_in()
    ensures { SomeMarkedDone }
{}
