//! The program over handed-in parts.
ghost use Rattle.std.specs.Prelude.{◌≡◌, ◌≢◌, ◌⊎◌, ◌&&◌, ℕ, Bool, true, false, not, List, [], Option, codes, IfOk, IfErr, IsOk, IsErr};
ghost use Rattle.std.specs.Io.KnownBytes.{Appends, Keeps};
ghost use Rattle.mk_plan.specs.Passage.{Passage};
ghost use Rattle.mk_plan.specs.declared.telling.Telling.TheVariants as tellings;
ghost use Rattle.st_disk.specs.Faults.{Rises};
ghost use Rattle.st_file.specs.declared.fault.OpenFault.TheVariants as open_faults;
ghost use Rattle.dmk_dry.specs.AlwaysRun.{lines_run_always};
ghost use Rattle.dmk_dry.specs.Faults.{IsFaultOf};
ghost use Rattle.dmk_reading.specs.Keeping.{value_in};
ghost use Rattle.dmk_reading.specs.Lost.{goes_without, with_unmade};
ghost use Rattle.dmk_messages.specs.Messages.{SaysFault};
ghost use Rattle.dmk_dry.specs.Output.{SaysNote, SaysCut, CutsListing, ListsWithout, TellsFault, question_status, shown_status};
ghost use Rattle.dmk_messages.specs.Output.{AppendsPart};
ghost use Rattle.dmk_reading.specs.Asked.{AsksForListing, AsksToLook};
ghost use Rattle.dmk_dry.specs.Listing.{listing_text};
ghost use Rattle.dmk_dry.specs.Planned.{Plans};
ghost use Rattle.dmk_messages.specs.declared.fault.Fault.TheVariants as faults;
ghost use Rattle.mk_eval.specs.Output.{World};
ghost use Rattle.mk_nodes.specs.declared.file_look.FileLook.{FileLook};

use crate::always_run::AlwaysRun;
use crate::passing::Shows;
use crate::planning::{DryRun, Given, dry_run};
use bd_lists::Variable;
use dmk_messages::{Cure, Fault, Message, print_fault, print_note, write_text};
use dmk_reading::Options;
use mk_eval::Includes;
use mk_rule_lines::{RuleFault, Unmade};
use mk_rules::Tree;
use st_disk::Disk;
use st_records::HashKey;
use std::alloc::Global;
use std::io::Write;

/// What was answered.
#[derive(Clone, Copy)]
pub struct Reply {
    pub status: u8,
    /// Standard error took each line that there was to say.
    pub is_told: bool,
    /// All that was to be printed went out.
    pub is_whole: bool,
    /// What helps against the fault that was told, where one was.
    pub cure: Option<Cure>,
}

/// Says that soft edges are dropped, where they are, and tells whether that was taken.
fn say_dropped<E: Write>(dropped: bool, err: &mut E) -> bool
    ensures told { SaysNote (E.contents err.old) (E.contents err.new) result dropped }
    ensures none { dropped ≡ false → err.new ≡ err.old }
{
    if !dropped {
        return true;
    }
    print_note(err)
}

/// Says of each name that nothing makes it, and tells whether all lines were taken.
fn say_each<E: Write>(state: &str, unmade: Vec<Unmade>, err: &mut E) -> bool {
    let mut is_told = true;
    for one in unmade {
        let fault = Fault::Rules(RuleFault::NoRule(one));
        let message = Message {
            state,
            fault: &fault,
        };
        is_told = print_fault(err, message) && is_told;
    }
    is_told
}

/// Says that soft edges are dropped, and of which names nothing makes them, and tells whether that was taken.
fn say_first<E: Write>(state: &str, dropped: bool, unmade: Vec<Unmade>, err: &mut E) -> bool
    ensures told { unmade.items ≡ [] → SaysNote (E.contents err.old) (E.contents err.new) result dropped }
    ensures none { unmade.items ≡ [] → dropped ≡ false → err.new ≡ err.old }
{
    let is_noted = say_dropped(dropped, err);
    if unmade.is_empty() {
        return is_noted;
    }
    say_each(state, unmade, err) && is_noted
}

/// The status where all that there was to print went out: 2 where nothing makes a name, and else 1 where a question finds some recipe listed.
fn status_of(asks: bool, run: &DryRun) -> u8
    ensures { result ≡ with_unmade run.now.unmade.items (shown_status asks run.now.lists_any) }
{
    if !run.unmade.is_empty() {
        return 2;
    }
    if asks && run.lists_any { 1 } else { 0 }
}

/// Prints the fault and answers 2.
fn refuse<E: Write>(state: &str, fault: &Fault, err: &mut E) -> Reply
    ensures status { result.status ≡ 2 }
    ensures whole { result.is_whole ≡ false }
    ensures told { result.is_told ≡ true → SaysFault (E.contents err.old) (E.contents err.new) fault.now }
{
    let message = Message { state, fault };
    Reply {
        status: 2,
        is_told: print_fault(err, message),
        is_whole: false,
        cure: Cure::of(fault),
    }
}

/// Prints what a dry run lists, or what a question tells of it, behind what there is to say first, and answers. The lines that are run
/// all the same are handed on where all of it went out.
fn show<O: Write, E: Write>(
    alloc: Global,
    asks: bool,
    state: &str,
    run: DryRun,
    out: &mut O,
    err: &mut E,
) -> (Reply, Vec<AlwaysRun>)
    ensures whole { result.0.is_whole ≡ true → Appends (O.contents out.old) (O.contents out.new) run.text.items }
    ensures status { result.0.is_whole ≡ true → result.0.status ≡ with_unmade run.unmade.items (shown_status asks run.lists_any) }
    ensures noted { result.0.is_whole ≡ true → run.unmade.items ≡ []
        → SaysNote (E.contents err.old) (E.contents err.new) result.0.is_told (run.soft_dropped && not asks) }
    ensures note { result.0.is_whole ≡ true → run.unmade.items ≡ [] → run.soft_dropped && not asks ≡ false → err.new ≡ err.old }
    ensures always { result.0.is_whole ≡ true → result.1.items ≡ run.always.items }
    ensures part { result.0.is_whole ≡ false → AppendsPart (O.contents out.old) (O.contents out.new) run.text.items }
    ensures cut { result.0.is_whole ≡ false → run.unmade.items ≡ []
        → SaysCut (E.contents err.old) (E.contents err.new) result.0.is_told (run.soft_dropped && not asks) }
    ensures refused { result.0.is_whole ≡ false → (result.0.status ≡ 2) × (result.1.items ≡ []) }
{
    let status = status_of(asks, &run);
    let DryRun {
        text,
        lists_any: _,
        always,
        soft_dropped,
        unmade,
    } = run;
    let is_said = say_first(state, soft_dropped && !asks, unmade, err);
    match write_text(&text, out) {
        Ok(()) => {
            let reply = Reply {
                status,
                is_told: is_said,
                is_whole: true,
                cure: None,
            };
            (reply, always)
        }
        Err(fault) => {
            drop(always);
            let refusal = refuse(state, &fault, err);
            let reply = Reply {
                status: refusal.status,
                is_told: is_said && refusal.is_told,
                is_whole: false,
                cure: refusal.cure,
            };
            (reply, Vec::new(alloc))
        }
    }
}

/// Says what was found of a dry run.
fn say<O: Write, E: Write>(
    alloc: Global,
    asks: bool,
    state: &str,
    found: Result<DryRun, Fault>,
    out: &mut O,
    err: &mut E,
) -> (Reply, Vec<AlwaysRun>)
    ensures found { result.0.is_whole ≡ true → IsOk found }
    ensures whole { result.0.is_whole ≡ true → IfOk found (λ run. Appends (O.contents out.old) (O.contents out.new) run.text.items) }
    ensures status { result.0.is_whole ≡ true
        → IfOk found (λ run. result.0.status ≡ with_unmade run.unmade.items (shown_status asks run.lists_any)) }
    ensures noted { result.0.is_whole ≡ true → IfOk found (λ run. run.unmade.items ≡ []
        → SaysNote (E.contents err.old) (E.contents err.new) result.0.is_told (run.soft_dropped && not asks)) }
    ensures note { result.0.is_whole ≡ true
        → IfOk found (λ run. run.unmade.items ≡ [] → run.soft_dropped && not asks ≡ false → err.new ≡ err.old) }
    ensures always { result.0.is_whole ≡ true → IfOk found (λ run. result.1.items ≡ run.always.items) }
    ensures part { result.0.is_whole ≡ false → IfOk found (λ run. AppendsPart (O.contents out.old) (O.contents out.new) run.text.items) }
    ensures cut { result.0.is_whole ≡ false → IfOk found (λ run. run.unmade.items ≡ []
        → SaysCut (E.contents err.old) (E.contents err.new) result.0.is_told (run.soft_dropped && not asks)) }
    ensures refused { result.0.is_whole ≡ false → (result.0.status ≡ 2) × (result.1.items ≡ []) }
    ensures silent { IsErr found → Keeps (O.contents out.old) (O.contents out.new) }
    ensures told { IfErr found (λ fault. result.0.is_told ≡ true → SaysFault (E.contents err.old) (E.contents err.new) fault) }
{
    match found {
        Ok(run) => show(alloc, asks, state, run, out, err),
        Err(fault) => (refuse(state, &fault, err), Vec::new(alloc)),
    }
}

/// Runs the program: answers, and hands the disk back, which was only read, with the lines that are to be run all the same.
///
/// `-n` prints the lines of all recipes that a run would come to, in an order in which it might. `-q` prints none and
/// answers 1 where there are any. Both tell of each target why it is made, as much as is wanted. Where the options go on without names
/// that have no file and that nothing makes, in the wide profile, these are told first, both are of what doesn't stand on one, and
/// answer 2.
pub fn drive<T: Tree, I: Includes, D: Disk, O: Write, E: Write>(
    alloc: Global,
    key: HashKey,
    options: Options,
    environment: &[Variable],
    tree: &mut T,
    includes: &mut I,
    disk: D,
    out: &mut O,
    err: &mut E,
) -> (Reply, D, Vec<AlwaysRun>)
    // It lists or answers: a run of recipes isn't asked for.
    requires { AsksToLook options (value_in environment.now (codes "MAKEFLAGS")) }

    // A listing is that of the plan, for all texts and looks that agree with what was answered. Beside it only the note is
    // said, and that where soft edges are dropped. Each name has a file, or something makes it.
    ensures listed { AsksForListing options environment.now → result.0.status ≡ 0
        → (world : World) (looks : List ℕ → Option FileLook) → I.allows includes.new world → T.allows tree.new looks
        → (plan : List Passage) × (dropped : Bool)
        × Plans world looks options.makefiles options.profile options.definitions.items environment.now options.targets options.makes_all options.goes_on D.honest (D.seen disk) plan dropped []
        × Appends (O.contents out.old) (O.contents out.new) (listing_text options.telling true plan) × (dropped ≡ false → err.new ≡ err.old)
        × SaysNote (E.contents err.old) (E.contents err.new) result.0.is_told dropped
        × (result.2.items ≡ lines_run_always options.telling true plan) }
    // The question is answered by the plan, and no recipe is printed: nothing is, unless it is asked why targets are made.
    ensures asked { options.asks ≡ true → result.0.status ≢ 2
        → (world : World) (looks : List ℕ → Option FileLook) → I.allows includes.new world → T.allows tree.new looks
        → (plan : List Passage) × (dropped : Bool)
        × Plans world looks options.makefiles options.profile options.definitions.items environment.now options.targets options.makes_all options.goes_on D.honest (D.seen disk) plan dropped []
        × (result.0.status ≡ question_status plan)
        × Appends (O.contents out.old) (O.contents out.new) (listing_text options.telling false plan)
        × (result.2.items ≡ lines_run_always options.telling false plan) }
    ensures silent { options.asks ≡ true → options.telling ≡ tellings.Nothing → Keeps (O.contents out.old) (O.contents out.new) }
    ensures quiet { options.asks ≡ true → result.0.status ≢ 2 → err.new ≡ err.old }

    // At status 2 a fault of the run is told, of which a device's is a call of the disk that failed; or a listing is cut short; and no line
    // is run. Or there are names that nothing makes, and the listing is that of the plan without them.
    ensures refused { result.0.status ≡ 2
        → (world : World) (looks : List ℕ → Option FileLook) → I.allows includes.new world → T.allows tree.new looks
        → ((TellsFault (λ fault. IsFaultOf world looks options.makefiles options.profile options.definitions.items environment.now
        options.targets options.makes_all options.goes_on (T.refuses tree.new) D.honest (D.seen disk) fault
        × (fault ≡ faults.State open_faults.Device → Rises (D.faults disk) (D.faults result.1)))
        result.0.is_told (O.contents out.old) (O.contents out.new) (E.contents err.old) (E.contents err.new)
        ⊎ CutsListing (Plans world looks options.makefiles options.profile options.definitions.items environment.now options.targets options.makes_all options.goes_on D.honest (D.seen disk))
        options.telling options.asks result.0.is_told (O.contents out.old) (O.contents out.new) (E.contents err.old) (E.contents err.new))
        × (result.2.items ≡ []))
        ⊎ ListsWithout (Plans world looks options.makefiles options.profile options.definitions.items environment.now options.targets options.makes_all options.goes_on D.honest (D.seen disk))
        options.telling options.asks (O.contents out.old) (O.contents out.new) result.2.items }
    ensures status { (result.0.status ≡ 0) ⊎ (((result.0.status ≡ 1) × (options.asks ≡ true)) ⊎ (result.0.status ≡ 2)) }
    ensures none_run { goes_without options.profile options.goes_on ≡ false → result.0.status ≡ 2 → result.2.items ≡ [] }

    // What reads give and what a crash may leave is what it was.
    ensures seen { D.honest → D.seen result.1 ≡ D.seen disk }
    ensures moments { D.honest → D.moments result.1 ≡ D.moments disk }
{
    let mut disk = disk;
    let Options {
        makefiles,
        profile,
        state,
        goes_on,
        asks,
        makes_all,
        telling,
        definitions,
        targets,
        ..
    } = options;
    let given = Given {
        makefiles: &makefiles,
        makes_all,
        goes_on,
        profile,
        definitions: &definitions,
        environment,
        shows: Shows {
            telling,
            recipes: !asks,
        },
    };
    let found = dry_run(alloc, key, given, targets, tree, includes, &mut disk);
    let (reply, always) = say(alloc, asks, state.as_str(), found, out, err);
    (reply, disk, always)
}
