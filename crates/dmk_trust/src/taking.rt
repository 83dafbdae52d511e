//! The targets of a graph that are taken as they are, and what is then recorded of them.
ghost use Rattle.std.specs.Prelude.{◌≡◌, ◌⊎◌, ◌<◌, ◌≤◌, ℕ, Bool, true, false, List, [], ◌∷◌, ◌++◌, length, nat_lt, None, IfOk, IfSome, IfNone, OnOk, option_to_list};
ghost use Rattle.std.specs.List.{list_all, AllByRecursion};
ghost use Rattle.mk_rule_lines.specs.declared.fault.TextFault.{TextFault as ExpansionFault};
ghost use Rattle.mk_recipe.specs.Line.{Records};
ghost use Rattle.mk_names.specs.Names.{name_at};
ghost use Rattle.mk_plan.specs.Passage.{Passage, to_make};
ghost use Rattle.mk_plan.specs.Passing.{Passes, IsFaultAt, is_remade, told_in};
ghost use Rattle.mk_plan.specs.declared.fault.RecipeFault.TheVariants as faults;
ghost use Rattle.mk_plan.specs.declared.why.Why.{Why as Cause};
ghost use Rattle.st_records.specs.Limits.{IsGoodIn, SaysExplicitIn};
ghost use Rattle.st_records.specs.Parts.{status_of};
ghost use Rattle.jb_recipe.specs.OnDisk.{files_made};
ghost use Rattle.dmk_trust.specs.Taken.{IsDoneOf, Takes, AreTaken, IsOnDisk};

use byte_strings::{ByteString, ByteStrings};
use dmk_messages::Fault;
use dmk_store::Stop;
use jb_recipe::{Place, PlaceFault, is_writable, said_in, sync_made, text_seen};
use mk_nodes::Graph;
use mk_plan::{Passed, RecipeFault, explicit_of, name_of, pass};
use mk_recipe::{Line, recorded};
use mk_seen::made_beside;
use st_records::{Form, Record};
use std::alloc::{AllocError, Global};

/// What comes of a node.
#[derive(Drop)]
struct Found {
    is_remade: bool,
    /// The record with which it is taken as it is.
    note: Option<Record>,
}

/// A record where it may stand in the state.
fn writable(form: Form, note: Record) -> Option<Record>
    requires status { status_of note ≤ 256 }
    requires explicit { SaysExplicitIn form note }
    ensures good { IfSome result (λ r. IsGoodIn form r) }
    ensures same { IfSome result (λ r. r ≡ note) }
    ensures none { IfNone result (IsGoodIn form note → ⊥) }
{
    if is_writable(form, &note) {
        Some(note)
    } else {
        None
    }
}

/// The record that a node's recipe was run to its end with these commands, and that its files are those of now.
fn done_of(
    alloc: Global,
    form: Form,
    graph: &Graph,
    node: usize,
    commands: ByteStrings,
) -> Result<Record, AllocError>
    requires { node < length graph.now.nodes.items }
    ensures { IfOk result (IsDoneOf form graph.now node commands) }
{
    let marks = text_seen(alloc, form, graph, node)?;
    Ok(Record::Done {
        target: ByteString::from_slice(alloc, name_of(graph, node))?,
        commands,
        hidden: ByteStrings::empty(alloc),
        explicit: said_in(form, explicit_of(alloc, graph, node)?, marks),
    })
}

/// That record, by the lines of the recipe.
fn done_with(
    alloc: Global,
    form: Form,
    graph: &Graph,
    node: usize,
    lines: &[Line],
) -> Result<Record, AllocError>
    requires { node < length graph.now.nodes.items }
    ensures { IfOk result (λ note. (commands : List (List ℕ)) × Records lines.now commands × IsDoneOf form graph.now node commands note) }
{
    let commands = recorded(alloc, lines)?;
    done_of(alloc, form, graph, node, commands)
}

/// Whether a node is let be by the times of files alone.
fn is_let_be(alloc: Global, graph: &Graph, marks: &[bool], node: usize) -> Result<bool, AllocError>
    requires { node < length graph.now.nodes.items }
    ensures yes { IfOk result (λ is. is ≡ true → (told : List Passage) × Passes false graph.now marks.now node false told) }
    ensures no { IfOk result (λ is. is ≡ false → ((told : List Passage) × Passes false graph.now marks.now node true told)
        ⊎ ((f : ExpansionFault) × IsFaultAt graph.now marks.now node (faults.Macro f))) }
{
    match pass(alloc, false, graph, marks, node) {
        Ok(passed) => Ok(!passed.is_remade()),
        Err(fault) => {
            let _found = found_faulty(fault)?;
            Ok(false)
        }
    }
}

/// What comes of a node that is let be by the times of files, and whose recipe is to be run with these lines by what is recorded.
fn found_left(
    alloc: Global,
    form: Form,
    graph: &Graph,
    node: usize,
    lines: &[Line],
) -> Result<Found, AllocError>
    requires { node < length graph.now.nodes.items }
    ensures { IfOk result (λ found. (marks : List Bool) (why : Cause) → ((told : List Passage) × Passes false graph.now marks node false told)
        → Passes true graph.now marks node true (to_make (name_at graph.now.names node) why lines.now ∷ [])
        → Takes form graph.now marks node found.is_remade found.note) }
{
    let note = done_with(alloc, form, graph, node, lines)?;
    match writable(form, note) {
        Some(note) => Ok(Found {
            is_remade: false,
            note: Some(note),
        }),
        None => Ok(Found {
            is_remade: true,
            note: None,
        }),
    }
}

/// What comes of a node whose recipe is to be run with these lines by what is recorded.
fn found_of(
    alloc: Global,
    form: Form,
    graph: &Graph,
    marks: &[bool],
    node: usize,
    lines: &[Line],
) -> Result<Found, AllocError>
    requires { node < length graph.now.nodes.items }
    ensures { IfOk result (λ found. (why : Cause)
        → Passes true graph.now marks.now node true (to_make (name_at graph.now.names node) why lines.now ∷ [])
        → Takes form graph.now marks.now node found.is_remade found.note) }
{
    let left = is_let_be(alloc, graph, marks, node)?;
    if left {
        return found_left(alloc, form, graph, node, lines);
    }
    Ok(Found {
        is_remade: true,
        note: None,
    })
}

/// What comes of a node that was passed so by what is recorded.
fn found_by(
    alloc: Global,
    form: Form,
    graph: &Graph,
    marks: &[bool],
    node: usize,
    passed: &Passed,
) -> Result<Found, AllocError>
    requires { node < length graph.now.nodes.items }
    ensures { IfOk result (λ found. Passes true graph.now marks.now node (is_remade passed.now) (told_in graph.now node passed.now)
        → Takes form graph.now marks.now node found.is_remade found.note) }
{
    match passed {
        Passed::Listed(_why, lines) => found_of(alloc, form, graph, marks, node, lines),
        Passed::Remade => Ok(Found {
            is_remade: true,
            note: None,
        }),
        Passed::UpToDate => Ok(Found {
            is_remade: false,
            note: None,
        }),
        Passed::Left => Ok(Found {
            is_remade: false,
            note: None,
        }),
    }
}

/// What comes of a node that can't be passed.
fn found_faulty(fault: RecipeFault) -> Result<Found, AllocError>
    ensures { IfOk result (λ found. (f : ExpansionFault) × (fault ≡ faults.Macro f) × (found.is_remade ≡ true) × (found.note ≡ None)) }
{
    match fault {
        RecipeFault::OutOfMemory => Err(AllocError),
        RecipeFault::Macro(_fault) => Ok(Found {
            is_remade: true,
            note: None,
        }),
    }
}

/// What comes of a node.
fn take(
    alloc: Global,
    form: Form,
    graph: &Graph,
    marks: &[bool],
    node: usize,
) -> Result<Found, AllocError>
    requires { node < length graph.now.nodes.items }
    ensures { IfOk result (λ found. Takes form graph.now marks.now node found.is_remade found.note) }
{
    match pass(alloc, true, graph, marks, node) {
        Ok(passed) => found_by(alloc, form, graph, marks, node, &passed),
        Err(fault) => found_faulty(fault),
    }
}

fn add(records: &mut Vec<Record>, note: Option<Record>) -> Result<(), AllocError>
    ensures { OnOk result (records.new.items ≡ records.old.items ++ option_to_list note) }
{
    if let Some(note) = note {
        records.push(note)?;
    }
    Ok(())
}

/// Puts the files that a node's recipe makes on the disk: a power cut takes no data from a target that is recorded as made.
fn put_on_disk<P: Place>(
    alloc: Global,
    graph: &Graph,
    place: &P,
    node: usize,
) -> Result<(), PlaceFault>
    requires { node < length graph.now.nodes.items }
    ensures { OnOk result (AllByRecursion (P.synced place.now) (files_made graph.now node)) }
{
    let others = made_beside(alloc, graph, node)?;
    sync_made(place, name_of(graph, node), &others)
}

/// What comes of a node. Where it is taken as it is, its files are on the disk.
fn take_on_disk<P: Place>(
    alloc: Global,
    form: Form,
    graph: &Graph,
    place: &P,
    marks: &[bool],
    node: usize,
) -> Result<Found, PlaceFault>
    requires { node < length graph.now.nodes.items }
    ensures taken { IfOk result (λ found. Takes form graph.now marks.now node found.is_remade found.note) }
    ensures on_disk { IfOk result (λ found. IfSome found.note (λ _. AllByRecursion (P.synced place.now) (files_made graph.now node))) }
{
    let found = take(alloc, form, graph, marks, node)?;
    if found.note.is_some() {
        put_on_disk(alloc, graph, place, node)?;
    }
    Ok(found)
}

/// The records of all targets that are taken as they are, in the graph's order.
fn taken<P: Place>(
    alloc: Global,
    form: Form,
    graph: &Graph,
    place: &P,
) -> Result<Vec<Record>, PlaceFault>
    requires { list_all (λ n. nat_lt n (length graph.now.nodes.items)) graph.now.order.items ≡ true }
    ensures taken { IfOk result (λ records. AreTaken form graph.now records.items) }
    ensures on_disk { IfOk result (λ records. AllByRecursion (IsOnDisk (P.synced place.now) graph.now) records.items) }
{
    let mut marks = vec![in alloc; false; graph.len()]?;
    let mut records = Vec::new(alloc);
    for node in graph.order.as_slice() {
        let found = take_on_disk(alloc, form, graph, place, &marks, *node)?;
        marks[*node] = found.is_remade;
        add(&mut records, found.note)?;
    }
    Ok(records)
}

/// The records of the targets that are taken as they are, whose files are on the disk.
pub(crate) fn taken_on_disk<P: Place>(
    alloc: Global,
    form: Form,
    graph: &Graph,
    place: &P,
) -> Result<Vec<Record>, Stop>
    requires { list_all (λ n. nat_lt n (length graph.now.nodes.items)) graph.now.order.items ≡ true }
    ensures taken { IfOk result (λ records. AreTaken form graph.now records.items) }
    ensures on_disk { IfOk result (λ records. AllByRecursion (IsOnDisk (P.synced place.now) graph.now) records.items) }
{
    match taken(alloc, form, graph, place) {
        Ok(records) => Ok(records),
        Err(PlaceFault::OutOfMemory) => Err(Stop::Before(Fault::OutOfMemory)),
        Err(PlaceFault::Device(error)) => Err(Stop::NotOnDisk(error)),
    }
}
