//! The targets of a graph that other levels have an entry of.
ghost use Rattle.std.specs.Prelude.{◌≡◌, ◌⊎◌, ◌<◌, ◌++◌, ℕ, Bool, List, true, length, nat_lt, None, Some, IfOk, IfSome, IfNone, OnOk, option_to_list};
ghost use Rattle.std.specs.List.{list_all, AllByRecursion};
ghost use Rattle.mk_rule_lines.specs.declared.fault.TextFault.{TextFault as ExpansionFault};
ghost use Rattle.mk_plan.specs.Passing.{Passes, is_remade, told_in};
ghost use Rattle.mk_plan.specs.declared.fault.RecipeFault.TheVariants as faults;
ghost use Rattle.mk_nodes.specs.declared.graph.Graph.{Graph as Plan};
ghost use Rattle.mk_names.specs.Names.{name_at};
ghost use Rattle.st_records.specs.Limits.{IsGoodIn};
ghost use Rattle.st_records.specs.declared.version.Form.TheVariants as forms;
ghost use Rattle.st_records.specs.declared.record.Entry.{Entry as Known};
ghost use Rattle.mk_levels.specs.Offered.{IsOffered};
ghost use Rattle.mk_levels.specs.Picked.{done_of, is_so, Picks, ArePicked, IsOfOffer};

use crate::level::{Level, offer};
use byte_strings::ByteString;
use mk_nodes::Graph;
use mk_plan::{Passed, RecipeFault, name_of, pass};
use st_packed::PackedEntry;
use st_records::{Entry, Form, Record};
use st_state::State;
use std::alloc::{AllocError, Global};

/// Which targets are picked, and by whose entries.
#[derive(Drop)]
pub struct Wanted<'a> {
    pub own: &'a State,
    pub levels: &'a [Level],
    /// Those whose recipes are to be run, or else those that are up to date.
    pub listed: bool,
}

/// What comes of a node.
#[derive(Drop)]
struct Found {
    is_remade: bool,
    /// The record with which it is picked.
    note: Option<Record>,
}

/// Whether a node is passed as the targets that are picked.
fn is_so(listed: bool, passed: &Passed) -> bool
    ensures { (graph : Plan) (n : ℕ) → result ≡ is_so listed (told_in graph n passed.now) }
{
    match passed {
        Passed::Listed(_why, _lines) => listed,
        Passed::UpToDate => !listed,
        Passed::Remade => false,
        Passed::Left => false,
    }
}

/// The record of an entry whose recipe was run to its end.
fn done_of(alloc: Global, target: &[u8], entry: &PackedEntry) -> Result<Record, AllocError>
    ensures { IfOk result (λ note. note ≡ done_of target.now entry.now) }
{
    let Entry {
        phase: _,
        commands,
        hidden,
        explicit,
    } = entry.unpack(alloc)?;
    Ok(Record::Done {
        target: ByteString::from_slice(alloc, target)?,
        commands,
        hidden,
        explicit,
    })
}

/// The record with which a target is taken over; None where none is offered of it, or it may not stand in a state.
fn note_of(alloc: Global, wanted: &Wanted<'_>, target: &[u8]) -> Result<Option<Record>, AllocError>
    ensures some { IfOk result (λ found. IfSome found (λ note. (e : Known) × IsOffered wanted.now.own.now wanted.now.levels.now target.now e
        × IsGoodIn forms.Marked (done_of target.now e) × (note ≡ done_of target.now e))) }
    ensures none { IfOk result (λ found. found ≡ None → ((e : Known) → IsOffered wanted.now.own.now wanted.now.levels.now target.now e → ⊥)
        ⊎ ((e : Known) × IsOffered wanted.now.own.now wanted.now.levels.now target.now e × (IsGoodIn forms.Marked (done_of target.now e) → ⊥))) }
{
    let Some(entry) = offer(target, wanted.own, wanted.levels) else {
        return Ok(None);
    };
    let note = done_of(alloc, target, entry)?;
    match note.check_in(Form::Marked) {
        Ok(()) => Ok(Some(note)),
        Err(_fault) => Ok(None),
    }
}

/// What comes of a node that was passed so.
fn found_by(
    alloc: Global,
    wanted: &Wanted<'_>,
    graph: &Graph,
    node: usize,
    passed: &Passed,
) -> Result<Found, AllocError>
    requires { node < length graph.now.nodes.items }
    ensures { IfOk result (λ found. (marks : List Bool) → Passes true graph.now marks node (is_remade passed.now) (told_in graph.now node passed.now)
        → Picks wanted.now.own.now wanted.now.levels.now wanted.now.listed graph.now marks node found.is_remade found.note) }
{
    let is_remade = passed.is_remade();
    if !is_so(wanted.listed, passed) {
        return Ok(Found {
            is_remade,
            note: None,
        });
    }
    let note = note_of(alloc, wanted, name_of(graph, node))?;
    Ok(Found { is_remade, note })
}

/// What comes of a node that can't be passed.
fn found_faulty(fault: RecipeFault) -> Result<Found, AllocError>
    ensures { IfOk result (λ found. (f : ExpansionFault) × (fault ≡ faults.Macro f) × (found.is_remade ≡ true) × (found.note ≡ None)) }
{
    match fault {
        RecipeFault::OutOfMemory => Err(AllocError),
        RecipeFault::Macro(_fault) => Ok(Found {
            is_remade: true,
            note: None,
        }),
    }
}

/// What comes of a node.
fn pick(
    alloc: Global,
    wanted: &Wanted<'_>,
    graph: &Graph,
    marks: &[bool],
    node: usize,
) -> Result<Found, AllocError>
    requires { node < length graph.now.nodes.items }
    ensures { IfOk result (λ found. Picks wanted.now.own.now wanted.now.levels.now wanted.now.listed graph.now marks.now node found.is_remade found.note) }
{
    match pass(alloc, true, graph, marks, node) {
        Ok(passed) => found_by(alloc, wanted, graph, node, &passed),
        Err(fault) => found_faulty(fault),
    }
}

fn add(records: &mut Vec<Record>, note: Option<Record>) -> Result<(), AllocError>
    ensures { OnOk result (records.new.items ≡ records.old.items ++ option_to_list note) }
{
    if let Some(note) = note {
        records.push(note)?;
    }
    Ok(())
}

/// The records of all targets that are picked, in the graph's order.
pub fn picked(alloc: Global, wanted: &Wanted<'_>, graph: &Graph) -> Result<Vec<Record>, AllocError>
    requires { list_all (λ n. nat_lt n (length graph.now.nodes.items)) graph.now.order.items ≡ true }
    ensures all { IfOk result (λ records. ArePicked wanted.now.own.now wanted.now.levels.now wanted.now.listed graph.now records.items) }
    // Whatever is known, none is of a target whose recipe some state has as begun or failed.
    ensures offered { IfOk result (λ records. AllByRecursion (IsOfOffer wanted.now.own.now wanted.now.levels.now) records.items) }
{
    let mut marks = vec![in alloc; false; graph.len()]?;
    let mut records = Vec::new(alloc);
    for node in graph.order.as_slice() {
        let found = pick(alloc, wanted, graph, &marks, *node)?;
        marks[*node] = found.is_remade;
        add(&mut records, found.note)?;
    }
    Ok(records)
}
