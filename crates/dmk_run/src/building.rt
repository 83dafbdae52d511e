//! The targets of a graph made over a store.
ghost use Rattle.std.specs.Prelude.{◌≡◌, ◌⊎◌, ◌≤◌, true, false, [], length, Ok, Err, IfOk, IfErr, IsOk, IsTrue};
ghost use Rattle.std.specs.List.{list_all};
ghost use Rattle.st_disk.specs.Moments.{now};
ghost use Rattle.st_recovery.specs.Stored.{AllRecoverIn};
ghost use Rattle.st_records.specs.declared.version.Form.TheVariants as forms;
ghost use Rattle.bd_flusher.specs.declared.fault.FlushFault.TheVariants as refusals;
ghost use Rattle.jb_closing.specs.declared.fault.RunFault.TheVariants as run_faults;
ghost use Rattle.jb_closing.specs.declared.report.Report.{Report as RunReport};
ghost use Rattle.jb_closing.specs.Report.{ends_well};
ghost use Rattle.dmk_run.specs.InTurn.{IsParted};
ghost use Rattle.dmk_run.specs.Judged.{AreJudged, IsBorneOut};
ghost use Rattle.dmk_run.specs.Known.{AreKnownDone, IsTold};
ghost use Rattle.dmk_run.specs.Made.{IsMade};
ghost use Rattle.dmk_reading.specs.Lost.{with_unmade};

use crate::counting::tell_planned;
use crate::driver::Means;
use crate::judging::are_judged;
use crate::known::are_known_done;
use bd_flusher::{FlushFault, SiteIn};
use bd_places::End;
use dmk_parts::{waiting_beside, with_unmade};
use dmk_reading::value_of;
use dmk_store::Stop;
use jb_closing::{Report, RunFault};
use jb_recipe::Conduct;
use jb_runner::{Outside, Parts, Slotting, run_slotted};
use jb_slots::Banks;
use mk_nodes::Graph;
use st_disk::Disk;
use st_recovery::StoreIn;
use st_state::State;
use std::alloc::{AllocError, Global};

/// What a run over a store comes to: its report, or the fault that ended it, and the store.
#[derive(Drop)]
pub struct Built<D: Disk + Drop> {
    pub found: Result<Report, RunFault>,
    pub store: StoreIn<D>,
}

fn dead<D: Disk + Drop>(store: StoreIn<D>) -> Built<D>
    ensures found { result.found ≡ Err (run_faults.Flush refusals.Dead) }
    ensures store { result.store ≡ store }
{
    Built {
        found: Err(RunFault::Flush(FlushFault::Dead)),
        store,
    }
}

/// Whether each node that wasn't built is judged so and, where state is kept, the state knows each target with a recipe as done.
fn is_borne_out(
    alloc: Global,
    graph: &Graph,
    counting: bool,
    keeps_state: bool,
    state: &State,
    ends: &[End],
    same: &[bool],
) -> Result<bool, AllocError>
    ensures known { IfOk result (λ yes. yes ≡ true → keeps_state ≡ true → AreKnownDone graph.now state.now) }
    ensures judged { IfOk result (λ yes. yes ≡ true → AreJudged counting graph.now ends.now same.now) }
{
    if keeps_state && !are_known_done(graph, state) {
        return Ok(false);
    }
    are_judged(alloc, counting, graph, ends, same)
}

/// A report whose status is 0 only where that is borne out.
fn checked(
    alloc: Global,
    graph: &Graph,
    counting: bool,
    keeps_state: bool,
    state: &State,
    report: Report,
) -> Result<Report, AllocError>
    ensures { IfOk result (IsTold graph.now counting keeps_state state.now report) }
{
    let Report { ends, status, same } = report;
    if status == 0 && !is_borne_out(alloc, graph, counting, keeps_state, state, &ends, &same)? {
        return Ok(Report {
            ends,
            status: 1,
            same,
        });
    }
    Ok(Report { ends, status, same })
}

/// What is told of a run whose store is closed: no report of a dead store, and status 0 only where it is borne out.
fn told<D: Disk + Drop>(
    alloc: Global,
    graph: &Graph,
    counting: bool,
    keeps_state: bool,
    found: Result<Report, RunFault>,
    closed: StoreIn<D>,
) -> Built<D>
    ensures store { result.store ≡ closed }
    ensures alive { IsOk result.found → closed.log.dead ≡ false }
    ensures report { IfOk result.found (λ r. (given : RunReport) × (found ≡ Ok given) × IsTold graph.now counting keeps_state closed.state given r) }
    ensures fault { IfErr result.found (λ fault. (found ≡ Err fault) ⊎ ((fault ≡ run_faults.OutOfMemory)
        ⊎ ((fault ≡ run_faults.Flush refusals.Dead) × (closed.log.dead ≡ true)))) }
{
    let report = match found {
        Ok(report) => report,
        Err(fault) => {
            return Built {
                found: Err(fault),
                store: closed,
            };
        }
    };
    if closed.is_dead() {
        return dead(closed);
    }
    match checked(alloc, graph, counting, keeps_state, closed.state(), report) {
        Ok(report) => Built {
            found: Ok(report),
            store: closed,
        },
        Err(_) => Built {
            found: Err(RunFault::OutOfMemory),
            store: closed,
        },
    }
}

/// What a report over the graph comes to, or why there is none.
pub(crate) fn reported(graph: &Graph, found: Result<Report, RunFault>) -> Result<u8, Stop>
    ensures status { IfOk result (λ s. (r : RunReport) × (found ≡ Ok r) × (s ≡ with_unmade graph.now.unmade.items r.status)) }
    ensures begun { IfErr result (λ stop. IsParted stop → ⊥) }
{
    match found {
        Ok(report) => Ok(with_unmade(graph, report.status)),
        Err(fault) => Err(Stop::Run(fault)),
    }
}

/// Makes what the graph's goals need, with so many workers. A report comes only with a store that isn't dead.
pub fn build<M: Outside, D: Disk + Drop + Send, K: Banks>(
    rt: &M::Runtime,
    alloc: Global,
    means: &Means<'_, M::Exec, M::Say, M::Place>,
    graph: &Graph,
    conduct: Conduct,
    workers: usize,
    banks: &mut K,
    store: StoreIn<D>,
) -> Built<D>
where
    K::End: Drop + Send,
    // With a report the store isn't dead, so every pair of crash images recovers its state, and each built node is done there.
    ensures alive { IsOk result.found → result.store.log.dead ≡ false }
    ensures newest { IsOk result.found → result.store.newest ≡ conduct.form }
    ensures recovers { IsOk result.found → D.honest → AllRecoverIn conduct.form result.store.state (now (D.moments result.store.log.disk)) }
    ensures ends { IfOk result.found (λ r. length r.ends.items ≡ length graph.now.nodes.items) }
    ensures status { IfOk result.found (λ r. r.status ≤ 2) }
    ensures well { IfOk result.found (λ r. r.status ≡ 0 → IsTrue (list_all ends_well r.ends.items)) }
    // No status of 0 is made up: a node that wasn't built needn't be.
    ensures borne_out { IfOk result.found (λ r. r.status ≡ 0 → IsBorneOut conduct.counts_records graph.now r.ends.items r.same.items) }
    ensures same { IfOk result.found (λ r. conduct.form ≡ forms.Plain → r.same.items ≡ []) }
    ensures made { IfOk result.found (λ r. conduct.keeps_state ≡ true
        → IsMade conduct.form graph.now D.honest (now (D.moments result.store.log.disk)) r.status r.ends.items) }
    // A store that is handed in dead is told as one, and comes back as it was.
    ensures dead { store.log.dead ≡ true → result.found ≡ Err (run_faults.Flush refusals.Dead) }
    ensures untouched { store.log.dead ≡ true → result.store ≡ store }
    // A pool that is served for the run is let go at its end.
    ensures let_go { K.serves banks.old ≡ false → K.serves banks.new ≡ false }
{
    if store.is_dead() {
        drop(conduct);
        return dead(store);
    }
    tell_planned(alloc, conduct.counts_records, graph, means.say);
    let site = match SiteIn::new(alloc, store) {
        Ok(site) => site,
        Err((_, store)) => {
            drop(conduct);
            return Built {
                found: Err(RunFault::OutOfMemory),
                store,
            };
        }
    };
    let parts = Parts {
        graph,
        key: means.key,
        exec: means.exec,
        say: means.say,
        place: means.place,
    };
    let slotting = Slotting {
        makeflags: value_of(means.environment, b"MAKEFLAGS"),
        workers,
        waiting: waiting_beside(workers, &graph.settings),
        pool: means.pool,
    };
    let counting = conduct.counts_records;
    let keeps_state = conduct.keeps_state;
    let (found, closed) = run_slotted::<M, D, K>(rt, alloc, &parts, conduct, site, slotting, banks);
    told(
        alloc,
        graph,
        counting,
        keeps_state,
        found,
        closed.site.into_store(),
    )
}
