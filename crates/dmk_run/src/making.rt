//! What was planned, made over the log of a store whose state the plan holds.
ghost use Rattle.std.specs.Prelude.{◌≡◌, ◌≤◌, false, IfOk, IfErr};
ghost use Rattle.st_disk.specs.Moments.{now};
ghost use Rattle.st_file.specs.Layout.{IsReadIn};
ghost use Rattle.st_recovery.specs.Recovers.{IsMadeOf};
ghost use Rattle.st_recovery.specs.Stored.{IsStoredOnIn};
ghost use Rattle.dmk_run.specs.InTurn.{IsParted};
ghost use Rattle.dmk_run.specs.Made.{HasMade};
ghost use Rattle.dmk_parts.specs.Tried.{tried_in};
ghost use Rattle.dmk_parts.specs.Planned.{recorded_in};

use crate::building::{Built, build};
use crate::counting::count;
use crate::driver::Means;
use crate::left::came_to;
use crate::settling::is_none_to_run;
use bd_flusher::Receipt;
use bd_lists::Exec;
use dmk_parts::{Left, Plan, Wishes, ready_recipes, recorded_apart, with_unmade};
use dmk_printing::Printer;
use dmk_store::{Machine, Stop, disk_of};
use st_disk::Disk;
use st_file::LogIn;
use st_recovery::StoreIn;
use std::alloc::Global;
use std::mem;

/// The outside of workers on a machine.
type Served<'p, M, E> = (
    <M as Machine>::Runtime,
    E,
    Printer<'p, <M as Machine>::Runtime, <M as Machine>::Out, <M as Machine>::Err>,
    <M as Machine>::Place,
);

/// Makes what was planned, some recipe of which may be to be run. The store is put together for that: the graph keeps its state,
/// so the store's is a copy, or what the graph has forgotten.
///
/// A copy for each run was a sixteenth of a null run's instructions, and 13 MB for 49,000 targets. The graph can't borrow the
/// store's, which is written while the graph is read.
fn make_listed<M: Machine, E: Exec<Receipt> + Sync, D: Disk + Drop + Send>(
    rt: &M::Runtime,
    alloc: Global,
    means: &Means<'_, E, Printer<'_, M::Runtime, M::Out, M::Err>, M::Place>,
    wishes: &Wishes<'_>,
    is_part: bool,
    plan: Plan,
    banks: &mut M::Banks,
    log: LogIn<D>,
) -> (Result<u8, Stop>, D, Left)
    requires stored { D.honest → log.dead ≡ false → IsStoredOnIn plan.conduct.form (D.seen log.disk) (now (D.moments log.disk)) log.side
        log.form log.generation log.end (recorded_in plan) }
    requires is_read { IsReadIn plan.conduct.form log.form }
    requires recorded { ∥ IsMadeOf log.form (recorded_in plan) ∥₁ }
    ensures status { IfOk result.0 (λ s. s ≤ 2) }
    ensures made { IfOk result.0 (λ s. HasMade plan.conduct.form plan.graph plan.conduct.counts_records plan.conduct.keeps_state D.honest (now (D.moments result.1)) s
        (tried_in result.2)) }
    ensures parted { IfErr result.0 (λ stop. IsParted stop → result.1 ≡ log.disk) }
    ensures let_go { M.Banks.serves banks.old ≡ false → M.Banks.serves banks.new ≡ false }
{
    let Plan {
        graph,
        forgotten,
        conduct,
    } = plan;
    let state = match recorded_apart(alloc, &graph, forgotten) {
        Ok(state) => state,
        Err(error) => {
            drop(graph);
            drop(conduct);
            return (Err(Stop::from(error)), disk_of(log), Left::nothing(alloc));
        }
    };
    let workers = wishes.workers(&graph.settings);
    means.say.log_names(&graph.names, &graph.hard);
    let counting = conduct.counts_records;
    let newest = conduct.form;
    let store = StoreIn { log, state, newest };
    let Built { found, store } = build::<Served<'_, M, E>, D, M::Banks>(
        rt, alloc, means, &graph, conduct, workers, banks, store,
    );
    count(alloc, counting, &graph, means.say, &found);
    let StoreIn {
        log,
        state,
        newest: _,
    } = store;
    let (came_to, left) = came_to(alloc, is_part, &graph, found);
    mem::forget(graph);
    mem::forget(state);
    (came_to, disk_of(log), left)
}

/// Makes what was planned over an opened store's log. The disk comes back.
pub(crate) fn make<M: Machine, E: Exec<Receipt> + Sync, D: Disk + Drop + Send>(
    rt: &M::Runtime,
    alloc: Global,
    means: &Means<'_, E, Printer<'_, M::Runtime, M::Out, M::Err>, M::Place>,
    wishes: &Wishes<'_>,
    is_part: bool,
    plan: Plan,
    banks: &mut M::Banks,
    log: LogIn<D>,
) -> (Result<u8, Stop>, D, Left)
    requires alive { log.dead ≡ false }
    requires stored { D.honest → log.dead ≡ false → IsStoredOnIn plan.conduct.form (D.seen log.disk) (now (D.moments log.disk)) log.side
        log.form log.generation log.end (recorded_in plan) }
    requires is_read { IsReadIn plan.conduct.form log.form }
    requires recorded { ∥ IsMadeOf log.form (recorded_in plan) ∥₁ }
    ensures status { IfOk result.0 (λ s. s ≤ 2) }
    ensures made { IfOk result.0 (λ s. HasMade plan.conduct.form plan.graph plan.conduct.counts_records plan.conduct.keeps_state D.honest (now (D.moments result.1)) s
        (tried_in result.2)) }
    ensures parted { IfErr result.0 (λ stop. IsParted stop → result.1 ≡ log.disk) }
    ensures let_go { M.Banks.serves banks.old ≡ false → M.Banks.serves banks.new ≡ false }
{
    let state = plan.conduct.keeps_state.then_some(wishes.state.as_str());
    means
        .say
        .log_run(wishes.workers(&plan.graph.settings), state);
    if !is_none_to_run(alloc, &plan, means.say) {
        if let Err(stop) = ready_recipes(
            alloc,
            plan.conduct.counts_records,
            &plan.graph,
            means.shell,
        ) {
            mem::forget(plan);
            return (Err(stop), disk_of(log), Left::nothing(alloc));
        }
        return make_listed::<M, E, D>(rt, alloc, means, wishes, is_part, plan, banks, log);
    }
    let status = with_unmade(&plan.graph, 0);
    // It is millions of small pieces of memory. The run ends here, and the system takes all of them back at once.
    mem::forget(plan);
    (Ok(status), disk_of(log), Left::nothing(alloc))
}
