//! A whole run with job slots from where MAKEFLAGS says.
ghost use Rattle.std.specs.Prelude.{◌≡◌, ◌≤◌, List, [], false, length, IfOk, IsTrue};
ghost use Rattle.std.specs.List.{list_all};
ghost use Rattle.mk_nodes.specs.declared.graph.Graph.{Graph};
ghost use Rattle.st_disk.specs.Moments.{now};
ghost use Rattle.st_state.specs.State.{replay};
ghost use Rattle.st_records.specs.declared.version.Form.{Form};
ghost use Rattle.st_records.specs.declared.version.Form.TheVariants as forms;
ghost use Rattle.bd_flusher.specs.declared.site.receipt.Receipt.{Receipt};
ghost use Rattle.jb_closing.specs.Agreement.{AreThoseOf};
ghost use Rattle.jb_closing.specs.Closing.{AreTrueOf};
ghost use Rattle.jb_closing.specs.Report.{ends_well, ComesTo};

use crate::outside::{Outside, Parts};
use crate::pool::run;
use crate::served::run_as_server;
use crate::serving::{Source, source_of};
use bd_flusher::SiteIn;
use jb_closing::{Closed, Report, RunFault};
use jb_recipe::{Conduct, Makeflags, News, Say};
use jb_slots::{Banks, MemoryBank, MemoryPool};
use mk_nodes::Graph;
use st_disk::Disk;
use std::alloc::{AllocError, Global};
use std::sync::Wait;

/// What is known of job slots before a run.
#[derive(Clone, Copy)]
pub struct Slotting<'a> {
    /// As it came, empty where there is none.
    pub makeflags: &'a [u8],
    /// How many recipes are run at once at most, 1 to 256.
    pub workers: usize,
    /// How many workers there are beside those, which wait for their turn where a makefile bounds how many of some recipes run at once.
    pub waiting: usize,
    /// The absolute path of the pool that dmk would serve; empty where it can't be told.
    pub pool: &'a [u8],
}

impl Slotting<'_> {
    /// How many workers there are.
    pub(crate) fn all_workers(self) -> usize {
        self.workers.saturating_add(self.waiting)
    }
}

/// What a run comes to: its report or fault, and the closed site.
pub(crate) type Came<D> = (Result<Report, RunFault>, Closed<D>);

pub(crate) fn no_memory<D: Disk + Drop>(site: SiteIn<D>) -> Came<D>
    ensures { (form : Form) (graph : Graph) → ComesTo D.honest D.moments form graph result.0 result.1.site }
{
    (Err(RunFault::OutOfMemory), Closed::new(site))
}

fn memory_pool(alloc: Global, count: usize) -> Result<MemoryPool, AllocError> {
    let tokens = vec![in alloc; b'+'; count]?;
    MemoryPool::new(alloc, &tokens)
}

/// One end of the pool for each worker.
fn memory_ends<'a, R: Wait>(
    rt: &'a R,
    alloc: Global,
    pool: &'a MemoryPool,
    workers: usize,
    nodes: usize,
) -> Result<Vec<MemoryBank<'a, R>>, AllocError> {
    let mut ends = Vec::with_capacity(alloc, workers)?;
    for _ in 0..workers {
        ends.push(pool.end(rt, alloc, nodes)?)?;
    }
    Ok(ends)
}

/// A run whose slots are the implicit one and so many of a pool in memory.
pub(crate) fn run_in_memory<M: Outside, D: Disk + Drop + Send>(
    rt: &M::Runtime,
    alloc: Global,
    parts: &Parts<'_, M::Exec, M::Say, M::Place>,
    conduct: &Conduct,
    site: SiteIn<D>,
    workers: usize,
    count: usize,
) -> Came<D>
    ensures { ComesTo D.honest D.moments conduct.now.form parts.now.graph.now result.0 result.1.site }
{
    let Ok(pool) = memory_pool(alloc, count) else {
        return no_memory(site);
    };
    let Ok(ends) = memory_ends(rt, alloc, &pool, workers, parts.graph.len()) else {
        return no_memory(site);
    };
    run::<M, D, MemoryBank<'_, M::Runtime>>(rt, alloc, parts, conduct, site, ends)
}

/// A run over the pool of a path, if it can be opened; else the site comes back.
pub(crate) fn run_over_pool<M: Outside, D: Disk + Drop + Send, K: Banks>(
    rt: &M::Runtime,
    alloc: Global,
    parts: &Parts<'_, M::Exec, M::Say, M::Place>,
    conduct: &Conduct,
    site: SiteIn<D>,
    workers: usize,
    banks: &K,
    path: &[u8],
) -> Result<Came<D>, SiteIn<D>>
where
    K::End: Drop + Send,
    ensures { IfOk result (λ came. ComesTo D.honest D.moments conduct.now.form parts.now.graph.now came.0 came.1.site) }
{
    match banks.open(alloc, path, workers, parts.graph.len()) {
        Ok(Some(ends)) => Ok(run::<M, D, K::End>(rt, alloc, parts, conduct, site, ends)),
        Ok(None) => Err(site),
        Err(_) => Ok(no_memory(site)),
    }
}

/// A run of one worker, with the implicit slot.
fn run_alone<M: Outside, D: Disk + Drop + Send>(
    rt: &M::Runtime,
    alloc: Global,
    parts: &Parts<'_, M::Exec, M::Say, M::Place>,
    conduct: &mut Conduct,
    site: SiteIn<D>,
) -> Came<D>
    ensures { ComesTo D.honest D.moments conduct.old.form parts.now.graph.now result.0 result.1.site }
{
    conduct.makeflags = Makeflags::Removed;
    run_in_memory::<M, D>(rt, alloc, parts, conduct, site, 1, 0)
}

/// A run over the pool of a path that MAKEFLAGS names, or alone where it can't be opened.
fn run_as_client<M: Outside, D: Disk + Drop + Send, K: Banks>(
    rt: &M::Runtime,
    alloc: Global,
    parts: &Parts<'_, M::Exec, M::Say, M::Place>,
    conduct: &mut Conduct,
    site: SiteIn<D>,
    workers: usize,
    banks: &K,
    path: &[u8],
) -> Came<D>
where
    K::End: Drop + Send,
    ensures { ComesTo D.honest D.moments conduct.old.form parts.now.graph.now result.0 result.1.site }
{
    conduct.makeflags = Makeflags::HandedOn;
    match run_over_pool::<M, D, K>(rt, alloc, parts, conduct, site, workers, banks, path) {
        Ok(came) => came,
        Err(site) => {
            parts.say.tell(News::SlotsUnused);
            run_alone::<M, D>(rt, alloc, parts, conduct, site)
        }
    }
}

/// A run with slots from where MAKEFLAGS says.
fn run_by_source<M: Outside, D: Disk + Drop + Send, K: Banks>(
    rt: &M::Runtime,
    alloc: Global,
    parts: &Parts<'_, M::Exec, M::Say, M::Place>,
    conduct: &mut Conduct,
    site: SiteIn<D>,
    slotting: Slotting<'_>,
    banks: &mut K,
) -> Came<D>
where
    K::End: Drop + Send,
    ensures came { ComesTo D.honest D.moments conduct.old.form parts.now.graph.now result.0 result.1.site }
    ensures let_go { K.serves banks.old ≡ false → K.serves banks.new ≡ false }
{
    match source_of(slotting.makeflags, slotting.workers) {
        Source::Server => run_as_server::<M, D, K>(
            rt, alloc, parts, conduct, site, slotting, banks,
        ),
        Source::Client(path) => {
            let workers = slotting.all_workers();
            run_as_client::<M, D, K>(rt, alloc, parts, conduct, site, workers, banks, path)
        }
        Source::Alone => run_alone::<M, D>(rt, alloc, parts, conduct, site),
        Source::Unused => {
            parts.say.tell(News::SlotsUnused);
            run_alone::<M, D>(rt, alloc, parts, conduct, site)
        }
    }
}

/// Makes what the graph's goals need, with job slots from where MAKEFLAGS says: as the client of a FIFO, as the server of one,
/// or with the implicit slot, by one worker: another would write that it begins a recipe, and then wait. What recipes get of MAKEFLAGS follows from that, whatever `conduct` says of it, and how many of them run at once. A pool that is
/// served for the run is let go at its end.
///
/// The report and the closed site are as those of `run`.
pub fn run_slotted<M: Outside, D: Disk + Drop + Send, K: Banks>(
    rt: &M::Runtime,
    alloc: Global,
    parts: &Parts<'_, M::Exec, M::Say, M::Place>,
    conduct: Conduct,
    site: SiteIn<D>,
    slotting: Slotting<'_>,
    banks: &mut K,
) -> (Result<Report, RunFault>, Closed<D>)
where
    K::End: Drop + Send,
    ensures folded { result.1.site.state ≡ replay result.1.site.opening result.1.site.told }
    ensures ends { IfOk result.0 (λ r. length r.ends.items ≡ length parts.now.graph.now.nodes.items) }
    ensures status { IfOk result.0 (λ r. r.status ≤ 2) }
    ensures well { IfOk result.0 (λ r. r.status ≡ 0 → IsTrue (list_all ends_well r.ends.items)) }
    ensures newest { IfOk result.0 (λ r. result.1.site.newest ≡ conduct.form) }
    ensures same { IfOk result.0 (λ r. conduct.form ≡ forms.Plain → r.same.items ≡ []) }
    ensures built { IfOk result.0 (λ r. (receipts : List Receipt) × AreThoseOf result.1.site.told receipts
        × AreTrueOf conduct.form result.1.site.told receipts (D.honest × (result.1.site.dead ≡ false)) (now (D.moments result.1.site.disk))
        parts.now.graph.now.names r.ends.items) }
    ensures let_go { K.serves banks.old ≡ false → K.serves banks.new ≡ false }
{
    let mut conduct = conduct;
    conduct.at_once = slotting.workers;
    let came = run_by_source::<M, D, K>(rt, alloc, parts, &mut conduct, site, slotting, banks);
    drop(conduct);
    came
}
