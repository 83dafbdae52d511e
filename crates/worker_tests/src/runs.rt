//! One run over memory, and what came of it.

use crate::fake::{Fake, Notes, TokenEnd};
use crate::way::Way;
use bd_flusher::SiteIn;
use bd_lists::Variable;
use byte_strings::ByteString;
use jb_closing::{Closed, Report, RunFault};
use jb_recipe::{Conduct, Makeflags};
use jb_runner::{Parts, run};
use mk_nodes::Graph;
use mk_plan::Telling;
use run_doubles::{Asked, graph, site_of};
use st_disk::Disk;
use st_records::{Form, HashKey};
use st_recovery::StoreIn;
use st_state::State;
use std::alloc::{AllocError, Global};
use std::sync::Wait;
use std::test::Fail;
use std::thread::Threads;
use std::time::Clock;

/// What came of a run.
pub struct Came<D: Disk + Drop> {
    pub report: Result<Report, RunFault>,
    pub notes: Notes,
    pub closed: Closed<D>,
}

impl<D: Disk + Drop> Drop for Came<D> {
    fn drop(self) {
        let Came {
            report: _,
            notes: _,
            closed: _,
        } = self;
    }
}

impl<D: Disk + Drop> Came<D> {
    /// The status, 9 for a fault.
    pub fn status(&self) -> u8 {
        match &self.report {
            Ok(report) => report.status,
            Err(_) => 9,
        }
    }

    pub fn state(&self) -> &State {
        self.closed.site.store().state()
    }

    pub fn into_disk(self) -> D {
        let Came {
            report: _,
            notes: _,
            closed,
        } = self;
        disk_of(closed)
    }
}

fn disk_of<D: Disk + Drop>(closed: Closed<D>) -> D {
    let Closed { site } = closed;
    let store = site.into_store();
    let log = store.log;
    log.disk
}

/// What a run goes by.
#[derive(Clone, Copy)]
struct Given<'g> {
    graph: &'g Graph,
    conduct: &'g Conduct,
    workers: usize,
}

/// How a run ended, and what is left of it.
type Ended<D> = (Result<Report, RunFault>, Closed<D>);

fn run_by<R: Threads + Wait + Clock + Sync + Copy, D: Disk + Drop + Send>(
    rt: &R,
    given: Given<'_>,
    site: SiteIn<D>,
    ends: Vec<TokenEnd<'_, R>>,
    fake: &Fake<R>,
) -> Ended<D> {
    let Given { graph, conduct, .. } = given;
    let parts = Parts {
        graph,
        key: HashKey::fixed(),
        exec: fake,
        say: fake,
        place: fake,
    };
    run::<(R, Fake<R>, Fake<R>, Fake<R>), D, TokenEnd<'_, R>>(
        rt, fake.alloc, &parts, conduct, site, ends,
    )
}

fn run_over<R: Threads + Wait + Clock + Sync + Copy, D: Disk + Drop + Send>(
    rt: &R,
    given: Given<'_>,
    store: StoreIn<D>,
    fake: &Fake<R>,
) -> Result<Ended<D>, Fail> {
    let site = site_of(fake.alloc, store)?;
    let ends = fake.ends(given.workers, given.graph.len())?;
    Ok(run_by(rt, given, site, ends, fake))
}

fn conduct(alloc: Global, way: &Way) -> Result<Conduct, AllocError> {
    Ok(Conduct {
        keeps_state: way.keeps_state,
        form: Form::Plain,
        counts_records: way.keeps_state,
        goes_on: way.goes_on,
        ignores_statuses: false,
        prints_no_lines: false,
        telling: Telling::Nothing,
        definitions: Vec::<Variable>::new(alloc),
        makeflags: Makeflags::Removed,
        at_once: way.workers,
        state_name: ByteString::from_slice(alloc, b".make.state")?,
    })
}

// What the next call only reads is lent to it, so that few values are owned wherever a call may fail.
fn made_with<R: Threads + Wait + Clock + Sync + Copy, D: Disk + Drop + Send>(
    rt: &R,
    alloc: Global,
    given: Given<'_>,
    way: &Way,
    store: StoreIn<D>,
) -> Result<Came<D>, Fail> {
    let fake = Fake::new(*rt, alloc, way)?;
    let (report, closed) = run_over(rt, given, store, &fake)?;
    Ok(Came {
        report,
        notes: fake.into_notes(),
        closed,
    })
}

fn made_by<R: Threads + Wait + Clock + Sync + Copy, D: Disk + Drop + Send>(
    rt: &R,
    alloc: Global,
    graph: &Graph,
    way: &Way,
    store: StoreIn<D>,
) -> Result<Came<D>, Fail> {
    let conduct = conduct(alloc, way)?;
    let given = Given {
        graph,
        conduct: &conduct,
        workers: way.workers,
    };
    made_with(rt, alloc, given, way, store)
}

/// Makes what is asked over a store.
pub fn made<R: Threads + Wait + Clock + Sync + Copy, D: Disk + Drop + Send>(
    rt: &R,
    alloc: Global,
    asked: &Asked,
    way: &Way,
    store: StoreIn<D>,
) -> Result<Came<D>, Fail> {
    let graph = graph(alloc, asked, store.state())?;
    made_by(rt, alloc, &graph, way, store)
}
