//! Several workers: recipes that run at once, the tokens that they hold, and what ends a run or not.

use crate::expected::expect;
use crate::fake::Notes;
use crate::runs::{Came, made};
use crate::way::{ALONE, SIDE_BY_SIDE, Way};
use byte_strings::ByteString;
use jb_recipe::PlaceFault;
use run_doubles::{Asked, listing, new_store};
use st_disk::Disk;
use std::alloc::{AllocError, Global};
use std::process::Abort;
use std::sync::Wait;
use std::test::Fail;
use std::thread::Threads;
use std::time::Clock;

/// A run, and what it tells: the lines that were run, its status and how each node ended behind a `=`, and the state.
/// Each token lies in the pool again.
struct Row {
    name: &'static str,
    makefile: &'static str,
    way: Way,
    told: &'static str,
    /// What it prints, where the order is the same in each run.
    said: Option<&'static [u8]>,
}

static TOGETHER: Row = Row {
    name: "two recipes meet",
    makefile: "all: a b\na:\n\tmeet 2\nb:\n\tmeet 2\n",
    way: SIDE_BY_SIDE,
    told: "meet 2\nmeet 2\n=0 [Remade, Built, Built]\ndone a\n    $ meet 2\ndone b\n    $ meet 2\n",
    said: None,
};

const TWO_WANTING_MEMORY: Way = Way {
    workers: 2,
    sync: Err(PlaceFault::OutOfMemory),
    ..ALONE
};

const BROKEN: Way = Way {
    workers: 3,
    keeps_state: false,
    tokens: None,
    ..ALONE
};

const BESIDE_AN_OLD_REPORT: Way = Way {
    keeps_reports: true,
    ..ALONE
};

static STOPPED: [Row; 4] = [
    // Whatever its line says of statuses.
    Row {
        name: "no line is run beside an old report",
        makefile: "x:\n\t-echo x\n",
        way: BESIDE_AN_OLD_REPORT,
        told: "=1 [Failed(256)]\nfailed x 256\n",
        said: Some(b"~remove .make.state.dep.0\n!x\n"),
    },
    Row {
        name: "a worker that wants memory ends the run of the other",
        makefile: "all: x .WAIT y\nx:\n\ttrue\ny:\n\techo y\n",
        way: TWO_WANTING_MEMORY,
        told: "true\n=9\nbegun x\n",
        said: Some(
            b"~remove .make.state.dep.1\ntrue\n~report .make.state.dep.1\n\
~remove .make.state.dep.1\n~sync x\n",
        ),
    },
    // All three meet, so two hold a token.
    Row {
        name: "each token goes back from recipes that fail",
        makefile: "all: a b c\na:\n\tmeet 3\n\texit 3\nb:\n\tmeet 3\n\texit 3\nc:\n\tmeet 3\n\texit 3\n",
        way: SIDE_BY_SIDE,
        told: "meet 3\nmeet 3\nmeet 3\nexit 3\nexit 3\nexit 3\n=1 [Abandoned, Failed(3), Failed(3), Failed(3)]\n\
failed a 3\nfailed b 3\nfailed c 3\n",
        said: None,
    },
    // The recipe that has the implicit slot waits until both other workers have met the fault.
    Row {
        name: "a pool that fails is told once",
        makefile: "all: a b c\na:\n\t@meet 3\nb:\n\t@meet 3\nc:\n\t@meet 3\n",
        way: BROKEN,
        told: "meet 3\nmeet 3\nmeet 3\n=2 [Remade, Built, Built, Built]\n\
done a\n    $ meet 3\ndone b\n    $ meet 3\ndone c\n    $ meet 3\n",
        said: Some(b"!jobserver\n"),
    },
];

/// The status of a run and how each node ended, 9 for a fault.
fn ended<D: Disk + Drop>(alloc: Global, came: &Came<D>) -> Result<String, AllocError> {
    match &came.report {
        Ok(report) => format!(in alloc; "{} {:?}", report.status, report.ends),
        Err(_) => String::from_str(alloc, "9"),
    }
}

fn told<D: Disk + Drop>(alloc: Global, came: &Came<D>) -> Result<String, AllocError> {
    let ran = ByteString::from_slice(alloc, came.notes.ran.as_slice())?;
    let ended = ended(alloc, came)?;
    let listing = listing(alloc, came.state())?;
    format!(in alloc; "{ran}={ended}\n{listing}")
}

/// Whether the tokens lie in the pool, each given back by who had read it.
fn are_back(notes: &Notes, tokens: &[u8]) -> bool {
    for token in tokens {
        if !notes.tokens.contains(token) {
            return false;
        }
    }
    notes.tokens.len() == tokens.len() && !notes.are_mixed
}

fn expect_notes(rt: &impl Abort, row: &Row, notes: &Notes) {
    assert!(rt;
        are_back(notes, row.way.tokens.unwrap_or(b"")),
        "{}",
        row.name
    );
    if let Some(said) = row.said {
        assert_eq!(rt; notes.said.as_slice(), said, "{}", row.name);
    }
}

fn expect_told<D: Disk + Drop>(alloc: Global, row: &Row, came: &Came<D>) -> Result<(), Fail> {
    let told = told(alloc, came)?;
    expect(alloc, row.name, told.as_str(), row.told)
}

fn expect_row<R: Threads + Wait + Clock + Sync + Copy + AllocGlobal + Abort>(
    rt: &R,
    row: &Row,
) -> Result<(), Fail> {
    let alloc = rt.alloc();
    let store = new_store(alloc)?;
    let asked = Asked {
        makefile: row.makefile,
        files: &[],
    };
    let came = made(rt, alloc, &asked, &row.way, store)?;
    expect_came(rt, alloc, row, &came)
}

fn expect_came<D: Disk + Drop>(
    rt: &impl Abort,
    alloc: Global,
    row: &Row,
    came: &Came<D>,
) -> Result<(), Fail> {
    expect_notes(rt, row, &came.notes);
    expect_told(alloc, row, came)
}

#[test]
fn two_recipes_meet(rt: HostRuntime) -> Result<(), Fail> {
    expect_row(&rt, &TOGETHER)
}

#[test]
fn workers_end_where_a_run_is_stopped(rt: HostRuntime) -> Result<(), Fail> {
    for row in &STOPPED {
        expect_row(&rt, row)?;
    }
    Ok(())
}
