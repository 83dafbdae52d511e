//! Reports that are handed in behind a run: those that are true of its store pass.

use crate::runs::made;
use crate::way::ALONE;
use bd_flusher::{FlushFault, Receipt, SiteIn};
use bd_ledger::Ticket;
use bd_places::End;
use jb_closing::{Closed, Report, RunFault};
use mk_nodes::Graph;
use run_doubles::{Asked, graph, look, new_store};
use st_disk::Disk;
use st_records::Form;
use std::alloc::{AllocError, Global};
use std::process::Abort;
use std::test::Fail;

// Its run tells begun a, done a, begun b, done b: tickets 0 to 3.
const TWO: Asked = Asked {
    makefile: "all: a b\na:\n\ttrue\nb:\n\ttrue\n",
    files: &[],
};

/// The receipts of these tickets and these ends are handed in: at which ticket they are refused.
struct Row {
    name: &'static str,
    tickets: &'static [usize],
    ends: &'static [End],
    refused_at: Option<usize>,
}

static ROWS: [Row; 8] = [
    Row {
        name: "the run's own",
        tickets: &[0, 1, 2, 3],
        ends: &[End::Remade, End::Built, End::Built],
        refused_at: None,
    },
    Row {
        name: "in another order",
        tickets: &[3, 1, 0, 2],
        ends: &[End::Remade, End::Built, End::Built],
        refused_at: None,
    },
    Row {
        name: "one built less",
        tickets: &[0, 1, 2, 3],
        ends: &[End::Abandoned, End::Failed(1), End::UpToDate],
        refused_at: None,
    },
    Row {
        name: "one built too many",
        tickets: &[0, 1, 2, 3],
        ends: &[End::Built, End::Built, End::Built],
        refused_at: Some(4),
    },
    Row {
        name: "a built node that the graph hasn't",
        tickets: &[0, 1, 2, 3],
        ends: &[End::Remade, End::Built, End::Built, End::Built],
        refused_at: Some(4),
    },
    Row {
        name: "a receipt left out",
        tickets: &[0, 1, 3],
        ends: &[End::Remade, End::Built, End::Built],
        refused_at: Some(2),
    },
    Row {
        name: "a receipt handed in twice",
        tickets: &[0, 1, 2, 3, 1],
        ends: &[End::Remade, End::Built, End::Built],
        refused_at: Some(1),
    },
    Row {
        name: "no receipt",
        tickets: &[],
        ends: &[End::UpToDate, End::UpToDate, End::UpToDate],
        refused_at: Some(0),
    },
];

fn receipt<D: Disk + Drop>(
    alloc: Global,
    site: &SiteIn<D>,
    ticket: usize,
) -> Result<Receipt, Fail> {
    let Some(note) = site.told().get(ticket) else {
        return Err("nothing was told there".into());
    };
    look(site, Ticket::new(ticket), note.copy(alloc)?)
}

fn push_receipts<D: Disk + Drop>(
    alloc: Global,
    site: &SiteIn<D>,
    tickets: &[usize],
    receipts: &mut Vec<Receipt>,
) -> Result<(), Fail> {
    for ticket in tickets {
        receipts.push(receipt(alloc, site, *ticket)?)?;
    }
    Ok(())
}

fn report_of(alloc: Global, ends: &[End]) -> Result<Report, AllocError> {
    Ok(Report {
        same: Vec::new(alloc),
        ends: Vec::from_slice(alloc, ends)?,
        status: 0,
    })
}

/// Why a report isn't passed.
fn fault_of<D: Disk + Drop>(
    alloc: Global,
    graph: &Graph,
    closed: &Closed<D>,
    report: Report,
    receipts: &[Receipt],
) -> Option<RunFault> {
    match closed.report(alloc, Form::Plain, graph, report, receipts) {
        Ok(_report) => None,
        Err(fault) => Some(fault),
    }
}

fn refusal<D: Disk + Drop>(
    alloc: Global,
    graph: &Graph,
    closed: &Closed<D>,
    row: &Row,
    receipts: &[Receipt],
) -> Result<Option<RunFault>, AllocError> {
    let report = report_of(alloc, row.ends)?;
    Ok(fault_of(alloc, graph, closed, report, receipts))
}

fn unknown(ticket: usize) -> RunFault {
    RunFault::Flush(FlushFault::Unknown(Ticket::new(ticket)))
}

fn expect_refusal(rt: &impl Abort, row: &Row, refusal: Option<RunFault>) {
    assert_eq!(rt; refusal, row.refused_at.map(unknown), "{}", row.name);
}

fn expect_row<D: Disk + Drop>(
    rt: &(impl Abort + AllocGlobal),
    graph: &Graph,
    closed: &Closed<D>,
    row: &Row,
) -> Result<(), Fail> {
    let mut receipts = Vec::new(rt.alloc());
    push_receipts(rt.alloc(), &closed.site, row.tickets, &mut receipts)?;
    let refusal = refusal(rt.alloc(), graph, closed, row, &receipts);
    drop(receipts);
    expect_refusal(rt, row, refusal?);
    Ok(())
}

fn expect_rows<D: Disk + Drop>(
    rt: &(impl Abort + AllocGlobal),
    graph: &Graph,
    closed: &Closed<D>,
) -> Result<(), Fail> {
    for row in &ROWS {
        expect_row(rt, graph, closed, row)?;
    }
    Ok(())
}

fn expect_closed<D: Disk + Drop>(
    rt: &(impl Abort + AllocGlobal),
    closed: &Closed<D>,
) -> Result<(), Fail> {
    let graph = graph(rt.alloc(), &TWO, closed.site.store().state())?;
    expect_rows(rt, &graph, closed)
}

#[test]
fn a_report_passes_where_it_is_true_of_the_store(rt: HostRuntime) -> Result<(), Fail> {
    let store = new_store(rt.alloc())?;
    let came = made(&rt, rt.alloc(), &TWO, &ALONE, store)?;
    expect_closed(&rt, &came.closed)
}
