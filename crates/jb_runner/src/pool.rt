//! A whole run: workers in threads, and its closing report.
ghost use Rattle.std.specs.Prelude.{◌≡◌, ℕ, ◌<◌, ◌≤◌, List, [], false, length, Some, slice_get, unwrap_or, IfOk, IsTrue};
ghost use Rattle.std.specs.List.{list_all};
ghost use Rattle.std.specs.Thread.{IsSend, IsSync};
ghost use Rattle.st_disk.specs.Moments.{now};
ghost use Rattle.st_records.specs.declared.version.Form.TheVariants as forms;
ghost use Rattle.st_state.specs.State.{replay};
ghost use Rattle.bd_flusher.specs.declared.site.receipt.Receipt.{Receipt};
ghost use Rattle.bd_places.specs.declared.end.End.TheVariants.{Abandoned};
ghost use Rattle.bd_places.specs.Settling.{end_of};
ghost use Rattle.jb_closing.specs.Agreement.{AreThoseOf};
ghost use Rattle.jb_closing.specs.Closing.{AreTrueOf};
ghost use Rattle.jb_closing.specs.Report.{ends_well, ComesTo};

use crate::boards::board_for;
use crate::earlier::Ends;
use crate::gate::{Gate, staying};
use crate::outside::{Outside, Parts};
use crate::shift::{Shift, let_go};
use crate::shop::Shop;
use crate::worker::work;
use bd_flusher::{FlusherIn, Receipt, SiteIn};
use bd_links::Node;
use bd_lists::{BoardIn, Exec};
use bd_places::End;
use jb_closing::{Closed, Report, RunFault};
use jb_recipe::{Conduct, News, Place, Say};
use jb_slots::Bank;
use mk_nodes::Graph;
use st_disk::Disk;
use st_records::Form;
use std::alloc::{AllocError, Global};
use std::sync::{Mutex, Wait};
use std::thread;
use std::thread::{JoinHandle, Threads};

/// One worker's part of the run, once it may begin.
fn begin<R, D, E, S, P, B>(
    rt: &R,
    alloc: Global,
    shop: &Shop<'_, D, E, S, P>,
    gate: &Gate,
    number: usize,
    bank: B,
) -> Shift
where
    R: Wait,
    D: Disk + Drop,
    E: Exec<Receipt>,
    S: Say,
    P: Place,
    B: Bank + Drop,
{
    if gate.passes(rt, number) {
        work(rt, alloc, shop, bank)
    } else {
        Shift::new(alloc)
    }
}

impl<D: Disk + Drop, E, S: Say, P> Shop<'_, D, E, S, P> {
    // Where not all workers could be started, it is told; where none could, the run ends.
    fn note_workers<R: Wait>(&self, rt: &R, crew: &mut Shift, workers: usize, asked: usize) {
        if workers == 0 {
            self.desk().stop(rt);
            crew.meet(RunFault::Start);
        } else if workers < asked {
            self.say.tell(News::FewerWorkers { workers, asked });
        }
    }
}

/// Waits for the threads behind so many.
fn join_last<R: Threads>(
    rt: &R,
    crew: &mut Shift,
    threads: &mut Vec<JoinHandle<Shift>>,
    staying: usize,
) {
    for _ in staying..threads.len() {
        if let Some(thread) = threads.pop() {
            crew.add(thread.join(rt));
        }
    }
}

fn join_all<R: Threads>(rt: &R, crew: &mut Shift, threads: Vec<JoinHandle<Shift>>) {
    for thread in threads {
        crew.add(thread.join(rt));
    }
}

/// Starts a worker for each end of the jobserver, and waits for all of them. Where one can't be started no further one is, and
/// the run goes on with those that there are.
fn run_workers<R, D, E, S, P, B>(
    rt: &R,
    alloc: Global,
    shop: &Shop<'_, D, E, S, P>,
    gate: &Gate,
    banks: Vec<B>,
) -> Shift
where
    R: Threads + Wait + Sync,
    D: Disk + Drop + Send,
    E: Exec<Receipt> + Sync,
    S: Say + Sync,
    P: Place + Sync,
    B: Bank + Drop + Send,
{
    thread::scope(
        thread::scope_env(),
        rt,
        move |scope| -> Shift
            requires { IsSync R.row × IsSend D.row × IsSync E.row × IsSync S.row × IsSync P.row × IsSend B.row }
        {
            let mut crew = Shift::new(alloc);
            let asked = banks.len();
            let Ok(mut threads) = Vec::with_capacity(alloc, asked) else {
                drop(banks);
                crew.meet(RunFault::OutOfMemory);
                return crew;
            };
            for bank in banks {
                let number = threads.len();
                match scope.spawn(move || begin(rt, alloc, shop, gate, number, bank)) {
                    Ok(thread) => {
                        let _ = threads.push(thread);
                    }
                    Err(refused) => {
                        drop(refused);
                        break;
                    }
                }
            }
            let workers = staying(threads.len(), asked);
            gate.send_home(rt, workers);
            join_last(rt, &mut crew, &mut threads, workers);
            shop.note_workers(rt, &mut crew, workers, asked);
            gate.open(rt);
            join_all(rt, &mut crew, threads);
            crew
        },
    )
}

/// What the workers came to, and the site, the board and what has ended, out of their locks.
fn run_shop<M: Outside, D: Disk + Drop + Send, B: Bank + Drop + Send>(
    rt: &M::Runtime,
    alloc: Global,
    shop: Shop<'_, D, M::Exec, M::Say, M::Place>,
    banks: Vec<B>,
) -> (Shift, SiteIn<D>, BoardIn<Receipt>, Ends) {
    let gate = Gate::new();
    let crew = run_workers(rt, alloc, &shop, &gate, banks);
    let (site, board, ends) = shop.into_parts();
    (crew, site, board, ends)
}

/// How each node ended. A node that hasn't, which a fault alone leaves, counts as abandoned.
fn ends_of(alloc: Global, board: &BoardIn<Receipt>, nodes: usize) -> Result<Vec<End>, AllocError>
    ensures each { IfOk result (λ ends. length ends.items ≡ nodes) }
    ensures end { IfOk result (λ ends. (node : ℕ) → node < nodes
        → slice_get ends.items node ≡ Some (unwrap_or (end_of board.now.standing node) Abandoned)) }
{
    let mut ends = Vec::with_capacity(alloc, nodes)?;
    for number in 0..nodes {
        ends.push(board.end(Node::new(number)).unwrap_or(End::Abandoned))?;
    }
    Ok(ends)
}

/// The report of what the workers came to, or the fault that one of them met.
fn close<D: Disk + Drop>(
    closed: &Closed<D>,
    alloc: Global,
    form: Form,
    graph: &Graph,
    board: &BoardIn<Receipt>,
    ended: Ends,
    crew: Shift,
) -> Result<Report, RunFault>
    ensures ends { IfOk result (λ r. length r.ends.items ≡ length graph.now.nodes.items) }
    ensures status { IfOk result (λ r. r.status ≤ 2) }
    ensures well { IfOk result (λ r. r.status ≡ 0 → IsTrue (list_all ends_well r.ends.items)) }
    ensures newest { IfOk result (λ r. closed.now.site.newest ≡ form) }
    ensures same { IfOk result (λ r. form ≡ forms.Plain → r.same.items ≡ []) }
    ensures built { IfOk result (λ r. AreThoseOf closed.now.site.told crew.receipts.items
        × AreTrueOf form closed.now.site.told crew.receipts.items (D.honest × (closed.now.site.dead ≡ false)) (now (D.moments closed.now.site.disk))
        graph.now.names r.ends.items) }
{
    let Shift {
        receipts,
        status,
        fault,
        pending,
    } = crew;
    let_go(pending);
    if let Some(fault) = fault {
        drop(receipts);
        return Err(fault);
    }
    let ends = ends_of(alloc, board, graph.len())?;
    let same = ended.into_same(alloc, form);
    let report = closed.report(
        alloc,
        form,
        graph,
        Report::of(ends, status, same),
        &receipts,
    );
    drop(receipts);
    report
}

/// The run of a shop whose records have this form, and its closing report.
fn run_to_close<M: Outside, D: Disk + Drop + Send, B: Bank + Drop + Send>(
    rt: &M::Runtime,
    alloc: Global,
    form: Form,
    graph: &Graph,
    shop: Shop<'_, D, M::Exec, M::Say, M::Place>,
    banks: Vec<B>,
) -> (Result<Report, RunFault>, Closed<D>)
    ensures { ComesTo D.honest D.moments form graph.now result.0 result.1.site }
{
    let (crew, site, board, ended) = run_shop::<M, D, B>(rt, alloc, shop, banks);
    let closed = Closed::new(site);
    let report = close(&closed, alloc, form, graph, &board, ended, crew);
    drop(board);
    (report, closed)
}

/// Which recipes have ended of a run that begins, where 'done' records ask for it.
fn no_ends(alloc: Global, form: Form, nodes: usize) -> Result<Ends, AllocError> {
    match form {
        Form::Old | Form::Plain => Ends::none(alloc, 0),
        Form::Marked => Ends::none(alloc, nodes),
    }
}

/// Makes what the graph's goals need: at most as many recipes run at once as there are ends of the jobserver. The report, or the fault
/// that ended the run, and the site out of its lock.
///
/// Where there is a report, it has an end for each node, and its status is 0 only where each of them is up to date or made. The
/// last told record of each built node is a 'done', and that node is done with its commands whatever power cut comes, if the
/// disk keeps its model and no call of it has failed.
pub fn run<M: Outside, D: Disk + Drop + Send, B: Bank + Drop + Send>(
    rt: &M::Runtime,
    alloc: Global,
    parts: &Parts<'_, M::Exec, M::Say, M::Place>,
    conduct: &Conduct,
    site: SiteIn<D>,
    banks: Vec<B>,
) -> (Result<Report, RunFault>, Closed<D>)
    ensures folded { result.1.site.state ≡ replay result.1.site.opening result.1.site.told }
    ensures ends { IfOk result.0 (λ r. length r.ends.items ≡ length parts.now.graph.now.nodes.items) }
    ensures status { IfOk result.0 (λ r. r.status ≤ 2) }
    ensures well { IfOk result.0 (λ r. r.status ≡ 0 → IsTrue (list_all ends_well r.ends.items)) }
    ensures newest { IfOk result.0 (λ r. result.1.site.newest ≡ conduct.now.form) }
    ensures same { IfOk result.0 (λ r. conduct.now.form ≡ forms.Plain → r.same.items ≡ []) }
    ensures built { IfOk result.0 (λ r. (receipts : List Receipt) × AreThoseOf result.1.site.told receipts
        × AreTrueOf conduct.now.form result.1.site.told receipts (D.honest × (result.1.site.dead ≡ false)) (now (D.moments result.1.site.disk))
        parts.now.graph.now.names r.ends.items) }
{
    let Parts {
        graph,
        key,
        exec,
        say,
        place,
    } = *parts;
    let form = conduct.form;
    let Ok(board) = board_for(alloc, form, graph, banks.len()) else {
        drop(banks);
        return (Err(RunFault::OutOfMemory), Closed::new(site));
    };
    let Ok(ends) = no_ends(alloc, form, graph.len()) else {
        drop(banks);
        drop(board);
        return (Err(RunFault::OutOfMemory), Closed::new(site));
    };
    let flusher = FlusherIn {
        form,
        site: Mutex::new(site),
        board: Mutex::new(board),
    };
    let shop = Shop::new(graph, conduct, exec, say, place, key, flusher, ends);
    run_to_close::<M, D, B>(rt, alloc, form, graph, shop, banks)
}
