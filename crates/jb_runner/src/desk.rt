//! The board as the workers of a run use it: one lock, and who sleeps until something behind it changes. What stands here knows
//! nothing of recipes, of files and of what is printed.
ghost use Rattle.std.specs.Prelude.{◌≡◌, IfOk};
ghost use Rattle.jb_runner.specs.Making.{IsHandedOut};

use crate::abandoning::abandon_waiting;
use bd_flusher::{FlusherIn, Receipt};
use bd_links::Node;
use bd_lists::{Advanced, BoardIn};
use bd_places::End;
use jb_recipe::Conduct;
use st_disk::Disk;
use std::sync::atomic::{AtomicBool, AtomicUsize, Ordering};
use std::sync::{Condvar, Mutex, Wait};

/// Workers that sleep until the board has changed.
#[derive(Drop)]
pub(crate) struct Idlers {
    /// Told whenever the board's lists have changed so that an idle worker may find a node, or none for ever.
    changed: Condvar,
    /// How many workers are idle: it is changed while the board's lock is held.
    idle: AtomicUsize,
    /// All that waited was abandoned: nothing more is begun.
    over: AtomicBool,
}

impl Idlers {
    pub(crate) fn new() -> Idlers {
        Idlers {
            changed: Condvar::new(),
            idle: AtomicUsize::new(0),
            over: AtomicBool::new(false),
        }
    }

    /// Tells idle workers, if there are any, that the board has changed. The board's lock isn't held: a worker that became idle
    /// before the change is counted, and one that looks at the board behind it sees it.
    fn tell(&self) {
        if self.idle.load(Ordering::Relaxed) > 0 {
            self.changed.notify_all();
        }
    }
}

/// The board of a run.
#[derive(Clone, Copy)]
pub(crate) struct Desk<'s> {
    pub(crate) board: &'s Mutex<BoardIn<Receipt>>,
    pub(crate) idlers: &'s Idlers,
    pub(crate) nodes: usize,
    /// The form of its records, and whether the run goes on behind a node that is lost or has failed.
    pub(crate) conduct: &'s Conduct,
}

/// The board of a run, with the site that its records are told to.
#[derive(Drop)]
pub(crate) struct Clerk<'s, D: Disk + Drop> {
    pub(crate) flusher: &'s FlusherIn<D>,
    pub(crate) desk: Desk<'s>,
}

impl Desk<'_> {
    /// A node that can be made now.
    pub(crate) fn claim_ready<R: Wait>(&self, rt: &R) -> Option<Node> {
        let mut board = self.board.lock(rt);
        board.claim()
    }

    /// The next node to be made. While none can be, and some node still waits, the worker sleeps; None where none waits.
    pub(crate) fn next_node<R: Wait>(&self, rt: &R) -> Option<Node> {
        let mut board = self.board.lock(rt);
        for _ in rt.forever() {
            let claimed = board.claim();
            if claimed.is_some() || !board.waits() {
                drop(board);
                return claimed;
            }
            self.idlers.idle.fetch_add(1, Ordering::Relaxed);
            board = self.idlers.changed.wait(rt, board);
            self.idlers.idle.fetch_sub(1, Ordering::Relaxed);
        }
        unreachable!()
    }

    pub(crate) fn advance<R: Wait>(
        &self,
        rt: &R,
        node: Node,
        receipt: Receipt,
    ) -> Result<Advanced<Receipt>, Receipt>
        ensures { IfOk result (λ a. IsHandedOut receipt a) }
    {
        let mut board = self.board.lock(rt);
        board.advance(node, receipt)
    }

    /// Whether nothing is begun behind an end.
    pub(crate) fn ends_run(&self, failed: Option<u32>) -> bool {
        failed.is_some() && !self.conduct.goes_on
    }

    /// Settles the node of an end. Without `-k` a failed target abandons all that waits, in the same holding of the lock: no further
    /// recipe is begun.
    pub(crate) fn advance_end<R: Wait>(
        &self,
        rt: &R,
        node: Node,
        receipt: Receipt,
        failed: Option<u32>,
    ) -> Result<Advanced<Receipt>, Receipt> {
        let mut board = self.board.lock(rt);
        let advanced = board.advance(node, receipt);
        if self.ends_run(failed) {
            self.abandon_all(&mut *board);
        }
        drop(board);
        self.idlers.tell();
        advanced
    }

    /// Abandons all that waits.
    fn abandon_all(&self, board: &mut BoardIn<Receipt>) {
        abandon_waiting(board, self.nodes);
        self.idlers.over.store(true, Ordering::Relaxed);
    }

    /// Whether nothing more is begun, since all that waited was abandoned.
    pub(crate) fn is_over(&self) -> bool {
        self.idlers.over.load(Ordering::Relaxed)
    }

    /// A node that needs no recipe settles. One that can't, which its claim rules out, is abandoned, so that no other waits for it.
    pub(crate) fn settle<R: Wait>(&self, rt: &R, node: Node, end: End) {
        let mut board = self.board.lock(rt);
        if !board.settle(node, end) {
            board.abandon(node);
        }
        drop(board);
        self.idlers.tell();
    }

    /// A node can't be made: it is abandoned, unless its record is still to be drained. Without `-k` all that waits is too.
    pub(crate) fn lose<R: Wait>(&self, rt: &R, node: Node) {
        self.abandon(rt, Some(node), !self.conduct.goes_on);
    }

    /// The run ends: all that waits is abandoned, so that the other workers end with the nodes that they have.
    pub(crate) fn stop<R: Wait>(&self, rt: &R) {
        self.abandon(rt, None, true);
    }

    /// The same, and with it the node of the worker that ends the run, in one holding of the lock: nothing that the node frees is
    /// begun.
    pub(crate) fn stop_at<R: Wait>(&self, rt: &R, node: Node) {
        self.abandon(rt, Some(node), true);
    }

    fn abandon<R: Wait>(&self, rt: &R, node: Option<Node>, is_all: bool) {
        let mut board = self.board.lock(rt);
        if let Some(node) = node {
            board.abandon(node);
        }
        if is_all {
            self.abandon_all(&mut *board);
        }
        drop(board);
        self.idlers.tell();
    }
}
