//! What the workers of a run share, and their first and last steps with the board.

use crate::bench::Bench;
use crate::desk::{Clerk, Desk, Idlers};
use crate::earlier::Ends;
use bd_flusher::{FlusherIn, Receipt, SiteIn};
use bd_lists::BoardIn;
use jb_recipe::{Conduct, Say};
use jb_slots::Slots;
use mk_nodes::Graph;
use st_disk::Disk;
use st_records::HashKey;
use std::sync::Mutex;

/// What the workers of a run share. Two locks stand in `flusher`, that of the site and that of the board; the site's may be
/// held while the board's is taken, never the other way round. While a recipe runs, while a slot is waited for and while
/// something is printed, a worker holds neither.
pub(crate) struct Shop<'a, D: Disk + Drop, E, S, P> {
    pub graph: &'a Graph,
    pub conduct: &'a Conduct,
    pub exec: &'a E,
    pub say: &'a S,
    pub place: &'a P,
    /// Hides from whoever writes reports which names collide in a table.
    pub key: HashKey,
    pub flusher: FlusherIn<D>,
    pub slots: Slots,
    idlers: Idlers,
    /// Whether the jobserver's fault was told.
    complained: Mutex<bool>,
    ends: Mutex<Ends>,
}

impl<'a, D: Disk + Drop, E, S, P> Drop for Shop<'a, D, E, S, P> {
    fn drop(self) {
        let Shop {
            graph: _,
            conduct: _,
            exec: _,
            say: _,
            place: _,
            key: _,
            flusher: _,
            slots: _,
            idlers: _,
            complained: _,
            ends: _,
        } = self;
    }
}

impl<'a, D: Disk + Drop, E, S: Say, P> Shop<'a, D, E, S, P> {
    pub fn new(
        graph: &'a Graph,
        conduct: &'a Conduct,
        exec: &'a E,
        say: &'a S,
        place: &'a P,
        key: HashKey,
        flusher: FlusherIn<D>,
        ends: Ends,
    ) -> Shop<'a, D, E, S, P> {
        Shop {
            graph,
            conduct,
            exec,
            say,
            place,
            key,
            flusher,
            slots: Slots::new(),
            idlers: Idlers::new(),
            complained: Mutex::new(false),
            ends: Mutex::new(ends),
        }
    }

    /// The site, the board and what has ended, out of their locks.
    pub(crate) fn into_parts(self) -> (SiteIn<D>, BoardIn<Receipt>, Ends) {
        let Shop {
            graph: _,
            conduct: _,
            exec: _,
            say: _,
            place: _,
            key: _,
            flusher,
            slots: _,
            idlers: _,
            complained: _,
            ends,
        } = self;
        let FlusherIn {
            form: _,
            site,
            board,
        } = flusher;
        (site.into_inner(), board.into_inner(), ends.into_inner())
    }

    /// The board, as workers use it.
    pub(crate) fn desk(&self) -> Desk<'_> {
        Desk {
            board: &self.flusher.board,
            idlers: &self.idlers,
            nodes: self.graph.len(),
            conduct: self.conduct,
        }
    }

    /// What a worker makes nodes with.
    pub(crate) fn bench(&self) -> Bench<'_, D, E, S, P> {
        Bench {
            graph: self.graph,
            exec: self.exec,
            say: self.say,
            place: self.place,
            key: self.key,
            slots: &self.slots,
            complained: &self.complained,
            ends: &self.ends,
            clerk: Clerk {
                flusher: &self.flusher,
                desk: self.desk(),
            },
        }
    }
}
