//! What a worker makes nodes with.

use crate::desk::Clerk;
use crate::earlier::Ends;
use jb_recipe::{News, Say};
use jb_slots::{Bank, Slots};
use mk_nodes::Graph;
use st_disk::Disk;
use st_records::HashKey;
use std::sync::{Mutex, Wait};

/// What a worker makes nodes with: all that workers share, lent by their shop.
#[derive(Drop)]
pub(crate) struct Bench<'s, D: Disk + Drop, E, S, P> {
    pub(crate) graph: &'s Graph,
    pub(crate) exec: &'s E,
    pub(crate) say: &'s S,
    pub(crate) place: &'s P,
    pub(crate) key: HashKey,
    pub(crate) slots: &'s Slots,
    pub(crate) complained: &'s Mutex<bool>,
    pub(crate) ends: &'s Mutex<Ends>,
    pub(crate) clerk: Clerk<'s, D>,
}

fn is_first<R: Wait>(rt: &R, complained: &Mutex<bool>) -> bool {
    let mut complained = complained.lock(rt);
    let is_first = !*complained;
    *complained = true;
    is_first
}

/// Whether a worker's end of the jobserver has failed. The first time in a run it is told.
pub(crate) fn complain<R: Wait, S: Say, B: Bank>(
    rt: &R,
    say: &S,
    complained: &Mutex<bool>,
    bank: &B,
) -> bool {
    if !bank.faulted() {
        return false;
    }
    if is_first(rt, complained) {
        say.tell(News::JobserverFailed);
    }
    true
}
