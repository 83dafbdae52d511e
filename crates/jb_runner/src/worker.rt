//! One worker.

use crate::bench::Bench;
use crate::shift::Shift;
use crate::shop::Shop;
use bd_flusher::Receipt;
use bd_lists::Exec;
use jb_closing::RunFault;
use jb_recipe::{Place, Say};
use jb_slots::Bank;
use st_disk::Disk;
use std::alloc::Global;
use std::sync::Wait;

/// Makes one node after the other until none waits, or until a fault ends the run. A worker that meets one abandons its node
/// and all that waits.
pub(crate) fn work<R: Wait, D: Disk + Drop, E: Exec<Receipt>, S: Say, P: Place, B: Bank + Drop>(
    rt: &R,
    alloc: Global,
    shop: &Shop<'_, D, E, S, P>,
    bank: B,
) -> Shift {
    let mut bank = bank;
    let mut shift = Shift::new(alloc);
    match vec![in alloc; false; shop.graph.len()] {
        Ok(mut marks) => {
            let bench = shop.bench();
            make_nodes(rt, alloc, &bench, &mut marks, &mut bank, &mut shift);
        }
        Err(_) => {
            shop.desk().stop(rt);
            shift.meet(RunFault::OutOfMemory);
        }
    }
    shift
}

fn make_nodes<R: Wait, D: Disk + Drop, E: Exec<Receipt>, S: Say, P: Place, B: Bank>(
    rt: &R,
    alloc: Global,
    bench: &Bench<'_, D, E, S, P>,
    marks: &mut Vec<bool>,
    bank: &mut B,
    shift: &mut Shift,
) {
    for _ in rt.forever() {
        let Some(node) = bench.clerk.claim_next(rt, alloc, shift) else {
            return;
        };
        if let Err(fault) = bench.make(rt, alloc, node, marks, bank, shift) {
            bench.clerk.desk.stop_at(rt, node);
            shift.meet(fault);
            bench.clerk.settle_last(rt, alloc, shift);
            return;
        }
    }
    unreachable!()
}
