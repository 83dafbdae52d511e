//! What a worker brings home.
ghost use Rattle.std.specs.Prelude.{◌≡◌, ◌+◌, ◌≤◌, ◌++◌, Some, None, unwrap_or, IfSome, OnOk, vec_len, vec_capacity};

use crate::pending::Pending;
use bd_flusher::Receipt;
use jb_closing::RunFault;
use std::alloc::Global;

/// What one worker, or all of them, came to: the receipts that were gathered, the greatest status of the nodes, and the
/// fault with which the first worker that met one ended.
#[derive(Drop)]
pub(crate) struct Shift {
    pub receipts: Vec<Receipt>,
    /// 2 where a recipe couldn't be expanded or the jobserver failed, else 1 where a target failed or couldn't be recorded.
    pub status: u8,
    pub fault: Option<RunFault>,
    /// The end that a worker submitted last, until its node has settled. None is brought home.
    pub(crate) pending: Option<Pending>,
    ghost in_range: { status ≤ 2 },
}

// A worker that has ended leaves none.
pub(crate) fn let_go(pending: Option<Pending>) {
    drop(pending);
}

impl Shift {
    pub(crate) fn new(alloc: Global) -> Shift
        ensures status { result.status ≡ 0 }
        ensures fault { result.fault ≡ None }
    {
        Shift {
            receipts: Vec::new(alloc),
            status: 0,
            fault: None,
            pending: None,
        }
    }

    /// A node of the worker came to this status.
    pub(crate) fn worsen(&mut self, status: u8)
        requires { status ≤ 2 }
        ensures least { self.old.status ≤ self.new.status }
        ensures given { status ≤ self.new.status }
        ensures rest { (self.new.receipts ≡ self.old.receipts) × (self.new.fault ≡ self.old.fault) }
    {
        if self.status < status {
            self.status = status;
        }
    }

    /// The worker met a fault. An earlier one counts.
    pub(crate) fn meet(&mut self, fault: RunFault)
        ensures fault { self.new.fault ≡ Some (unwrap_or self.old.fault fault) }
        ensures rest { (self.new.receipts ≡ self.old.receipts) × (self.new.status ≡ self.old.status) }
    {
        if self.fault.is_none() {
            self.fault = Some(fault);
        }
    }

    /// Takes in what a further worker brings home. Faults count in the order of the workers.
    pub(crate) fn add(&mut self, other: Shift)
        ensures least { (self.old.status ≤ self.new.status) × (other.status ≤ self.new.status) }
        ensures fault { IfSome self.old.fault (λ fault. self.new.fault ≡ Some fault) }
        ensures receipts { self.new.fault ≡ None → self.new.receipts.items ≡ self.old.receipts.items ++ other.receipts.items }
    {
        let Shift {
            mut receipts,
            status,
            fault,
            pending,
        } = other;
        let_go(pending);
        self.worsen(status);
        if let Some(fault) = fault {
            self.meet(fault);
        }
        if self.receipts.append(&mut receipts).is_err() {
            self.meet(RunFault::OutOfMemory);
        }
    }
}

impl Shift {
    /// Makes room for the receipts of one node and of the end that is pending: to keep them takes no memory then.
    pub(crate) fn make_room(&mut self) -> Result<(), RunFault>
        ensures same { (self.new.status ≡ self.old.status) × (self.new.fault ≡ self.old.fault) }
        ensures room { OnOk result (vec_len self.new.receipts + 3 ≤ vec_capacity self.new.receipts) }
    {
        self.receipts.reserve(3)?;
        Ok(())
    }

    /// Keeps a receipt. There is room for it. Were there none, the closing report would miss it and refuse the run.
    pub(crate) fn keep(&mut self, receipt: Receipt) {
        if self.receipts.push(receipt).is_err() {
            self.meet(RunFault::OutOfMemory);
        }
    }
}
