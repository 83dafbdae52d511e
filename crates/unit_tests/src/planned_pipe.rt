//! A pipe that stops as it is told: after some reads it is at its end, or answers a fault.
use jb_slots::{BankFault, MemoryPipe, Pipe, Taken};
use std::sync::{Condvar, Mutex, Wait};

#[derive(Clone, Copy)]
pub enum Stop {
    End,
    Fault,
}

/// How often something was done, and a way to wait for it.
#[derive(Drop)]
pub struct Watch {
    reads: Mutex<u64>,
    changed: Condvar,
}

impl Watch {
    pub fn new() -> Watch {
        Watch {
            reads: Mutex::new(0),
            changed: Condvar::new(),
        }
    }

    /// Waits until there were so many reads.
    pub fn wait_for<R: Wait>(&self, rt: &R, reads: u64) {
        let _seen = self
            .changed
            .wait_while(rt, self.reads.lock(rt), |seen| *seen < reads);
    }

    pub fn reads<R: Wait>(&self, rt: &R) -> u64 {
        *self.reads.lock(rt)
    }

    pub fn note<R: Wait>(&self, rt: &R) {
        let mut reads = self.reads.lock(rt);
        *reads = reads.saturating_add(1);
        self.changed.notify_all();
    }
}

/// Passes so many reads on, and then stops. Writes are passed on.
#[derive(Drop)]
pub struct PlannedPipe<'a, R: Wait> {
    pub rt: &'a R,
    pub inner: MemoryPipe<'a, R>,
    pub reads_left: u32,
    pub stop: Stop,
    pub watch: &'a Watch,
}

impl<R: Wait> Pipe for PlannedPipe<'_, R> {
    ghost reads = { λ _ _ _. Unit {0} };

    ghost writes = { λ _ _ _ _. Unit {0} };

    fn read(&mut self) -> Result<Taken, BankFault> {
        self.watch.note(self.rt);
        if self.reads_left > 0 {
            self.reads_left -= 1;
            return self.inner.read();
        }
        match self.stop {
            Stop::End => Ok(Taken::End),
            Stop::Fault => Err(BankFault),
        }
    }

    fn write(&mut self, token: u8) -> Result<(), BankFault> {
        self.inner.write(token)
    }
}
