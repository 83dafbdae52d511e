//! A disk that fails calls by a plan and passes the others to the disk within.
ghost use Rattle.std.specs.Prelude.{◌≡◌, ◌+◌, ◌<◌, ◌≤◌, length, take, slice_range, IfOk, OnOk, OnErr, true, false};
ghost use Rattle.st_disk.specs.Crash.{overwritten, other};
ghost use Rattle.st_disk.specs.Moments.{after_write, after_cut, after_sync, Passes, MayPass};
ghost use Rattle.st_disk.specs.Faults.{CountsFaults};

use crate::plan::{FailsOne, Plan, Stops};
use st_disk::{DeviceFault, Disk, Which, count_fault};

/// Makes one call of the disk within for each that the plan lets pass, and none for one that it fails.
#[derive(Drop)]
pub struct Planned<D: Disk + Drop, P: Plan + Drop> {
    pub inner: D,
    pub plan: P,
    pub refused: u64,
}

/// A disk that stops: so many calls pass, each later one fails unmade.
pub type Fuse<D> = Planned<D, Stops>;

/// A disk that fails one call: so many calls pass, the next one fails unmade, all later ones pass.
pub type FailOnce<D> = Planned<D, FailsOne>;

impl<D: Disk + Drop> Planned<D, Stops> {
    pub fn new(inner: D, calls: u64) -> Self
        ensures { result ≡ record { inner = inner; plan = record { calls_left = calls }; refused = 0 } }
    {
        Planned {
            inner,
            plan: Stops { calls_left: calls },
            refused: 0,
        }
    }
}

impl<D: Disk + Drop> Planned<D, FailsOne> {
    pub fn new(inner: D, calls: u64) -> Self
        ensures { result ≡ record { inner = inner; plan = record { calls_left = calls; failed = false }; refused = 0 } }
    {
        Planned {
            inner,
            plan: FailsOne {
                calls_left: calls,
                failed: false,
            },
            refused: 0,
        }
    }
}

fn pass<P: Plan>(plan: &mut P, refused: &mut u64) -> Result<(), DeviceFault>
    ensures plan { plan.new ≡ P.rest plan.old }
    ensures faults { CountsFaults result refused.old refused.new }
    ensures passed { OnOk result (P.fails plan.old ≡ false) }
    ensures failed { OnErr result (P.fails plan.old ≡ true) }
{
    if plan.next_fails() {
        return Err(count_fault(refused));
    }
    Ok(())
}

impl<D: Disk + Drop, P: Plan + Drop> Disk for Planned<D, P> {
    ghost use Rattle.st_doubles.specs.Planned.{Follows};

    ghost honest = { D.honest };

    ghost seen = { λ disk. D.seen disk.inner };

    ghost moments = { λ disk. D.moments disk.inner };

    ghost faults = { λ disk. D.faults disk.inner + disk.refused };

    ghost seen_is_image = { λ disk honest side. D.seen_is_image disk.inner honest side };

    fn len(&mut self, side: Which) -> Result<usize, DeviceFault>
        ensures len { D.honest → IfOk result (λ n. n ≡ length (D.seen self.old.inner side)) }
        ensures seen { D.honest → D.seen self.new.inner ≡ D.seen self.old.inner }
        ensures moments { D.honest → D.moments self.new.inner ≡ D.moments self.old.inner }
        ensures faults { CountsFaults result
            (D.faults self.old.inner + self.old.refused) (D.faults self.new.inner + self.new.refused) }
        ensures follows { Follows (P.fails self.old.plan) (P.rest self.old.plan) result self.old self.new }
    {
        pass(&mut self.plan, &mut self.refused)?;
        self.inner.len(side)
    }

    fn read(&mut self, side: Which, at: usize, buf: &mut [u8]) -> Result<(), DeviceFault>
        requires { D.honest → at + length buf.old ≤ length (D.seen self.old.inner side) }
        ensures bytes { D.honest →
            OnOk result (buf.new ≡ slice_range (D.seen self.old.inner side) at (at + length buf.old)) }
        ensures seen { D.honest → D.seen self.new.inner ≡ D.seen self.old.inner }
        ensures moments { D.honest → D.moments self.new.inner ≡ D.moments self.old.inner }
        ensures faults { CountsFaults result
            (D.faults self.old.inner + self.old.refused) (D.faults self.new.inner + self.new.refused) }
        ensures follows { Follows (P.fails self.old.plan) (P.rest self.old.plan) result self.old self.new }
    {
        pass(&mut self.plan, &mut self.refused)?;
        self.inner.read(side, at, buf)
    }

    fn write_at(&mut self, side: Which, at: usize, bytes: &[u8]) -> Result<(), DeviceFault>
        requires { D.honest → at ≤ length (D.seen self.old.inner side) }
        ensures written { D.honest →
            OnOk result (D.seen self.new.inner side ≡ overwritten (D.seen self.old.inner side) at bytes.now) }
        ensures other { D.honest →
            D.seen self.new.inner (other side) ≡ D.seen self.old.inner (other side) }
        ensures passes { D.honest → OnOk result (Passes
            (after_write side at (length bytes.now) (D.moments self.old.inner))
            (D.moments self.old.inner) (D.moments self.new.inner)) }
        ensures moments { D.honest → MayPass
            (after_write side at (length bytes.now) (D.moments self.old.inner))
            (D.moments self.old.inner) (D.moments self.new.inner) }
        ensures faults { CountsFaults result
            (D.faults self.old.inner + self.old.refused) (D.faults self.new.inner + self.new.refused) }
        ensures follows { Follows (P.fails self.old.plan) (P.rest self.old.plan) result self.old self.new }
    {
        pass(&mut self.plan, &mut self.refused)?;
        self.inner.write_at(side, at, bytes)
    }

    fn cut(&mut self, side: Which, len: usize) -> Result<(), DeviceFault>
        requires { D.honest → len ≤ length (D.seen self.old.inner side) }
        ensures cut { D.honest →
            OnOk result (D.seen self.new.inner side ≡ take len (D.seen self.old.inner side)) }
        ensures other { D.honest →
            D.seen self.new.inner (other side) ≡ D.seen self.old.inner (other side) }
        ensures passes { D.honest → len < length (D.seen self.old.inner side) → OnOk result (Passes
            (after_cut side len (D.moments self.old.inner))
            (D.moments self.old.inner) (D.moments self.new.inner)) }
        ensures moments { D.honest → MayPass
            (after_cut side len (D.moments self.old.inner))
            (D.moments self.old.inner) (D.moments self.new.inner) }
        ensures faults { CountsFaults result
            (D.faults self.old.inner + self.old.refused) (D.faults self.new.inner + self.new.refused) }
        ensures follows { Follows (P.fails self.old.plan) (P.rest self.old.plan) result self.old self.new }
    {
        pass(&mut self.plan, &mut self.refused)?;
        self.inner.cut(side, len)
    }

    fn sync(&mut self, side: Which) -> Result<(), DeviceFault>
        ensures seen { D.honest → D.seen self.new.inner ≡ D.seen self.old.inner }
        ensures passes { D.honest → OnOk result (Passes
            (after_sync side (D.seen self.old.inner side) (D.moments self.old.inner))
            (D.moments self.old.inner) (D.moments self.new.inner)) }
        ensures failed { D.honest → OnErr result (D.moments self.new.inner ≡ D.moments self.old.inner) }
        ensures moments { D.honest → MayPass
            (after_sync side (D.seen self.old.inner side) (D.moments self.old.inner))
            (D.moments self.old.inner) (D.moments self.new.inner) }
        ensures faults { CountsFaults result
            (D.faults self.old.inner + self.old.refused) (D.faults self.new.inner + self.new.refused) }
        ensures follows { Follows (P.fails self.old.plan) (P.rest self.old.plan) result self.old self.new }
    {
        pass(&mut self.plan, &mut self.refused)?;
        self.inner.sync(side)
    }
}
