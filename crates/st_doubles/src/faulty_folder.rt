//! A folder that fails calls by a plan, and passes the others to the folder within.
ghost use Rattle.std.specs.Prelude.{◌≡◌, true, false, OnOk, OnErr};

use crate::plan::Plan;
use st_disk::{Folder, Which};
use std::io::{self, ErrorKind};

/// Makes one call of the folder within for each that the plan lets pass, and none for one that it fails. Where `short`
/// is set, a write that it fails is made, and one byte too few is answered.
#[derive(Drop)]
pub struct FaultyFolder<F: Folder + Drop, P: Plan + Drop> {
    pub inner: F,
    pub plan: P,
    pub short: bool,
}

fn pass<P: Plan>(plan: &mut P) -> io::Result<()>
    ensures plan { plan.new ≡ P.rest plan.old }
    ensures passed { OnOk result (P.fails plan.old ≡ false) }
    ensures failed { OnErr result (P.fails plan.old ≡ true) }
{
    if plan.next_fails() {
        return Err(ErrorKind::Other.into());
    }
    Ok(())
}

impl<F: Folder + Drop, P: Plan + Drop> Folder for FaultyFolder<F, P> {
    type File = F::File;

    ghost honest = { F.honest };

    ghost held = { λ folder. F.held folder.inner };

    ghost moments = { λ folder. F.moments folder.inner };

    ghost missing = { λ folder. F.missing folder.inner };

    ghost durable = { λ folder. F.durable folder.inner };

    ghost sound = { λ folder. F.sound folder.inner };

    ghost side_of = { F.side_of };

    ghost missing_holds_none = { λ folder honest side. F.missing_holds_none folder.inner honest side };

    ghost lost = { λ folder honest side. F.lost folder.inner honest side };

    ghost held_is_image = { λ folder honest side. F.held_is_image folder.inner honest side };

    fn find(&mut self, side: Which) -> io::Result<Option<F::File>> {
        pass(&mut self.plan)?;
        self.inner.find(side)
    }

    fn create(&mut self, side: Which) -> io::Result<F::File> {
        pass(&mut self.plan)?;
        self.inner.create(side)
    }

    fn len(&mut self, file: &F::File) -> io::Result<usize> {
        pass(&mut self.plan)?;
        self.inner.len(file)
    }

    fn read_at(&mut self, file: &F::File, buf: &mut [u8], at: usize) -> io::Result<usize> {
        pass(&mut self.plan)?;
        self.inner.read_at(file, buf, at)
    }

    fn write_at(&mut self, file: &F::File, bytes: &[u8], at: usize) -> io::Result<usize> {
        let passed = pass(&mut self.plan);
        if passed.is_err() && !self.short {
            return Err(ErrorKind::Other.into());
        }
        let written = self.inner.write_at(file, bytes, at)?;
        if passed.is_err() && written == bytes.len() {
            return Ok(written.saturating_sub(1));
        }
        Ok(written)
    }

    fn set_len(&mut self, file: &F::File, len: usize) -> io::Result<()> {
        pass(&mut self.plan)?;
        self.inner.set_len(file, len)
    }

    fn sync(&mut self, file: &F::File) -> io::Result<()> {
        pass(&mut self.plan)?;
        self.inner.sync(file)
    }

    fn sync_name(&mut self, file: &F::File) -> io::Result<()> {
        pass(&mut self.plan)?;
        self.inner.sync_name(file)
    }

    fn sync_missing(&mut self, side: Which) -> io::Result<()> {
        pass(&mut self.plan)?;
        self.inner.sync_missing(side)
    }
}
