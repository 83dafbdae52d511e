//! The two files of a folder over any disk, each of them there or missing. It keeps the contracts of a folder, so what
//! is assumed of a system's calls can be had.
ghost use Rattle.std.specs.Prelude.{◌≡◌, ◌≤◌, [], true, false, Bool};
ghost use Rattle.st_disk.specs.Crash.{writes_of};
ghost use Rattle.st_disk.specs.Moments.{now};
ghost use Rattle.st_disk.specs.Which.{pick};
ghost use Rattle.st_disk.specs.declared.which.Which.TheVariants.{A, B};
ghost use Rattle.st_disk.specs.declared.which.Which.{Which as Side};

use st_disk::{Disk, Folder, Which};
use std::io::{self, ErrorKind};

/// What is so of one of the two files.
#[derive(Clone, Copy, Debug, PartialEq, Eq)]
struct Entry {
    missing: bool,
    durable: bool,
}

/// A side of the disk is the file's bytes.
#[derive(Drop)]
pub struct MemFolder<D: Disk + Drop> {
    pub disk: D,
    a: Entry,
    b: Entry,
    ghost none: { D.honest → (side : Side) → (pick a b side).missing ≡ true → D.seen disk side ≡ [] },
    ghost lost: { D.honest → (side : Side) → (pick a b side).durable ≡ false →
        (writes_of side (now (D.moments disk))).least ≤ 0 },
}

impl<D: Disk + Drop> MemFolder<D> {
    /// Both files are there, under names that are on the disk.
    pub fn with_files(disk: D) -> Self
        ensures disk { result.disk ≡ disk }
        ensures there { (side : Side) → ⟦<MemFolder<D> as Folder>⟧.missing result side ≡ false }
        ensures durable { (side : Side) → ⟦<MemFolder<D> as Folder>⟧.durable result side ≡ true }
    {
        let there = Entry {
            missing: false,
            durable: true,
        };
        MemFolder {
            disk,
            a: there,
            b: there,
        }
    }

    /// Both files are missing, and that is on the disk.
    pub fn without_files(disk: D) -> Self
        requires a { D.honest → D.seen disk A ≡ [] }
        requires b { D.honest → D.seen disk B ≡ [] }
        ensures disk { result.disk ≡ disk }
        ensures missing { (side : Side) → ⟦<MemFolder<D> as Folder>⟧.missing result side ≡ true }
        ensures durable { (side : Side) → ⟦<MemFolder<D> as Folder>⟧.durable result side ≡ true }
    {
        let missing = Entry {
            missing: true,
            durable: true,
        };
        MemFolder {
            disk,
            a: missing,
            b: missing,
        }
    }

    fn entry(&self, side: Which) -> Entry
        ensures { result ≡ pick self.now.a self.now.b side }
    {
        match side {
            Which::A => self.a,
            Which::B => self.b,
        }
    }
}

impl<D: Disk + Drop> Folder for MemFolder<D> {
    type File = Which;

    ghost honest = { D.honest };

    ghost held = { λ folder. D.seen folder.disk };

    ghost moments = { λ folder. D.moments folder.disk };

    ghost missing = { λ folder side. (pick folder.a folder.b side).missing };

    ghost durable = { λ folder side. (pick folder.a folder.b side).durable };

    ghost sound = { λ _ _. true };

    ghost side_of = { λ side. side };

    ghost missing_holds_none = { λ folder honest side. folder.none honest side };

    ghost lost = { λ folder honest side. folder.lost honest side };

    ghost held_is_image = { λ folder honest side. D.seen_is_image folder.disk honest side };

    fn find(&mut self, side: Which) -> io::Result<Option<Which>> {
        if self.entry(side).missing {
            return Ok(None);
        }
        Ok(Some(side))
    }

    fn create(&mut self, side: Which) -> io::Result<Which> {
        if !self.entry(side).missing {
            return Err(ErrorKind::AlreadyExists.into());
        }
        let made = Entry {
            missing: false,
            durable: false,
        };
        match side {
            Which::A => self.a = made,
            Which::B => self.b = made,
        }
        Ok(side)
    }

    fn len(&mut self, file: &Which) -> io::Result<usize> {
        match self.disk.len(*file) {
            Ok(len) => Ok(len),
            Err(_) => Err(ErrorKind::Other.into()),
        }
    }

    fn read_at(&mut self, file: &Which, buf: &mut [u8], at: usize) -> io::Result<usize> {
        match self.disk.read(*file, at, buf) {
            Ok(()) => Ok(buf.len()),
            Err(_) => Err(ErrorKind::Other.into()),
        }
    }

    fn write_at(&mut self, file: &Which, bytes: &[u8], at: usize) -> io::Result<usize> {
        if self.entry(*file).missing {
            return Err(ErrorKind::NotFound.into());
        }
        match self.disk.write_at(*file, at, bytes) {
            Ok(()) => Ok(bytes.len()),
            Err(_) => Err(ErrorKind::Other.into()),
        }
    }

    fn set_len(&mut self, file: &Which, len: usize) -> io::Result<()> {
        if self.entry(*file).missing {
            return Err(ErrorKind::NotFound.into());
        }
        match self.disk.cut(*file, len) {
            Ok(()) => Ok(()),
            Err(_) => Err(ErrorKind::Other.into()),
        }
    }

    fn sync(&mut self, file: &Which) -> io::Result<()> {
        match self.disk.sync(*file) {
            Ok(()) => Ok(()),
            Err(_) => Err(ErrorKind::Other.into()),
        }
    }

    fn sync_name(&mut self, file: &Which) -> io::Result<()> {
        match *file {
            Which::A => self.a.durable = true,
            Which::B => self.b.durable = true,
        }
        Ok(())
    }

    fn sync_missing(&mut self, side: Which) -> io::Result<()> {
        match self.disk.sync(side) {
            Ok(()) => Ok(()),
            Err(_) => Err(ErrorKind::Other.into()),
        }
    }
}
