//! A disk over two files, made of the single system calls of a folder. It keeps the disk's model wherever those calls
//! keep their contracts.
ghost use Rattle.std.specs.Prelude.{◌≡◌, ◌+◌, true, false};
ghost use Rattle.st_disk.specs.OpenSide.{Fits};
ghost use Rattle.st_disk.specs.declared.which.Which.TheVariants.{A, B};

use crate::fault::count_fault;
use crate::folder::Folder;
use crate::open_side::OpenSide;
use crate::{DeviceFault, Disk, Which, side_calls};

/// A disk whose sides are the two files of a folder.
///
/// A missing file has length 0 and is made by its first write, which fails where another one stands at the name by then;
/// a sync of it syncs the folder. A file that is there but can't be used as one (a folder, a refused permission) is a
/// fault of each call. After a write or a cut of a side failed, each later call on that side is a fault; after a sync
/// failed, each later call.
pub struct FileDisk<F: Folder + Drop> {
    pub folder: F,
    a: OpenSide<F::File>,
    b: OpenSide<F::File>,
    faults: u64,
    ghost a_fits: { F.honest → a.failed ≡ false →
        Fits F.side_of (F.missing folder) (F.durable folder) (F.sound folder) A a.found a.name_synced },
    ghost b_fits: { F.honest → b.failed ≡ false →
        Fits F.side_of (F.missing folder) (F.durable folder) (F.sound folder) B b.found b.name_synced },
}

impl<F: Folder + Drop> Drop for FileDisk<F> {
    fn drop(self) {
        let FileDisk {
            folder: _,
            a: _,
            b: _,
            faults: _,
        } = self;
    }
}

impl<F: Folder + Drop> FileDisk<F> {
    /// Makes no call yet.
    pub fn new(folder: F) -> Self
        requires { F.honest → (F.sound folder A ≡ true) × (F.sound folder B ≡ true) }
        ensures folder { result.folder ≡ folder }
        ensures seen { ⟦<FileDisk<F> as Disk>⟧.seen result ≡ F.held folder }
        ensures moments { ⟦<FileDisk<F> as Disk>⟧.moments result ≡ F.moments folder }
        ensures faults { ⟦<FileDisk<F> as Disk>⟧.faults result ≡ 0 }
    {
        FileDisk {
            folder,
            a: OpenSide::new(),
            b: OpenSide::new(),
            faults: 0,
        }
    }

    /// How many calls failed.
    pub fn fault_count(&self) -> u64
        ensures { result ≡ ⟦<FileDisk<F> as Disk>⟧.faults self.now }
    {
        self.faults
    }
}

impl<F: Folder + Drop> Disk for FileDisk<F> {
    ghost honest = { F.honest };

    ghost seen = { λ disk. F.held disk.folder };

    ghost moments = { λ disk. F.moments disk.folder };

    ghost faults = { λ disk. disk.faults };

    ghost seen_is_image = { λ disk honest side. F.held_is_image disk.folder honest side };

    fn len(&mut self, side: Which) -> Result<usize, DeviceFault> {
        let answer = match side {
            Which::A => side_calls::len(&mut self.folder, &mut self.a, side),
            Which::B => side_calls::len(&mut self.folder, &mut self.b, side),
        };
        match answer {
            Ok(value) => Ok(value),
            Err(_) => Err(count_fault(&mut self.faults)),
        }
    }

    fn read(&mut self, side: Which, at: usize, buf: &mut [u8]) -> Result<(), DeviceFault> {
        let answer = match side {
            Which::A => side_calls::read(&mut self.folder, &mut self.a, side, at, buf),
            Which::B => side_calls::read(&mut self.folder, &mut self.b, side, at, buf),
        };
        match answer {
            Ok(value) => Ok(value),
            Err(_) => Err(count_fault(&mut self.faults)),
        }
    }

    fn write_at(&mut self, side: Which, at: usize, bytes: &[u8]) -> Result<(), DeviceFault> {
        let answer = match side {
            Which::A => side_calls::write(&mut self.folder, &mut self.a, side, at, bytes),
            Which::B => side_calls::write(&mut self.folder, &mut self.b, side, at, bytes),
        };
        match answer {
            Ok(value) => Ok(value),
            Err(_) => Err(count_fault(&mut self.faults)),
        }
    }

    fn cut(&mut self, side: Which, len: usize) -> Result<(), DeviceFault> {
        let answer = match side {
            Which::A => side_calls::cut(&mut self.folder, &mut self.a, side, len),
            Which::B => side_calls::cut(&mut self.folder, &mut self.b, side, len),
        };
        match answer {
            Ok(value) => Ok(value),
            Err(_) => Err(count_fault(&mut self.faults)),
        }
    }

    fn sync(&mut self, side: Which) -> Result<(), DeviceFault> {
        let answer = match side {
            Which::A => side_calls::sync(&mut self.folder, &mut self.a, &mut self.b, side),
            Which::B => side_calls::sync(&mut self.folder, &mut self.b, &mut self.a, side),
        };
        match answer {
            Ok(value) => Ok(value),
            Err(_) => Err(count_fault(&mut self.faults)),
        }
    }
}
