//! A folder that writes its calls down and keeps no contract.
use st_disk::{Folder, Which};
use std::alloc::{AllocError, Global};
use std::io;

/// Both files are there with a length, or both are missing.
#[derive(Drop)]
pub(crate) struct Twin {
    /// The calls that were made, each behind a space: its name and its side.
    pub(crate) log: String,
    len: Option<usize>,
}

impl Twin {
    pub(crate) fn new(alloc: Global, len: Option<usize>) -> Twin {
        Twin {
            log: String::new(alloc),
            len,
        }
    }

    fn write(&mut self, call: &str, side: Which) -> Result<(), AllocError> {
        self.log.push(' ')?;
        self.log.push_str(call)?;
        self.log.push(match side {
            Which::A => 'A',
            Which::B => 'B',
        })
    }

    fn note(&mut self, call: &str, side: Which) -> io::Result<()> {
        Ok(self.write(call, side)?)
    }
}

impl Folder for Twin {
    ghost use Rattle.std.specs.Prelude.{[], false, true};
    ghost use Rattle.st_disk.specs.Crash.{settled};

    type File = Which;

    ghost honest = { ⊥ };

    ghost held = { λ _ _. [] };

    ghost moments = { λ _. record { newest = 0; at = λ _. record { a = settled []; b = settled [] } } };

    ghost missing = { λ _ _. false };

    ghost durable = { λ _ _. true };

    ghost sound = { λ _ _. true };

    ghost side_of = { λ side. side };

    ghost missing_holds_none = { λ _ honest _ _. absurd honest };

    ghost lost = { λ _ honest _ _. absurd honest };

    ghost held_is_image = { λ _ honest _. absurd honest };

    fn find(&mut self, side: Which) -> io::Result<Option<Which>> {
        self.write("find", side)?;
        Ok(self.len.map(|_| side))
    }

    fn create(&mut self, side: Which) -> io::Result<Which> {
        self.write("create", side)?;
        Ok(side)
    }

    fn len(&mut self, file: &Which) -> io::Result<usize> {
        self.write("len", *file)?;
        Ok(self.len.unwrap_or(0))
    }

    fn read_at(&mut self, file: &Which, buf: &mut [u8], _at: usize) -> io::Result<usize> {
        self.write("read", *file)?;
        Ok(buf.len())
    }

    fn write_at(&mut self, file: &Which, bytes: &[u8], _at: usize) -> io::Result<usize> {
        self.write("write", *file)?;
        Ok(bytes.len())
    }

    fn set_len(&mut self, file: &Which, _len: usize) -> io::Result<()> {
        self.note("cut", *file)
    }

    fn sync(&mut self, file: &Which) -> io::Result<()> {
        self.note("sync", *file)
    }

    fn sync_name(&mut self, file: &Which) -> io::Result<()> {
        self.note("name", *file)
    }

    fn sync_missing(&mut self, side: Which) -> io::Result<()> {
        self.note("folder", side)
    }
}
