//! What a look at a name tells of its file.
ghost use Rattle.std.specs.Prelude.{◌≡◌, ◌++◌, ◌∷◌, [], Some, true, OnOk};
ghost use Rattle.mk_nodes.specs.Look.{is_taken_as_old};

use std::alloc::{AllocError, Global};
use std::marker::Model;

/// A file as a look at its name tells it, links followed.
#[derive(Clone, Copy)]
pub struct FileLook {
    /// When it was last changed, in nanoseconds since 1970.
    pub time: i128,
    /// Of an ordinary file the number of its bytes, modulo 2^32; None of a folder or a device.
    pub size: Option<u32>,
}

/// The time of what is taken as old, which no file has: nothing was made earlier.
pub const OLD_TIME: i128 = i128::MIN;

impl FileLook {
    /// What a look tells of a file that is taken as old, whatever lies there.
    pub fn taken_as_old() -> FileLook
        ensures { is_taken_as_old (Some result) ≡ true }
    {
        FileLook {
            time: OLD_TIME,
            size: Some(0),
        }
    }
}

/// Whether a look tells of a file that is taken as old.
pub fn is_taken_as_old(look: Option<FileLook>) -> bool
    ensures { result ≡ is_taken_as_old look }
{
    match look {
        Some(file) => file.size.is_some() && file.time == OLD_TIME,
        None => false,
    }
}

/// What looks at some names tell, in the order of the names: None where there is no file.
pub struct FileLooks {
    looks: Vec<Option<FileLook>>,
}

impl Model for FileLooks {
    ghost use Rattle.std.specs.Prelude.{List, Option};
    ghost use Rattle.mk_nodes.specs.declared.file_look.FileLook.{FileLook};

    ghost Value = { List (Option FileLook) };

    ghost view = { λ l. l.looks.items };
}

impl Drop for FileLooks {
    fn drop(self) {
        let FileLooks { looks: _ } = self;
    }
}

impl FileLooks {
    pub fn none(alloc: Global) -> FileLooks
        ensures { result ≡ [] }
    {
        FileLooks {
            looks: Vec::new(alloc),
        }
    }

    pub fn push(&mut self, look: Option<FileLook>) -> Result<(), AllocError>
        ensures { OnOk result (self.new ≡ self.old ++ look ∷ []) }
    {
        self.looks.push(look)?;
        Ok(())
    }

    pub fn as_slice(&self) -> &[Option<FileLook>]
        ensures { result.now ≡ self.now }
    {
        self.looks.as_slice()
    }
}
