//! What a look at a name tells of its file, kept in little memory.
ghost use Rattle.std.specs.Prelude.{◌≡◌, Some, is_some, IfOk};
ghost use Rattle.mk_nodes.specs.Look.{time_of};
ghost use Rattle.mk_nodes.specs.Stamp.{look_kept};

use crate::file_look::FileLook;
use std::alloc::{AllocError, Global};
use std::boxed::Box;
use std::marker::Model;

/// A look: where its time is one from 1677 to 2262, it takes no memory of its own.
#[derive(Drop)]
pub(crate) enum Kept {
    Nothing,
    /// The time of what is no ordinary file.
    Near(i64),
    /// The size of an ordinary file, in front of its time, so that both take no more than a time alone.
    NearFile(u32, i64),
    Far(Box<FileLook>),
}

/// What a look at a name tells; nothing where there is no file.
pub struct Stamp {
    kept: Kept,
}

impl Model for Stamp {
    ghost use Rattle.std.specs.Prelude.{Option};
    ghost use Rattle.mk_nodes.specs.Stamp.{look_kept};
    ghost use Rattle.mk_nodes.specs.declared.file_look.FileLook.{FileLook};

    ghost Value = { Option FileLook };

    ghost view = { λ s. look_kept s.kept };
}

impl Drop for Stamp {
    fn drop(self) {
        let Stamp { kept: _ } = self;
    }
}

/// The look at a file with this time and size.
fn near(time: i64, size: Option<u32>) -> Kept
    ensures { look_kept result ≡ Some (record { time = time; size = size }) }
{
    match size {
        Some(size) => Kept::NearFile(size, time),
        None => Kept::Near(time),
    }
}

impl Stamp {
    /// This look.
    pub fn of(alloc: Global, look: Option<FileLook>) -> Result<Stamp, AllocError>
        ensures { IfOk result (λ stamp. stamp ≡ look) }
    {
        let Some(look) = look else {
            return Ok(Stamp {
                kept: Kept::Nothing,
            });
        };
        match i64::try_from(look.time) {
            Ok(time) => Ok(Stamp {
                kept: near(time, look.size),
            }),
            Err(_) => Ok(Stamp {
                kept: Kept::Far(Box::new(alloc, look)?),
            }),
        }
    }

    pub fn look(&self) -> Option<FileLook>
        ensures { result ≡ self.now }
    {
        match &self.kept {
            Kept::Nothing => None,
            Kept::Near(time) => Some(FileLook {
                time: i128::from(*time),
                size: None,
            }),
            Kept::NearFile(size, time) => Some(FileLook {
                time: i128::from(*time),
                size: Some(*size),
            }),
            Kept::Far(look) => Some(**look),
        }
    }

    /// When the file was last changed, in nanoseconds since 1970.
    pub fn time(&self) -> Option<i128>
        ensures { result ≡ time_of self.now }
    {
        match &self.kept {
            Kept::Nothing => None,
            Kept::Near(time) | Kept::NearFile(_, time) => Some(i128::from(*time)),
            Kept::Far(look) => Some(look.time),
        }
    }

    /// Whether there is a file.
    pub fn is_some(&self) -> bool
        ensures { result ≡ is_some self.now }
    {
        match &self.kept {
            Kept::Nothing => false,
            Kept::Near(_) | Kept::NearFile(_, _) | Kept::Far(_) => true,
        }
    }
}
