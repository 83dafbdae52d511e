//! What was told of a file, kept in little memory.
ghost use Rattle.std.specs.Prelude.{◌≡◌, None, Some, IfOk};
ghost use Rattle.dmk_files.specs.Told.{told_kept};

use mk_nodes::FileLook;
use std::alloc::{AllocError, Global};
use std::boxed::Box;
use std::marker::Model;

/// As `mk_nodes::Stamp` keeps a look, with one case more: an option of a stamp would take 8 bytes more for it.
#[derive(Drop)]
pub(crate) enum Kept {
    Untold,
    NoFile,
    Near(i64),
    NearFile(u32, i64),
    Far(Box<FileLook>),
}

/// What was told of a file: nothing so far, that there is none, or what a look at it told.
pub struct Told {
    kept: Kept,
}

impl Model for Told {
    ghost use Rattle.std.specs.Prelude.{Option};
    ghost use Rattle.dmk_files.specs.Told.{told_kept};
    ghost use Rattle.mk_nodes.specs.declared.file_look.FileLook.{FileLook};

    ghost Value = { Option (Option FileLook) };

    ghost view = { λ t. told_kept t.kept };
}

impl Drop for Told {
    fn drop(self) {
        let Told { kept: _ } = self;
    }
}

/// The look at a file with this time and size.
fn near(time: i64, size: Option<u32>) -> Kept
    ensures { told_kept result ≡ Some (Some (record { time = time; size = size })) }
{
    match size {
        Some(size) => Kept::NearFile(size, time),
        None => Kept::Near(time),
    }
}

impl Told {
    /// Nothing so far.
    pub fn nothing() -> Told
        ensures { result ≡ None }
    {
        Told { kept: Kept::Untold }
    }

    /// This look, or that there is no file.
    pub fn of(alloc: Global, look: Option<FileLook>) -> Result<Told, AllocError>
        ensures { IfOk result (λ told. told ≡ Some look) }
    {
        let kept = match look {
            None => Kept::NoFile,
            Some(look) => match i64::try_from(look.time) {
                Ok(time) => near(time, look.size),
                Err(_) => Kept::Far(Box::new(alloc, look)?),
            },
        };
        Ok(Told { kept })
    }

    pub fn get(&self) -> Option<Option<FileLook>>
        ensures { result ≡ self.now }
    {
        match &self.kept {
            Kept::Untold => None,
            Kept::NoFile => Some(None),
            Kept::Near(time) => Some(Some(FileLook {
                time: i128::from(*time),
                size: None,
            })),
            Kept::NearFile(size, time) => Some(Some(FileLook {
                time: i128::from(*time),
                size: Some(*size),
            })),
            Kept::Far(look) => Some(Some(**look)),
        }
    }
}
