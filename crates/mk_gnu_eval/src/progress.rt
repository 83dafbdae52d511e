//! What was read so far.
ghost use Rattle.std.specs.Prelude.{◌≡◌, OnOk};
ghost use Rattle.mk_gnu_eval.specs.Reading.{with_item};
ghost use Rattle.mk_gnu_eval.specs.Shown.{said_by, progress_of};

use crate::item::{Item, Said};
use crate::site::Site;
use mk_variables::Table;
use std::alloc::{AllocError, Global};

/// The variables behind the lines that were read, and what these say.
#[derive(Drop)]
pub struct Progress {
    pub table: Table,
    pub items: Vec<Item>,
}

impl Progress {
    /// Adds what a line says.
    pub(crate) fn add(
        &mut self,
        alloc: Global,
        site: &Site<'_>,
        said: Said,
    ) -> Result<(), AllocError>
        ensures { OnOk result (progress_of self.new ≡ with_item site.now.file.now site.now.line (said_by said) (progress_of self.old)) }
    {
        let file = Vec::from_slice(alloc, site.file)?;
        self.items.push(Item {
            file,
            line: site.line,
            said,
        })?;
        Ok(())
    }
}
