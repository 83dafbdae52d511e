//! What counts of files though it isn't so.
use byte_strings::ByteStrings;
use dmk_reading::Options;
use std::alloc::{AllocError, Global};

/// Files by their names without `./` in front. One that is both counts as changed.
#[derive(Drop)]
pub(crate) struct Assumed {
    /// Those that count as changed later than all others.
    touched: ByteStrings,
    /// Those that are taken as old, whether they are there or not.
    old: ByteStrings,
}

fn has(names: &ByteStrings, name: &str) -> bool {
    names.iter().any(|it| it == name.as_bytes())
}

impl Assumed {
    pub(crate) fn of(alloc: Global, options: &Options) -> Result<Assumed, AllocError> {
        Ok(Assumed {
            touched: options.touched.copy(alloc)?,
            old: options.makefiles.old.copy(alloc)?,
        })
    }

    pub(crate) fn nothing(alloc: Global) -> Assumed {
        Assumed {
            touched: ByteStrings::empty(alloc),
            old: ByteStrings::empty(alloc),
        }
    }

    pub(crate) fn is_touched(&self, name: &str) -> bool {
        has(&self.touched, name)
    }

    pub(crate) fn is_old(&self, name: &str) -> bool {
        has(&self.old, name) && !self.is_touched(name)
    }
}
