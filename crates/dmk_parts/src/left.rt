//! What a part of a run leaves to those behind it.
ghost use Rattle.std.specs.Prelude.{◌≡◌};
ghost use Rattle.dmk_parts.specs.Behind.{none_tried};
ghost use Rattle.dmk_parts.specs.Tried.{tried_in};

use crate::made::Made;
use byte_strings::{ByteString, ByteStrings};
use std::alloc::Global;

/// A target that was judged up to date, by this time of its file.
pub struct Standing {
    pub name: ByteString,
    pub time: i128,
    /// It can be made again. A file without a recipe can't.
    pub has_recipe: bool,
}

impl Drop for Standing {
    fn drop(self) {
        let Standing {
            name: _,
            time: _,
            has_recipe: _,
        } = self;
    }
}

/// What a part of a run leaves to those behind it, beside the state's disk.
#[derive(Drop)]
pub struct Left {
    /// What was judged up to date where a recipe was run.
    pub standing: Vec<Standing>,
    /// What was built and had no file; none where nothing comes behind.
    pub made: Vec<Made>,
    /// The names of what was built and had one; none likewise.
    pub filed: ByteStrings,
    /// The names of what failed.
    pub failed: ByteStrings,
}

impl Left {
    pub fn nothing(alloc: Global) -> Left
        ensures { tried_in result ≡ none_tried }
    {
        Left {
            standing: Vec::new(alloc),
            made: Vec::new(alloc),
            filed: ByteStrings::empty(alloc),
            failed: ByteStrings::empty(alloc),
        }
    }

    pub fn into_standing(self) -> Vec<Standing> {
        let Left { standing, .. } = self;
        standing
    }
}
