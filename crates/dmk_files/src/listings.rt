//! The names that were read of folders.
ghost use Rattle.std.specs.Prelude.{◌≡◌, option_map, IfOk, OnOk, OnErr};
ghost use Rattle.dmk_files.specs.Listings.{known_names, Adds, KnowsTheSame};

use byte_strings::ByteStrings;
use indexmap::IndexMap;
use std::alloc::{AllocError, Global};

/// What was read of each folder so far.
pub struct Listings {
    known: IndexMap<Vec<u8>, Option<ByteStrings>>,
}

impl Drop for Listings {
    fn drop(self) {
        let Listings { known: _ } = self;
    }
}

/// A copy of the names in a folder.
pub fn copy_of(
    alloc: Global,
    names: &Option<ByteStrings>,
) -> Result<Option<ByteStrings>, AllocError>
    ensures { IfOk result (λ copy. copy ≡ names.now) }
{
    match names {
        Some(names) => Ok(Some(names.copy(alloc)?)),
        None => Ok(None),
    }
}

impl Listings {
    pub fn new(alloc: Global) -> Listings {
        Listings {
            known: IndexMap::new(alloc),
        }
    }

    /// What is known of a folder: nothing, that it can't be read, or its names.
    pub fn get(&self, folder: &[u8]) -> Option<&Option<ByteStrings>>
        ensures { option_map (λ found. found.now) result ≡ known_names self.now folder.now }
    {
        self.known.get(folder)
    }

    /// Takes in what was read of a folder.
    pub fn add(
        &mut self,
        alloc: Global,
        folder: &[u8],
        names: Option<ByteStrings>,
    ) -> Result<(), AllocError>
        ensures ok { OnOk result (Adds folder.now names self.old self.new) }
        ensures err { OnErr result (KnowsTheSame self.old self.new) }
    {
        self.known.insert(Vec::from_slice(alloc, folder)?, names)?;
        Ok(())
    }
}
