//! The texts that were read of files.
ghost use Rattle.std.specs.Prelude.{◌≡◌, option_map, OnOk, OnErr};
ghost use Rattle.dmk_files.specs.Files.{known_text, Adds, KnowsTheSame};

use indexmap::IndexMap;
use std::alloc::{AllocError, Global};
use std::rc::Rc;

/// What was read of each name so far.
pub struct Texts {
    known: IndexMap<Vec<u8>, Option<Rc<Vec<u8>>>>,
}

impl Drop for Texts {
    fn drop(self) {
        let Texts { known: _ } = self;
    }
}

impl Texts {
    pub fn new(alloc: Global) -> Texts {
        Texts {
            known: IndexMap::new(alloc),
        }
    }

    /// What is known of a name: nothing, that its file can't be read, or its text.
    pub fn get(&self, name: &[u8]) -> Option<&Option<Rc<Vec<u8>>>>
        ensures { option_map (λ found. option_map (λ text. text.value.items) found.now) result ≡ known_text self.now name.now }
    {
        self.known.get(name)
    }

    /// Takes in what was read of a name.
    pub fn add(
        &mut self,
        alloc: Global,
        name: &[u8],
        text: Option<Rc<Vec<u8>>>,
    ) -> Result<(), AllocError>
        ensures ok { OnOk result (Adds name.now (option_map (λ text. text.value.items) text) self.old self.new) }
        ensures err { OnErr result (KnowsTheSame self.old self.new) }
    {
        self.known.insert(Vec::from_slice(alloc, name)?, text)?;
        Ok(())
    }
}
