//! Names that are found by their hash.
ghost use Rattle.std.specs.Prelude.{◌≡◌, [], ◌∷◌, ◌++◌, OnOk, if◌then◌else◌};
ghost use Rattle.mk_recipe.specs.Report.{has};
ghost use Rattle.mk_recipe.specs.Reading.{added};

use indexmap::IndexSet;
use st_records::HashKey;
use std::alloc::{AllocError, Global};
use std::marker::Model;

/// Names, each once. Contracts see the list of them in the order in which they were added.
pub struct NameSet {
    set: IndexSet<Vec<u8>, HashKey>,
}

impl Model for NameSet {
    ghost use Rattle.std.specs.Prelude.{ℕ, List, map};

    ghost Value = { List (List ℕ) };

    ghost view = { λ n. map (λ k. k.items) n.set.keys };
}

impl Drop for NameSet {
    fn drop(self) {
        let NameSet { set: _ } = self;
    }
}

impl NameSet {
    pub fn new(alloc: Global, key: HashKey) -> NameSet
        ensures { result ≡ [] }
    {
        NameSet {
            set: IndexSet::with_hasher(alloc, key),
        }
    }

    pub fn contains(&self, name: &[u8]) -> bool
        ensures { result ≡ has name.now self.now }
    {
        self.set.contains(name)
    }

    pub fn add(&mut self, alloc: Global, name: &[u8]) -> Result<(), AllocError>
        ensures { OnOk result (self.new ≡ added self.old name.now) }
    {
        self.set.insert(Vec::from_slice(alloc, name)?)?;
        Ok(())
    }
}
