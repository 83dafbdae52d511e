//! Names at their first mention, of which there are mostly few.
ghost use Rattle.std.specs.Prelude.{◌≡◌, ◌++◌, ◌∷◌, ◌⊎◌, [], false, not, length, IfOk, OnOk, OnErr};
ghost use Rattle.mk_names.specs.Names.{has_name, added};
ghost use Rattle.mk_sources.specs.DistinctNames.{HaveTheSame};

use byte_strings::ByteStrings;
use mk_names::Names;
use std::alloc::{AllocError, Global};
use std::marker::Model;
use std::mem;

/// So many are compared one by one, which takes no memory beside their list; of more, a set tells which are there.
const FEW: usize = 64;

/// Names, each once. Contracts see the list.
pub struct DistinctNames {
    list: ByteStrings,
    /// None, or all that are in the list.
    set: Names,
}

impl Model for DistinctNames {
    ghost use Rattle.std.specs.Prelude.{ℕ, List};
    ghost use Rattle.mk_sources.specs.DistinctNames.{IsSetOf};

    ghost Value = { List (List ℕ) };

    ghost view = { λ n. n.list };

    ghost invariant = { λ n. IsSetOf n.set n.list };
}

impl Drop for DistinctNames {
    fn drop(self) {
        let DistinctNames { list: _, set: _ } = self;
    }
}

/// A set of the names of a list.
fn set_of(alloc: Global, list: &ByteStrings) -> Result<Names, AllocError>
    ensures { IfOk result (λ set. HaveTheSame set list.now) }
{
    let mut set = Names::new(alloc);
    for name in list.iter() {
        let _is_new = set.mention(alloc, name)?;
    }
    Ok(set)
}

impl DistinctNames {
    /// No names, which takes no memory.
    pub fn new(alloc: Global) -> DistinctNames
        ensures { result ≡ [] }
    {
        DistinctNames {
            list: ByteStrings::empty(alloc),
            set: Names::new(alloc),
        }
    }

    /// How many names there are.
    pub fn len(&self) -> usize
        ensures { result ≡ length self.now }
    {
        self.list.len()
    }

    pub fn into_list(self) -> ByteStrings
        ensures { result ≡ self }
    {
        let DistinctNames { list, set: _ } = self;
        list
    }

    /// Whether a name is there.
    fn has(&self, name: &[u8]) -> bool
        ensures { result ≡ has_name self.now name.now }
    {
        if self.set.len() > 0 {
            return self.set.number_of(name).is_some();
        }
        self.list.iter().any(|other| name == other)
    }

    /// Adds a name that isn't there.
    fn push(&mut self, alloc: Global, name: &[u8]) -> Result<(), AllocError>
        requires { has_name self.old name.now ≡ false }
        ensures { OnOk result (self.new ≡ self.old ++ name.now ∷ []) }
    {
        if self.set.len() == 0 {
            self.list.push(name)?;
            if self.list.len() > FEW {
                self.set = set_of(alloc, &self.list)?;
            }
            return Ok(());
        }
        // Without memory the set is left without names.
        let mut set = mem::replace(&mut self.set, Names::new(alloc));
        let _is_new = set.mention(alloc, name)?;
        self.list.push(name)?;
        self.set = set;
        Ok(())
    }

    /// Takes in that a name is mentioned, and tells whether it is new.
    pub fn mention(&mut self, alloc: Global, name: &[u8]) -> Result<bool, AllocError>
        ensures fresh { IfOk result (λ is_new. is_new ≡ not (has_name self.old name.now)) }
        ensures ok { OnOk result (self.new ≡ added self.old name.now) }
    {
        if self.has(name) {
            return Ok(false);
        }
        self.push(alloc, name)?;
        Ok(true)
    }
}
