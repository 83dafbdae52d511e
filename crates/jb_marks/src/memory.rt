//! Files in memory, for tests.
ghost use Rattle.std.specs.Prelude.{◌≡◌, [], ◌∷◌, ◌++◌, OnOk};
ghost use Rattle.jb_marks.specs.Memory.{sight_in};
ghost use Rattle.jb_marks.specs.declared.sights.Sight.TheVariants as sights;

use crate::sights::{Sight, Sights};
use byte_strings::ByteString;
use std::alloc::{AllocError, Global};

/// What is told of one name.
#[derive(Drop)]
pub struct Placed {
    pub name: ByteString,
    pub sight: Sight,
}

/// A place that tells of each name what was last put under it, or that there is no file, and whose clock stands where it was set.
#[derive(Drop)]
pub struct MemorySights {
    pub placed: Vec<Placed>,
    pub tick: i128,
}

impl MemorySights {
    /// No files, and a clock that stands there.
    pub fn new(alloc: Global, tick: i128) -> MemorySights
        ensures placed { result.placed.items ≡ [] }
        ensures tick { result.tick ≡ tick }
    {
        MemorySights {
            placed: Vec::new(alloc),
            tick,
        }
    }

    /// From now on this is told of the name.
    pub fn put(&mut self, alloc: Global, name: &[u8], sight: Sight) -> Result<(), AllocError>
        ensures put { OnOk result (self.new.placed.items ≡ self.old.placed.items ++ record { name = name.now; sight = sight } ∷ []) }
        ensures tick { self.new.tick ≡ self.old.tick }
    {
        let name = ByteString::from_slice(alloc, name)?;
        self.placed.push(Placed { name, sight })?;
        Ok(())
    }
}

/// What was last put under a name, or else this.
fn sight_in(placed: &[Placed], name: &[u8]) -> Sight
    ensures { result ≡ sight_in sights.NoFile placed.now name.now }
{
    let mut sight = Sight::NoFile;
    for place in placed {
        if place.name.as_slice() == name {
            sight = place.sight;
        }
    }
    sight
}

impl Sights for MemorySights {
    ghost use Rattle.std.specs.Prelude.{◌≡◌};
    ghost use Rattle.jb_marks.specs.Memory.{sight_in};
    ghost use Rattle.jb_marks.specs.declared.sights.Sight.TheVariants.{NoFile};

    ghost told = { λ place name sight. sight ≡ sight_in NoFile place.placed.items name };

    ghost ticked = { λ place tick. tick ≡ place.tick };

    fn look(&self, name: &[u8]) -> Sight {
        sight_in(self.placed.as_slice(), name)
    }

    fn tick(&self) -> i128 {
        self.tick
    }
}
