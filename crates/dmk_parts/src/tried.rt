//! Names that parts of a run tried, for which none behind them runs a recipe again.
ghost use Rattle.std.specs.Prelude.{◌≡◌, ◌↔◌, ◌++◌, [], Ok, IsTrue, IfOk, OnOk};
ghost use Rattle.dmk_parts.specs.Behind.{none_tried};
ghost use Rattle.dmk_parts.specs.Tried.{AddsSome, AddsBoth, AddsTried};

use crate::left::Left;
use crate::made::{Made, add_built};
use byte_strings::ByteStrings;
use dmk_store::Stop;
use mk_rules::Tree;
use std::alloc::{AllocError, Global};

/// Names that parts of a run tried.
#[derive(Drop)]
pub struct Tried {
    /// They were built, and have no file.
    pub built: ByteStrings,
    /// They were built, and have one.
    pub filed: ByteStrings,
    /// Their recipes failed.
    pub failed: ByteStrings,
}

/// Adds names at the end.
fn add_all(names: &mut ByteStrings, more: &ByteStrings) -> Result<(), AllocError>
    ensures { OnOk result (names.new ≡ names.old ++ more.now) }
{
    for name in more {
        names.push(name)?;
    }
    Ok(())
}

impl Tried {
    pub fn nothing(alloc: Global) -> Tried
        ensures { result ≡ none_tried }
    {
        Tried {
            built: ByteStrings::empty(alloc),
            filed: ByteStrings::empty(alloc),
            failed: ByteStrings::empty(alloc),
        }
    }

    pub fn is_nothing(&self) -> bool
        ensures { IsTrue result ↔ (self.now ≡ none_tried) }
    {
        self.built.is_empty() && self.filed.is_empty() && self.failed.is_empty()
    }

    pub(crate) fn copy(&self, alloc: Global) -> Result<Tried, AllocError>
        ensures { IfOk result (λ tried. tried ≡ self.now) }
    {
        let built = self.built.copy(alloc)?;
        let filed = self.filed.copy(alloc)?;
        let failed = self.failed.copy(alloc)?;
        Ok(Tried {
            built,
            filed,
            failed,
        })
    }

    /// Adds what a part built and, by new looks, whether it has a file, and what failed in it.
    fn add<T: Tree>(
        &mut self,
        alloc: Global,
        tree: &mut T,
        made: &[Made],
        filed: &ByteStrings,
        failed: &ByteStrings,
    ) -> Result<(), AllocError>
        ensures built { AddsSome made.now self.old.built self.new.built }
        ensures filed { OnOk result (AddsBoth made.now filed.now self.old.filed self.new.filed) }
        ensures failed { OnOk result (self.new.failed ≡ self.old.failed ++ failed.now) }
    {
        add_built(alloc, tree, made, &mut self.built, &mut self.filed)?;
        add_all(&mut self.filed, filed)?;
        add_all(&mut self.failed, failed)
    }

    /// So, of what a part leaves that came to this; or there is no memory for that.
    pub fn add_behind<T: Tree>(
        &mut self,
        alloc: Global,
        tree: &mut T,
        left: &Left,
        found: Result<u8, Stop>,
    ) -> Result<u8, Stop>
        ensures found { IfOk result (λ s. found ≡ Ok s) }
        ensures adds { IfOk result (λ s. AddsTried left.now self.old self.new) }
    {
        match self.add(alloc, tree, &left.made, &left.filed, &left.failed) {
            Ok(()) => found,
            Err(error) => {
                drop(found);
                Err(Stop::from(error))
            }
        }
    }
}
