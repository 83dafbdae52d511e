//! A look at a name in a tree.
ghost use Rattle.std.specs.Prelude.{◌≡◌, ℕ, List, Option, IfOk, IfErr};
ghost use Rattle.mk_sources.specs.Looks.{IsLookFault, Looks, and_this};
ghost use Rattle.mk_nodes.specs.declared.file_look.FileLook.{FileLook};

use crate::tree::{Tree, TreeFault};
use byte_strings::ByteString;
use mk_nodes::FileLook;
use mk_rule_lines::RuleFault;
use std::alloc::Global;

/// What a look at this name tells.
pub(crate) fn stamp_of<T: Tree>(
    alloc: Global,
    tree: &mut T,
    name: &[u8],
) -> Result<Option<FileLook>, RuleFault>
    ensures stamp { IfOk result (λ stamp. (looks : List ℕ → Option FileLook) → T.allows tree.new looks → stamp ≡ looks name.now) }
    ensures looks { Looks (T.allows tree.old) (T.allows tree.new) (T.refuses tree.old) (T.refuses tree.new) (T.asked tree.old) (T.asked tree.new) (T.firsts tree.old) (T.firsts tree.new) }
    ensures fault { IfErr result (IsLookFault (T.refuses tree.new) name.now) }
{
    match tree.stamp(alloc, name) {
        Ok(stamp) => Ok(stamp),
        Err(TreeFault::OutOfMemory) => Err(RuleFault::OutOfMemory),
        Err(TreeFault::CannotLook) => Err(RuleFault::Tree(ByteString::from_slice(alloc, name)?)),
    }
}

/// The same of a name that the tree wasn't asked for first.
pub(crate) fn first_stamp_of<T: Tree>(
    alloc: Global,
    tree: &mut T,
    name: &[u8],
) -> Result<Option<FileLook>, RuleFault>
    requires { ¬ (T.firsts tree.old name.now) }
    ensures stamp { IfOk result (λ stamp. (looks : List ℕ → Option FileLook) → T.allows tree.new looks → stamp ≡ looks name.now) }
    ensures looks { Looks (T.allows tree.old) (T.allows tree.new) (T.refuses tree.old) (T.refuses tree.new) (T.asked tree.old) (T.asked tree.new) (and_this name.now (T.firsts tree.old)) (T.firsts tree.new) }
    ensures fault { IfErr result (IsLookFault (T.refuses tree.new) name.now) }
{
    match tree.first_stamp(alloc, name) {
        Ok(look) => Ok(look),
        Err(TreeFault::OutOfMemory) => Err(RuleFault::OutOfMemory),
        Err(TreeFault::CannotLook) => Err(RuleFault::Tree(ByteString::from_slice(alloc, name)?)),
    }
}
