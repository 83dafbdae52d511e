//! Where looks at files come from.
ghost use Rattle.std.specs.Prelude.{◌≡◌, ◌≤◌, ◌⊎◌, ℕ, List, Option, IfOk, IfErr, OnOk};
ghost use Rattle.std.specs.Str.{bytes_eq};

use mk_nodes::FileLook;
use std::alloc::{AllocError, Global};
use thiserror::Error;

/// Why a name has no answer.
#[derive(Debug, Drop, Error)]
pub enum TreeFault {
    #[error("out of memory")]
    OutOfMemory,
    /// Whether there is a file of that name can't be told.
    #[error("cannot look")]
    CannotLook,
}

/// What looks tell of the files that a makefile's names stand for.
pub trait Tree {
    ghost use Rattle.mk_sources.specs.Tree.{IsTreeFault, AskedOnce, LooksOnce};
    ghost use Rattle.mk_nodes.specs.declared.file_look.FileLook.{FileLook};

    /// Which looks, one at each name, agree with all that was answered so far.
    ghost allows: { Self → (List ℕ → Option FileLook) → Type 0 };

    /// That it can't be told whether the name has a file. Of the files of a disk this stays open.
    ghost refuses: { Self → List ℕ → Type 0 };

    /// How often it looked at each name. A tree that doesn't count its looks leaves it out.
    ghost asked: { Self → List ℕ → ℕ } = { λ _ _. 0 };

    /// Which names `first_stamp` was asked for since looks began. A tree to which it's all the same leaves it out.
    ghost firsts: { Self → List ℕ → Type 0 } = { λ _ _. ⊥ };

    /// What a look at this name tells: when its file was last changed, and of an ordinary one its size; `None` where there is no
    /// file. Links are followed. A name that no file can have has none. An answer narrows what is still possible and never widens
    /// it, so a name has one look. Who asks keeps no answers: a name that was looked at isn't looked at again.
    fn stamp(&mut self, alloc: Global, name: &[u8]) -> Result<Option<FileLook>, TreeFault>
        ensures stamp { IfOk result (λ answer. (looks : List ℕ → Option FileLook) → allows self.new looks → answer ≡ looks name.now) }
        ensures grows { (looks : List ℕ → Option FileLook) → allows self.new looks → allows self.old looks }
        ensures refused { IfErr result (IsTreeFault (refuses self.new name.now)) }
        ensures kept { (n : List ℕ) → refuses self.old n → refuses self.new n }
        ensures asked { AskedOnce (asked self.old) (λ other. bytes_eq other name.now) (asked self.new) }
        ensures once { LooksOnce (asked self.old) (asked self.new) }
        ensures firsts { (n : List ℕ) → firsts self.new n → firsts self.old n };

    /// The same, once a name at most since looks began: the tree may take it that the name is new.
    fn first_stamp(&mut self, alloc: Global, name: &[u8]) -> Result<Option<FileLook>, TreeFault>
        requires { ¬ (firsts self.old name.now) }
        ensures stamp { IfOk result (λ answer. (looks : List ℕ → Option FileLook) → allows self.new looks → answer ≡ looks name.now) }
        ensures grows { (looks : List ℕ → Option FileLook) → allows self.new looks → allows self.old looks }
        ensures refused { IfErr result (IsTreeFault (refuses self.new name.now)) }
        ensures kept { (n : List ℕ) → refuses self.old n → refuses self.new n }
        ensures asked { AskedOnce (asked self.old) (λ other. bytes_eq other name.now) (asked self.new) }
        ensures once { LooksOnce (asked self.old) (asked self.new) }
        ensures firsts { (n : List ℕ) → firsts self.new n → (firsts self.old n) ⊎ (n ≡ name.now) };

    /// Begins looks anew: each name may be asked for first once more. What was answered so far holds on. So many names may be
    /// expected, of which nothing is promised.
    fn begin(&mut self, alloc: Global, expected: usize) -> Result<(), AllocError>
        ensures none { OnOk result ((n : List ℕ) → ¬ (firsts self.new n)) }
        ensures grows { (looks : List ℕ → Option FileLook) → allows self.new looks → allows self.old looks }
        ensures kept { (n : List ℕ) → refuses self.old n → refuses self.new n }
        ensures asked { (n : List ℕ) → asked self.new n ≤ asked self.old n };

    // Something is always possible.
    ghost possible: { (tree : Self) → (looks : List ℕ → Option FileLook) × allows tree looks };
}
