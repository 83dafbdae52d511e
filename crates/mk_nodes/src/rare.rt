//! What few nodes have, for which the others spend no memory.
//! An option for each part in each node took 144 bytes; a node with one box takes 40.
ghost use Rattle.std.specs.Prelude.{◌≡◌, true, option_map, IfOk};
ghost use Rattle.std.specs.Option.{option_copied};
ghost use Rattle.mk_nodes.specs.Rare.{no_parts, with_marks};

use crate::group::Group;
use byte_strings::{ByteString, ByteStrings};
use std::alloc::{AllocError, Global};
use std::boxed::Box;
use std::marker::Model;

/// What a node has of an implicit rule, of order-only prerequisites, and of hidden ones that are gone.
pub struct Rare {
    /// The stem, where an implicit rule makes it.
    pub stem: Option<ByteString>,
    /// How many of the hard prerequisites that rule gives: those that come first, of which the first is the source.
    pub implied: usize,
    /// What the recipe that makes it makes beside it, where it is that of an implicit rule and makes more.
    pub group: Option<Box<Group>>,
    /// What it can't be made without, by name: the hard prerequisites and the order-only ones; None where there are none of these.
    pub required: Option<Box<ByteStrings>>,
    /// Of each hidden prerequisite that isn't a hard one, whether it is a node; None where all are.
    pub marks: Option<Box<Vec<bool>>>,
}

impl Drop for Rare {
    fn drop(self) {
        let Rare {
            stem: _,
            implied: _,
            group: _,
            required: _,
            marks: _,
        } = self;
    }
}

/// The rare parts of a node, which most nodes haven't.
pub struct RareParts {
    kept: Option<Box<Rare>>,
}

impl Model for RareParts {
    ghost use Rattle.mk_nodes.specs.Rare.{parts_kept};
    ghost use Rattle.mk_nodes.specs.declared.rare.Rare.{Rare};

    ghost Value = { Rare };

    ghost view = { λ r. parts_kept r.kept };
}

impl Drop for RareParts {
    fn drop(self) {
        let RareParts { kept: _ } = self;
    }
}

/// Whether no part is there.
fn are_none(rare: &Rare) -> bool
    ensures { result ≡ true → rare.now ≡ no_parts }
{
    rare.stem.is_none()
        && rare.implied == 0
        && rare.group.is_none()
        && rare.required.is_none()
        && rare.marks.is_none()
}

/// These marks and no other part.
fn only_marks(marks: Option<Box<Vec<bool>>>) -> Rare
    ensures { result ≡ with_marks marks no_parts }
{
    Rare {
        stem: None,
        implied: 0,
        group: None,
        required: None,
        marks,
    }
}

impl RareParts {
    /// No part.
    pub fn none() -> RareParts
        ensures { result ≡ no_parts }
    {
        RareParts { kept: None }
    }

    pub fn of(alloc: Global, rare: Rare) -> Result<RareParts, AllocError>
        ensures { IfOk result (λ parts. parts ≡ rare) }
    {
        if are_none(&rare) {
            return Ok(RareParts { kept: None });
        }
        Ok(RareParts {
            kept: Some(Box::new(alloc, rare)?),
        })
    }

    /// These parts, with these marks of hidden prerequisites.
    pub fn with_marks(
        self,
        alloc: Global,
        marks: Option<Box<Vec<bool>>>,
    ) -> Result<RareParts, AllocError>
        ensures { IfOk result (λ parts. parts ≡ with_marks marks self) }
    {
        let RareParts { kept } = self;
        let Some(rare) = kept else {
            return RareParts::of(alloc, only_marks(marks));
        };
        let mut rare = rare;
        rare.marks = marks;
        Ok(RareParts { kept: Some(rare) })
    }

    pub fn stem(&self) -> Option<&ByteString>
        ensures { option_copied result ≡ self.now.stem }
    {
        match &self.kept {
            Some(rare) => rare.stem.as_ref(),
            None => None,
        }
    }

    pub fn implied(&self) -> usize
        ensures { result ≡ self.now.implied }
    {
        match &self.kept {
            Some(rare) => rare.implied,
            None => 0,
        }
    }

    pub fn group(&self) -> Option<&Group>
        ensures { option_copied result ≡ option_map (λ g. g.value) self.now.group }
    {
        match &self.kept {
            Some(rare) => rare.group.as_deref(),
            None => None,
        }
    }

    pub fn required(&self) -> Option<&ByteStrings>
        ensures { option_copied result ≡ option_map (λ names. names.value) self.now.required }
    {
        match &self.kept {
            Some(rare) => rare.required.as_deref(),
            None => None,
        }
    }

    pub fn marks(&self) -> Option<&[bool]>
        ensures { option_map (λ s. s.now) result ≡ option_map (λ m. m.value.items) self.now.marks }
    {
        match &self.kept {
            Some(rare) => match &rare.marks {
                Some(marks) => Some(marks.as_slice()),
                None => None,
            },
            None => None,
        }
    }
}
