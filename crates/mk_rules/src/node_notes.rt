//! What is noted of names while they are numbered, so that a hidden prerequisite is looked for once.
ghost use Rattle.std.specs.Prelude.{◌≡◌, ◌<◌, ◌⊎◌, ℕ, Bool, List, [], true, length, IfOk, IfSome, OnOk};
ghost use Rattle.mk_names.specs.Names.{name_at, added};
ghost use Rattle.mk_rules.specs.NodeNotes.{is_marked, AreKnownNodes};

use crate::distinct_numbers::DistinctNumbers;
use crate::followers::Followers;
use crate::marks::{is_marked, make_room};
use mk_names::{Names, with_room};
use std::alloc::{AllocError, Global};
use std::mem;

/// What is kept from the prerequisites of one name to those of the next.
pub(crate) struct NodeNotes {
    /// Of each number, whether its name was found to be a node as a hidden prerequisite.
    pub marks: Vec<bool>,
    /// The row of the name that was asked for last, whose room the next one takes.
    pub row: DistinctNumbers,
    pub followers: Followers,
    /// The target that the next name may be, since names are mostly asked for in the order of the rule lines.
    pub target: u32,
    /// Where the state may have the next name, since names are mostly asked for in its order.
    pub place: usize,
}

impl Drop for NodeNotes {
    fn drop(self) {
        let NodeNotes {
            marks: _,
            row: _,
            followers: _,
            target: _,
            place: _,
        } = self;
    }
}

impl NodeNotes {
    /// No notes, with room for those of so many names, where there is memory for it.
    pub fn with_room(alloc: Global, names: usize) -> NodeNotes
        ensures { result.marks.items ≡ [] }
    {
        NodeNotes {
            marks: with_room(alloc, names),
            row: DistinctNumbers::new(alloc),
            followers: Followers::with_room(alloc, names),
            target: 0,
            place: 0,
        }
    }

    /// Takes the row out.
    pub fn take_row(&mut self, alloc: Global) -> DistinctNumbers
        ensures row { result ≡ self.old.row }
        ensures marks { self.new.marks.items ≡ self.old.marks.items }
    {
        mem::replace(&mut self.row, DistinctNumbers::new(alloc))
    }

    /// Marks the name with this number.
    fn mark(&mut self, number: u32) -> Result<(), AllocError>
        ensures { OnOk result ((n : ℕ) → is_marked self.new.marks.items n ≡ true → (is_marked self.old.marks.items n ≡ true) ⊎ (n ≡ number)) }
    {
        make_room(&mut self.marks, number as usize)?;
        self.marks[number as usize] = true;
        Ok(())
    }

    /// The number that is guessed of a name, where it is known to be a node.
    #[inline(always)]
    pub fn guess(&mut self, names: &Names, name: &[u8]) -> Option<u32>
        ensures name { IfSome result (λ n. (n < length names.now) × (name_at names.now n ≡ name.now)) }
        ensures marked { IfSome result (λ n. is_marked self.old.marks.items n ≡ true) }
        ensures same { self.new.marks.items ≡ self.old.marks.items }
    {
        let number = self.followers.guess(names, name)?;
        if !is_marked(&self.marks, number as usize) {
            return None;
        }
        self.followers.pass(number);
        Some(number)
    }

    /// The number of a name that is known to be a node.
    pub fn number_of(&mut self, names: &Names, name: &[u8]) -> Result<Option<u32>, AllocError>
        ensures name { IfOk result (λ of. IfSome of (λ n. (n < length names.now) × (name_at names.now n ≡ name.now))) }
        ensures marked { IfOk result (λ of. IfSome of (λ n. is_marked self.old.marks.items n ≡ true)) }
        ensures same { self.new.marks.items ≡ self.old.marks.items }
    {
        let Some(number) = self.followers.number_of(names, name)? else {
            return Ok(None);
        };
        if !is_marked(&self.marks, number as usize) {
            return Ok(None);
        }
        Ok(Some(number))
    }

    /// The number of a name that was found to be a node.
    pub fn add(&mut self, alloc: Global, names: &mut Names, name: &[u8]) -> Result<u32, AllocError>
        ensures name { IfOk result (λ n. (names.new ≡ added names.old name.now) × (n < length names.new) × (name_at names.new n ≡ name.now)) }
        ensures known { OnOk result ((is_node : List ℕ → Bool) → is_node name.now ≡ true → AreKnownNodes is_node names.old self.old.marks.items
            → AreKnownNodes is_node names.new self.new.marks.items) }
    {
        let number = self.followers.numbered(alloc, names, name)?;
        self.mark(number)?;
        Ok(number)
    }
}
