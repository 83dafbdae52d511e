//! Numbers at their first mention.
ghost use Rattle.std.specs.Prelude.{◌≡◌, ◌++◌, ◌∷◌, [], not, length, IfOk, OnOk, if◌then◌else◌};
ghost use Rattle.mk_graph.specs.Edges.{has};

use crate::marks::{is_marked, make_room, unmark_all};
use std::alloc::{AllocError, Global};
use std::marker::Model;

/// Numbers, each once. Contracts see the list.
pub(crate) struct DistinctNumbers {
    list: Vec<u32>,
    /// Of each number, whether it is in the list.
    marks: Vec<bool>,
}

impl Model for DistinctNumbers {
    ghost use Rattle.std.specs.Prelude.{ℕ, List};
    ghost use Rattle.mk_rules.specs.DistinctNumbers.{AreMarksOf};

    ghost Value = { List ℕ };

    ghost view = { λ n. n.list.items };

    ghost invariant = { λ n. AreMarksOf n.marks.items n.list.items };
}

impl Drop for DistinctNumbers {
    fn drop(self) {
        let DistinctNumbers { list: _, marks: _ } = self;
    }
}

impl DistinctNumbers {
    /// No numbers, which takes no memory.
    pub fn new(alloc: Global) -> DistinctNumbers
        ensures { result ≡ [] }
    {
        DistinctNumbers {
            list: Vec::new(alloc),
            marks: Vec::new(alloc),
        }
    }

    /// How many numbers there are.
    pub fn len(&self) -> usize
        ensures { result ≡ length self.now }
    {
        self.list.len()
    }

    /// Takes all numbers out, and keeps the room that they had.
    pub fn clear(&mut self)
        ensures { self.new ≡ [] }
    {
        unmark_all(&mut self.marks, &self.list);
        self.list.clear();
    }

    pub fn as_slice(&self) -> &[u32]
        ensures { result.now ≡ self.now }
    {
        self.list.as_slice()
    }

    /// Whether a number is there.
    pub fn has(&self, number: u32) -> bool
        ensures { result ≡ has self.now number }
    {
        is_marked(&self.marks, number as usize)
    }

    /// Takes in that a number is mentioned, and tells whether it is new.
    #[inline(always)]
    pub fn mention(&mut self, number: u32) -> Result<bool, AllocError>
        ensures fresh { IfOk result (λ is_new. is_new ≡ not (has self.old number)) }
        ensures ok { OnOk result (self.new ≡ (if has self.old number then self.old else self.old ++ number ∷ [])) }
    {
        if self.has(number) {
            return Ok(false);
        }
        make_room(&mut self.marks, number as usize)?;
        if self.list.len() == self.list.capacity() {
            self.list.reserve(1)?;
        }
        self.list.push_reserved(number);
        self.marks[number as usize] = true;
        Ok(true)
    }
}
