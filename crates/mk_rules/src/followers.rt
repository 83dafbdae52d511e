//! Which name followed another one the last time, so that a list that comes again isn't looked up name by name.
//! As lists of headers do. Numbers in place of names, in rule lines and in the state, would spare the comparisons too, but every
//! crate between would speak of numbers.
ghost use Rattle.std.specs.Prelude.{◌≡◌, ◌<◌, length, IfOk, IfSome};
ghost use Rattle.std.specs.Str.{bytes_eq};
ghost use Rattle.mk_names.specs.Names.{name_at, added};

use mk_names::{Names, with_room};
use name_keys::NameRef;
use std::alloc::{AllocError, Global};

/// Most guesses are right, and most names are short.
fn are_same(a: &[u8], b: &[u8]) -> bool
    ensures { result ≡ bytes_eq a.now b.now }
{
    NameRef { bytes: a } == NameRef { bytes: b }
}

/// Guesses of names by the one before them. Each is compared with the name, so that a wrong one costs time alone.
pub(crate) struct Followers {
    /// Of each number, that of the name that followed it the last time, or any other.
    next: Vec<u32>,
    /// The number of the name before the next one, if there is one in its list.
    before: Option<u32>,
}

impl Drop for Followers {
    fn drop(self) {
        let Followers { next: _, before: _ } = self;
    }
}

impl Followers {
    /// No guesses, with room for those of so many names, where there is memory for it.
    pub fn with_room(alloc: Global, names: usize) -> Followers {
        Followers {
            next: with_room(alloc, names),
            before: None,
        }
    }

    /// Another list begins.
    pub fn start(&mut self) {
        self.before = None;
    }

    /// The number that followed the last time, where it is that of the name.
    #[inline(always)]
    #[tactic(auto, using(crate::proofs::RowLemmas::same_name))]
    pub fn guess(&self, names: &Names, name: &[u8]) -> Option<u32>
        ensures { IfSome result (λ n. (n < length names.now) × (name_at names.now n ≡ name.now)) }
    {
        let number = *self.next.get(self.before? as usize)?;
        if (number as usize) < names.len() && are_same(names.name(number as usize), name) {
            Some(number)
        } else {
            None
        }
    }

    /// Notes what follows this number.
    fn set_next(&mut self, before: usize, number: u32) -> Result<(), AllocError> {
        if before < self.next.len() {
            self.next[before] = number;
            return Ok(());
        }
        self.next.resize(before, number)?;
        self.next.push(number)?;
        Ok(())
    }

    /// The name of this number, which was guessed, comes next.
    pub fn pass(&mut self, number: u32) {
        self.before = Some(number);
    }

    /// Notes that the name of this number comes next.
    fn follow(&mut self, number: u32) -> Result<(), AllocError> {
        if let Some(before) = self.before {
            self.set_next(before as usize, number)?;
        }
        self.before = Some(number);
        Ok(())
    }

    /// The number of a name, if it has one.
    pub fn number_of(&mut self, names: &Names, name: &[u8]) -> Result<Option<u32>, AllocError>
        ensures { IfOk result (λ of. IfSome of (λ n. (n < length names.now) × (name_at names.now n ≡ name.now))) }
    {
        let Some(number) = names.number_of(name) else {
            return Ok(None);
        };
        self.follow(number)?;
        Ok(Some(number))
    }

    /// The number of a name, which is given the next one where it has none.
    #[inline(always)]
    #[tactic(auto, using(crate::proofs::RowLemmas::added_known))]
    pub fn numbered(
        &mut self,
        alloc: Global,
        names: &mut Names,
        name: &[u8],
    ) -> Result<u32, AllocError>
        ensures { IfOk result (λ n. (names.new ≡ added names.old name.now) × (n < length names.new) × (name_at names.new n ≡ name.now)) }
    {
        if let Some(number) = self.guess(names, name) {
            self.pass(number);
            return Ok(number);
        }
        let number = names.numbered(alloc, name)?;
        self.follow(number)?;
        Ok(number)
    }
}
