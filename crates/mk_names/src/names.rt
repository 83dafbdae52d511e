//! Names by number, in the order in which they were first mentioned.
//! `IndexSet` wants a copy of a name to insert it, and hashes by several calls. The hash is made once for a look-up and the push
//! behind it, and lies beside the place before it, so that a step of a search reads one line of memory.

ghost use Rattle.std.specs.Prelude.{◌≡◌, ℕ, ◌<◌, ◌≤◌, List, [], ◌∷◌, ◌++◌, length, map, nat_lt, true, false, not, is_some, IfOk, IfSome, OnOk, OnErr, MatchOption};
ghost use Rattle.std.specs.List.{list_all};
ghost use Rattle.std.specs.Str.{bytes_eq};
ghost use Rattle.mk_names.specs.Hashing.{hash_of};
ghost use Rattle.mk_names.specs.Names.{name_at, has_name, added, all_added};

use crate::chains::{Link, bucket_of, buckets_for, make_room, put_last};
use crate::hashing::hash_of;
use crate::room;
use crate::texts::Texts;
use byte_strings::ByteStrings;
use name_keys::{NameEnds, NameRef};
use std::alloc::{AllocError, Global};
use std::marker::Model;

/// Names, each with a number: the place of its first mention. Their bytes lie one behind the other, and a name is found
/// by its hash.
pub struct Names {
    names: Texts,
    links: Vec<Link>,
    heads: Vec<u32>,
    /// How the names begin and end.
    ends: NameEnds,
}

impl Model for Names {
    ghost use Rattle.std.specs.Prelude.{ℕ, List};
    ghost use Rattle.mk_names.specs.Ends.{AreEndsOf};
    ghost use Rattle.mk_names.specs.Links.{AreFoundBy};

    ghost Value = { List (List ℕ) };

    ghost view = { λ n. n.names };

    ghost invariant = { λ n. AreFoundBy n.names n.links.items n.heads.items × AreEndsOf n.ends n.names };
}

impl Drop for Names {
    fn drop(self) {
        let Names {
            names: _,
            links: _,
            heads: _,
            ends: _,
        } = self;
    }
}

impl Names {
    /// No names, which takes no memory.
    pub fn new(alloc: Global) -> Names
        ensures { result ≡ [] }
    {
        Names {
            names: Texts::empty(alloc),
            links: Vec::new(alloc),
            heads: Vec::new(alloc),
            ends: NameEnds::none(),
        }
    }

    /// No names, with room for as many of so many bytes in all, where there is memory for it.
    pub fn with_room(alloc: Global, names: usize, bytes: usize) -> Names
        ensures { result ≡ [] }
    {
        Names {
            names: Texts::with_room(alloc, names, bytes),
            links: room::with_room(alloc, names),
            heads: buckets_for(alloc, names),
            ends: NameEnds::none(),
        }
    }

    /// How many names there are.
    pub fn len(&self) -> usize
        ensures { result ≡ length self.now }
    {
        self.names.len()
    }

    /// The name with a number.
    #[inline(always)]
    pub fn name(&self, number: usize) -> &[u8]
        requires { number < length self.now }
        ensures { result.now ≡ name_at self.now number }
    {
        self.names.text(number)
    }

    /// Whether a number is that of the name.
    fn is_of(&self, number: usize, name: &[u8]) -> bool
        requires { number < length self.now }
        ensures { result ≡ bytes_eq name.now (name_at self.now number) }
    {
        let named = NameRef {
            bytes: self.name(number),
        };
        NameRef { bytes: name } == named
    }

    /// Whether a number is that of a name with this hash.
    fn is_at(&self, number: usize, name: &[u8], hash: u32) -> bool
        requires number { number < length self.now }
        requires hash { hash ≡ hash_of name.now }
        ensures { result ≡ bytes_eq name.now (name_at self.now number) }
    {
        if self.links[number].hash != hash {
            return false;
        }
        self.is_of(number, name)
    }

    /// The number of a name with this hash; None where it has none.
    fn find(&self, name: &[u8], hash: u32) -> Option<u32>
        requires { hash ≡ hash_of name.now }
        ensures number { IfSome result (λ n. (n < length self.now) × (name_at self.now n ≡ name.now)) }
        ensures none { is_some result ≡ has_name self.now name.now }
    {
        if self.heads.is_empty() {
            return None;
        }
        let mut place = self.heads[bucket_of(hash, self.heads.len())];
        while place > 0 {
            let number = place - 1;
            if self.is_at(number as usize, name, hash) {
                return Some(number);
            }
            place = self.links[number as usize].before;
        }
        None
    }

    /// The number of a name; None where it has none.
    pub fn number_of(&self, name: &[u8]) -> Option<u32>
        ensures number { IfSome result (λ n. (n < length self.now) × (name_at self.now n ≡ name.now)) }
        ensures none { is_some result ≡ has_name self.now name.now }
    {
        if !self.ends.may_have(name) {
            return None;
        }
        self.find(name, hash_of(name))
    }

    /// The number of a name, of which this one is tried first; None where it has none.
    pub fn number_near(&self, name: &[u8], number: u32) -> Option<u32>
        ensures number { IfSome result (λ n. (n < length self.now) × (name_at self.now n ≡ name.now)) }
        ensures none { is_some result ≡ has_name self.now name.now }
    {
        if (number as usize) < self.len() && self.is_of(number as usize, name) {
            return Some(number);
        }
        self.number_of(name)
    }

    /// Gives the next number to a name that has none, and answers it.
    fn push(&mut self, alloc: Global, name: &[u8], hash: u32) -> Result<u32, AllocError>
        requires { hash ≡ hash_of name.now }
        ensures number { IfOk result (λ n. n ≡ length self.old) }
        ensures ok { OnOk result (self.new ≡ self.old ++ name.now ∷ []) }
        ensures err { OnErr result (self.new ≡ self.old) }
    {
        make_room(alloc, &mut self.links, &mut self.heads)?;
        room::make_room(&mut self.links, 1)?;
        self.names.push(name)?;
        let number = self.links.len() as u32;
        let before = put_last(&mut self.heads, hash, number + 1);
        self.links.push_reserved(Link { hash, before });
        self.ends.mark(name);
        Ok(number)
    }

    /// Takes in that a name is mentioned, and tells whether it is new.
    pub fn mention(&mut self, alloc: Global, name: &[u8]) -> Result<bool, AllocError>
        ensures fresh { IfOk result (λ is_new. is_new ≡ not (has_name self.old name.now)) }
        ensures ok { OnOk result (self.new ≡ added self.old name.now) }
        ensures err { OnErr result (self.new ≡ self.old) }
    {
        let hash = hash_of(name);
        if self.find(name, hash).is_some() {
            return Ok(false);
        }
        let _number = self.push(alloc, name, hash)?;
        Ok(true)
    }

    /// The number of a name, which is given the next one where it has none. It fails only where there is no memory for
    /// one more.
    pub fn numbered(&mut self, alloc: Global, name: &[u8]) -> Result<u32, AllocError>
        ensures ok { IfOk result (λ n. (self.new ≡ added self.old name.now) × (n < length self.new) × (name_at self.new n ≡ name.now)) }
        ensures err { OnErr result (self.new ≡ self.old) }
        ensures absent { OnErr result (has_name self.old name.now ≡ false) }
    {
        let hash = hash_of(name);
        if let Some(number) = self.find(name, hash) {
            return Ok(number);
        }
        self.push(alloc, name, hash)
    }

    /// The number of a name, which is given the next one where it has none; None where that would be past the limit.
    pub(crate) fn add(
        &mut self,
        alloc: Global,
        name: &[u8],
        limit: usize,
    ) -> Result<Option<usize>, AllocError>
        ensures ok { IfOk result (λ number. MatchOption number (limit < length (added self.old name.now)) (λ n.
            (self.new ≡ added self.old name.now) × (n < length self.new) × (name_at self.new n ≡ name.now))) }
        ensures within { IfOk result (λ number. IfSome number (λ _. length self.old ≤ limit → length self.new ≤ limit)) }
    {
        let hash = hash_of(name);
        if let Some(number) = self.find(name, hash) {
            return Ok(Some(number as usize));
        }
        if self.len() >= limit {
            return Ok(None);
        }
        let number = self.push(alloc, name, hash)?;
        Ok(Some(number as usize))
    }

    /// The numbers of names, in turn; None where one would be past the limit.
    pub fn add_all(
        &mut self,
        alloc: Global,
        mentioned: &ByteStrings,
        limit: usize,
    ) -> Result<Option<Vec<usize>>, AllocError>
        ensures ok { IfOk result (λ row. MatchOption row (limit < length (all_added self.old mentioned.now)) (λ row.
            (self.new ≡ all_added self.old mentioned.now)
            × (list_all (λ n. nat_lt n (length self.new)) row.items ≡ true)
            × (map (name_at self.new) row.items ≡ mentioned.now))) }
        ensures within { IfOk result (λ row. IfSome row (λ _. length self.old ≤ limit → length self.new ≤ limit)) }
    {
        let mut row = Vec::with_capacity(alloc, mentioned.len())?;
        for name in mentioned.iter() {
            let Some(number) = self.add(alloc, name, limit)? else {
                return Ok(None);
            };
            row.push(number)?;
        }
        Ok(Some(row))
    }
}
