//! What looks at names told.
ghost use Rattle.std.specs.Prelude.{◌≡◌, ℕ, ◌<◌, ◌⊎◌, List, [], None, length, true, false, is_some, IfOk, IfSome, OnOk, OnErr};
ghost use Rattle.std.specs.List.{IsDistinct};
ghost use Rattle.std.specs.Str.{bytes_eq};
ghost use Rattle.mk_names.specs.Names.{name_at, has_name, all_added};
ghost use Rattle.dmk_files.specs.Stamps.{names_of, told_of, known_stamp, Adds, KnowsTheSame};

use crate::listed::{Listed, make_room};
use crate::told::Told;
use mk_names::Names;
use mk_nodes::FileLook;
use std::alloc::{AllocError, Global};
use std::marker::Model;

/// What was told of each name so far. Contracts see the names by their numbers, and what was told of them.
///
/// A name that was never asked for before is listed at no cost, and is found by its bytes only once another name has to be found.
/// The looks of a graph's nodes can't stand for that list: a name from which a rule may make something is looked at apart from
/// its node. To seek each node's name in the list would be a search for each.
pub struct Stamps {
    /// The names that are found, and those that were listed since.
    found: Names,
    listed: Listed,
    /// By number. Of a name that couldn't be looked at nothing is told.
    told: Vec<Told>,
}

impl Model for Stamps {
    ghost use Rattle.dmk_files.specs.Stamps.{Known, IsTable};

    ghost Value = { Known };

    ghost view = { λ s. record { found = s.found; listed = s.listed; told = s.told.items } };

    ghost invariant = { λ s. IsTable s.found s.listed s.told.items };
}

impl Drop for Stamps {
    fn drop(self) {
        let Stamps {
            found: _,
            listed: _,
            told: _,
        } = self;
    }
}

/// Adds these names to those that are found.
fn find_all(alloc: Global, found: &mut Names, listed: &Listed) -> Result<(), AllocError>
    ensures ok { OnOk result (found.new ≡ all_added found.old listed.now) }
    ensures err { OnErr result (all_added found.new listed.now ≡ all_added found.old listed.now) }
    ensures once { IsDistinct bytes_eq found.old → IsDistinct bytes_eq found.new }
{
    for number in 0..listed.len() {
        found.numbered(alloc, listed.name(number))?;
    }
    Ok(())
}

/// The number of a name that is found.
#[tactic(auto, using(crate::proofs::ListedLemmas::no_names))]
fn number_in(found: &Names, name: &[u8]) -> Option<u32>
    ensures number { IfSome result (λ n. (n < length found.now) × (name_at found.now n ≡ name.now)) }
    ensures none { is_some result ≡ has_name found.now name.now }
{
    if found.len() == 0 {
        return None;
    }
    found.number_of(name)
}

/// The number of a name, which is found from then on. Nothing is told of a new one.
fn add_found(
    alloc: Global,
    found: &mut Names,
    told: &mut Vec<Told>,
    name: &[u8],
) -> Result<usize, AllocError>
    requires { length told.old.items ≡ length found.old }
    ensures number { IfOk result (λ n. (n < length found.new) × (name_at found.new n ≡ name.now)) }
    ensures as_many { length told.new.items ≡ length found.new }
    ensures same { (n : List ℕ) → told_of found.new told.new.items n ≡ told_of found.old told.old.items n }
    ensures once { IsDistinct bytes_eq found.old → IsDistinct bytes_eq found.new }
{
    make_room(told)?;
    let place = found.numbered(alloc, name)?;
    let number = place as usize;
    if number < told.len() {
        return Ok(number);
    }
    told.push_reserved(Told::nothing());
    Ok(number)
}

impl Stamps {
    pub fn new(alloc: Global) -> Stamps
        ensures { (name : List ℕ) → known_stamp result name ≡ None }
    {
        Stamps {
            found: Names::new(alloc),
            listed: Listed::empty(alloc),
            told: Vec::new(alloc),
        }
    }

    /// Makes all names be found, and takes room for so many others, where there is memory for it. What is known of names stays as it is.
    pub fn find_listed(&mut self, alloc: Global, others: usize) -> Result<(), AllocError>
        ensures same { KnowsTheSame self.old self.new }
        ensures listed { (n : List ℕ) → has_name self.new.listed n ≡ true → has_name self.old.listed n ≡ true }
        ensures none { OnOk result (self.new.listed ≡ []) }
    {
        find_all(alloc, &mut self.found, &self.listed)?;
        self.listed = Listed::with_room(alloc, others);
        let _ = self.told.reserve(others);
        Ok(())
    }

    /// The number of a name, which is given the next one where it has none. What is known of names stays as it is.
    pub fn numbered(&mut self, alloc: Global, name: &[u8]) -> Result<usize, AllocError>
        ensures number { IfOk result (λ n. (n < length (names_of self.new)) × (name_at (names_of self.new) n ≡ name.now)) }
        ensures same { KnowsTheSame self.old self.new }
        ensures listed { (n : List ℕ) → has_name self.new.listed n ≡ true → has_name self.old.listed n ≡ true }
    {
        find_all(alloc, &mut self.found, &self.listed)?;
        self.listed = Listed::empty(alloc);
        add_found(alloc, &mut self.found, &mut self.told, name)
    }

    /// The number of a name among those that are found.
    pub fn found_number(&self, name: &[u8]) -> Option<usize>
        ensures number { IfSome result (λ n. (n < length (names_of self.now)) × (name_at (names_of self.now) n ≡ name.now)) }
        ensures none { is_some result ≡ has_name self.now.found name.now }
    {
        match number_in(&self.found, name) {
            Some(number) => Some(number as usize),
            None => None,
        }
    }

    /// Lists a name that is new, and takes in what was told of it.
    pub fn list(
        &mut self,
        alloc: Global,
        name: &[u8],
        look: Option<FileLook>,
    ) -> Result<(), AllocError>
        requires no_found { has_name self.old.found name.now ≡ false }
        requires no_listed { has_name self.old.listed name.now ≡ false }
        ensures ok { OnOk result (Adds name.now look self.old self.new) }
        ensures err { OnErr result (KnowsTheSame self.old self.new) }
        ensures listed { (n : List ℕ) → has_name self.new.listed n ≡ true → (has_name self.old.listed n ≡ true) ⊎ (n ≡ name.now) }
    {
        let told = Told::of(alloc, look)?;
        make_room(&mut self.told)?;
        self.listed.push(name)?;
        self.told.push_reserved(told);
        Ok(())
    }

    /// What is known of the name with this number: nothing, that it has no file, or what a look at it told.
    pub fn get(&self, number: usize) -> Option<Option<FileLook>>
        requires { number < length (names_of self.now) }
        ensures { result ≡ known_stamp self.now (name_at (names_of self.now) number) }
    {
        self.told[number].get()
    }

    /// Takes in what was told of the name with this number.
    pub fn set(
        &mut self,
        alloc: Global,
        number: usize,
        look: Option<FileLook>,
    ) -> Result<(), AllocError>
        requires { number < length (names_of self.old) }
        ensures ok { OnOk result (Adds (name_at (names_of self.old) number) look self.old self.new) }
        ensures err { OnErr result (KnowsTheSame self.old self.new) }
        ensures listed { self.new.listed ≡ self.old.listed }
    {
        let told = Told::of(alloc, look)?;
        self.told[number] = told;
        Ok(())
    }
}
