//! The prerequisites of a name, each once.
ghost use Rattle.std.specs.Prelude.{◌≡◌, ◌++◌, ◌∷◌, ◌||◌, ◌<◌, ℕ, Bool, List, [], length, take, not, is_some, slice_get, option_to_list, true, false, IfOk, OnOk, MatchOption, if◌then◌else◌};
ghost use Rattle.mk_graph.specs.Edges.{has};
ghost use Rattle.mk_names.specs.Names.{name_at, has_name, added, all_added};
ghost use Rattle.mk_rules.specs.NodeNotes.{AreKnownNodes};
ghost use Rattle.mk_rules.specs.Row.{named, IsRow, IsSomeRow};
ghost use Rattle.mk_nodes.specs.Hidden.{Takes};

use crate::distinct_numbers::DistinctNumbers;
use crate::followers::Followers;
use crate::hidden_marks::HiddenMarks;
use byte_strings::ByteStrings;
use mk_names::Names;
use mk_sources::DistinctNames;
use std::alloc::{AllocError, Global};

/// The prerequisites of a name so far.
#[derive(Drop)]
pub(crate) struct Mentioned {
    /// The numbers of those that are nodes.
    pub nodes: DistinctNumbers,
    /// The hidden ones that are gone.
    pub gone: DistinctNames,
    /// Of each hidden one that wasn't mentioned before, whether it is a node.
    pub hidden: HiddenMarks,
}

/// Gives a name its number, and mentions that.
pub(crate) fn mention_name(
    alloc: Global,
    names: &mut Names,
    followers: &mut Followers,
    numbers: &mut DistinctNumbers,
    name: &[u8],
) -> Result<(), AllocError>
    ensures row { OnOk result ((start : List (List ℕ)) → IsRow start names.old numbers.old → IsRow start names.new numbers.new) }
    ensures known { OnOk result ((is_node : List ℕ → Bool) (marks : List Bool) → AreKnownNodes is_node names.old marks → AreKnownNodes is_node names.new marks) }
    ensures named { OnOk result (IsSomeRow names.old numbers.old → named names.new numbers.new ≡ added (named names.old numbers.old) name.now) }
{
    let number = followers.numbered(alloc, names, name)?;
    let _is_new = numbers.mention(number)?;
    Ok(())
}

/// Gives these names their numbers, and mentions them.
pub(crate) fn mention_names(
    alloc: Global,
    names: &mut Names,
    followers: &mut Followers,
    numbers: &mut DistinctNumbers,
    mentioned: &ByteStrings,
) -> Result<(), AllocError>
    requires { IsSomeRow names.old numbers.old }
    ensures row { OnOk result ((start : List (List ℕ)) → IsRow start names.old numbers.old → IsRow start names.new numbers.new) }
    ensures known { OnOk result ((is_node : List ℕ → Bool) (marks : List Bool) → AreKnownNodes is_node names.old marks → AreKnownNodes is_node names.new marks) }
    ensures named { OnOk result (named names.new numbers.new ≡ all_added (named names.old numbers.old) mentioned.now) }
{
    followers.start();
    // Most names have none of these.
    if mentioned.is_empty() {
        return Ok(());
    }
    for name in mentioned.iter() {
        mention_name(alloc, names, followers, numbers, name)?;
    }
    Ok(())
}

/// Whether the number of a name is among these.
fn has_named(names: &Names, numbers: &DistinctNumbers, name: &[u8]) -> bool
    ensures { IsSomeRow names.now numbers.now → result ≡ has_name (named names.now numbers.now) name.now }
{
    match names.number_of(name) {
        Some(number) => numbers.has(number),
        None => false,
    }
}

impl Mentioned {
    /// No prerequisites beside these nodes.
    pub fn new(alloc: Global, nodes: DistinctNumbers) -> Mentioned
        ensures nodes { result.nodes ≡ nodes }
        ensures gone { result.gone ≡ [] }
        ensures hidden { result.hidden ≡ [] }
    {
        Mentioned {
            nodes,
            gone: DistinctNames::new(alloc),
            hidden: HiddenMarks::none(),
        }
    }

    /// Takes in the number of a hidden prerequisite that is a node.
    #[inline(always)]
    fn add_node(&mut self, number: u32) -> Result<(), AllocError>
        ensures nodes { OnOk result (self.new.nodes ≡ (if has self.old.nodes number then self.old.nodes else self.old.nodes ++ number ∷ [])) }
        ensures gone { OnOk result (self.new.gone ≡ self.old.gone) }
        ensures hidden { OnOk result (self.new.hidden
            ≡ (if has self.old.nodes number then self.old.hidden else self.old.hidden ++ true ∷ [])) }
    {
        if self.nodes.mention(number)? {
            self.hidden.add_node()?;
        }
        Ok(())
    }

    /// Takes in a hidden prerequisite that is gone, which may be a hard one.
    fn add_gone(&mut self, alloc: Global, is_hard: bool, name: &[u8]) -> Result<(), AllocError>
        ensures nodes { OnOk result (self.new.nodes ≡ self.old.nodes) }
        ensures gone { OnOk result (self.new.gone ≡ (if is_hard then self.old.gone else added self.old.gone name.now)) }
        ensures hidden { OnOk result (self.new.hidden
            ≡ (if is_hard || has_name self.old.gone name.now then self.old.hidden else self.old.hidden ++ false ∷ [])) }
    {
        if is_hard {
            return Ok(());
        }
        if self.gone.mention(alloc, name)? {
            self.hidden.add_gone(alloc)?;
        }
        Ok(())
    }

    /// Takes in a hidden prerequisite by its number among the names, or one that is gone.
    #[inline(always)]
    pub fn add_hidden(
        &mut self,
        alloc: Global,
        names: &Names,
        name: &[u8],
        number: Option<u32>,
    ) -> Result<(), AllocError>
        ensures { OnOk result ((before : List (List ℕ)) → IsSomeRow before self.old.nodes
            → MatchOption number (names.now ≡ before) (λ n. (names.now ≡ added before name.now) × (n < length names.now) × (name_at names.now n ≡ name.now))
            → ((start : List (List ℕ)) → IsRow start before self.old.nodes → IsRow start names.now self.new.nodes)
            × Takes (λ _. is_some number) name.now (named before self.old.nodes) (named names.now self.new.nodes) self.old.gone self.new.gone
            self.old.hidden self.new.hidden) }
    {
        match number {
            Some(number) => {
                self.add_node(number)?;
                Ok(())
            }
            None => {
                let is_hard = has_named(names, &self.nodes, name);
                self.add_gone(alloc, is_hard, name)?;
                Ok(())
            }
        }
    }
}
