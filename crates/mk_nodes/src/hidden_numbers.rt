//! The hidden prerequisites of a node by number.
//! Verdicts number hidden prerequisites that are gone too, and nearly always none is: then the numbers are what the node's soft
//! row begins with, and a list of them would take 24 bytes and an allocation in each node.
ghost use Rattle.std.specs.Prelude.{◌≡◌, ◌∷◌, ◌++◌, [], Bool, List, true, length, replicate, MatchOption};
ghost use Rattle.mk_nodes.specs.Hidden.{spread};

use std::marker::Model;

/// Hidden prerequisites of a node that are left: of each the number, or none where it is gone. Contracts see the list of these.
#[derive(Drop)]
pub struct HiddenNumbers<'g> {
    /// So many are nodes.
    nodes: u32,
    /// Behind these, whether each is a node.
    marks: &'g [bool],
    /// The numbers of those that are nodes, and what stands behind them.
    numbers: &'g [u32],
}

impl<'g> Model for HiddenNumbers<'g> {
    ghost use Rattle.std.specs.Prelude.{◌++◌, ℕ, List, Option, true, replicate};
    ghost use Rattle.mk_nodes.specs.Hidden.{spread};

    ghost Value = { List (Option ℕ) };

    ghost view = { λ h. spread (replicate h.nodes true ++ h.marks.now) h.numbers.now };
}

/// The first mark, and what is left behind it.
#[tactic(auto, using(crate::proofs::MarkLemmas::node_first))]
fn first_mark(nodes: u32, marks: &[bool]) -> Option<(bool, u32, &[bool])>
    ensures { MatchOption result (replicate nodes true ++ marks.now ≡ [])
        (λ first. replicate nodes true ++ marks.now ≡ first.0 ∷ (replicate first.1 true ++ first.2.now)) }
{
    if nodes > 0 {
        return Some((true, nodes - 1, marks));
    }
    let (first, marks) = marks.split_first()?;
    Some((*first, 0, marks))
}

/// What a prerequisite with this mark gets of these numbers, and those that are left for others.
fn first_number(is_node: bool, numbers: &[u32]) -> (Option<usize>, &[u32])
    ensures { (more : List Bool) → spread (is_node ∷ more) numbers.now ≡ result.0 ∷ spread more result.1.now }
{
    if !is_node {
        return (None, numbers);
    }
    match numbers.split_first() {
        Some((number, rest)) => (Some(*number as usize), rest),
        None => (None, numbers),
    }
}

impl<'g> HiddenNumbers<'g> {
    /// So many, which are all nodes: the first numbers are theirs.
    pub(crate) fn nodes(nodes: u32, numbers: &'g [u32]) -> HiddenNumbers<'g>
        ensures { result ≡ spread (replicate nodes true) numbers.now }
    {
        HiddenNumbers {
            nodes,
            marks: &[],
            numbers,
        }
    }

    /// Those with these marks: the first numbers are those of the nodes among them.
    pub(crate) fn marked(marks: &'g [bool], numbers: &'g [u32]) -> HiddenNumbers<'g>
        ensures { result ≡ spread marks.now numbers.now }
    {
        HiddenNumbers {
            nodes: 0,
            marks,
            numbers,
        }
    }
}

impl<'g> Iterator for HiddenNumbers<'g> {
    type Item = Option<usize>;

    ghost use Rattle.std.specs.Iterator.{YieldsFirst, item_count};

    ghost next_gives = { YieldsFirst (λ h. h) };

    ghost remaining = { item_count (λ h. h) };

    fn next(&mut self) -> Option<Option<usize>> {
        let (is_node, nodes, marks) = first_mark(self.nodes, self.marks)?;
        let (number, numbers) = first_number(is_node, self.numbers);
        *self = HiddenNumbers {
            nodes,
            marks,
            numbers,
        };
        Some(number)
    }
}
