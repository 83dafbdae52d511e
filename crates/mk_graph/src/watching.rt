//! Nodes that wait, each for one of its prerequisites, so that each edge is looked at once.
//! To count down what each node lacks, the users of all nodes would be made: two passes, and a list as long as all edges. Rows
//! gone through from their front: 1,380 million instructions for 49,000 targets in layers, in place of 1,282 (27 November 2026).

ghost use Rattle.std.specs.Prelude.{◌≡◌, ◌≢◌, ℕ, ◌+◌, ◌<◌, ◌≤◌, true, false, [], ◌++◌, length, slice_index, nat_eq, IfOk, IfSome, IfNone, OnOk};
ghost use Rattle.std.specs.List.{list_all};
ghost use Rattle.mk_graph.specs.Counted.{joined};
ghost use Rattle.mk_graph.specs.Edges.{row, has};
ghost use Rattle.mk_graph.specs.Ready.{is_in};
ghost use Rattle.mk_graph.specs.Watching.{is_passed, can_pass, IsSeen, Waits, AreWatched, AreReleased};

use crate::edges::Edges;
use crate::node_lists::NodeLists;
use crate::ready::ReadyNodes;
use std::alloc::{AllocError, Global};

/// Whether a node was passed. A number past the end never is.
#[inline(always)]
fn was_passed(passed: &[bool], node: usize) -> bool
    ensures { result ≡ is_passed passed.now node }
{
    node < passed.len() && passed[node]
}

/// The row of a node. Where no node has numbers, its place isn't looked up.
#[inline(always)]
fn row_of(edges: &Edges, node: usize) -> &[u32]
    requires { node < length edges.now }
    ensures { result.now ≡ row edges.now node }
{
    if edges.is_blank() {
        return &[];
    }
    edges.row(node)
}

/// The last place of a row, before an end, whose node wasn't passed.
fn last_missing(row: &[u32], end: usize, passed: &[bool]) -> Option<usize>
    requires { end ≤ length row.now }
    ensures some { IfSome result (λ place. place < end) }
    ensures missing { IfSome result (λ place. is_passed passed.now (slice_index row.now place) ≡ false) }
    ensures behind { IfSome result (λ place. (k : ℕ) → place < k → k < end → is_passed passed.now (slice_index row.now k) ≡ true) }
    ensures none { IfNone result ((k : ℕ) → k < end → is_passed passed.now (slice_index row.now k) ≡ true) }
{
    let mut place = end;
    while place > 0 {
        place -= 1;
        if !was_passed(passed, row[place] as usize) {
            return Some(place);
        }
    }
    None
}

/// A prerequisite that wasn't passed, and its place in a row.
#[derive(Drop)]
struct Missing {
    place: usize,
    node: usize,
}

/// The last of two rows, one behind the other, before an end.
fn missing_of(first: &[u32], second: &[u32], end: usize, passed: &[bool]) -> Option<Missing>
    requires within { end ≤ length (first.now ++ second.now) }
    requires seen { (k : ℕ) → end ≤ k → k < length (first.now ++ second.now) → is_passed passed.now (slice_index (first.now ++ second.now) k) ≡ true }
    ensures some { IfSome result (λ m. IsSeen passed.now (first.now ++ second.now) m.place m.node) }
    ensures missing { IfSome result (λ m. is_passed passed.now m.node ≡ false) }
    ensures none { IfNone result (list_all (is_passed passed.now) (first.now ++ second.now) ≡ true) }
{
    let behind = end.saturating_sub(first.len());
    if let Some(place) = last_missing(second, behind, passed) {
        return Some(Missing {
            place: first.len() + place,
            node: second[place] as usize,
        });
    }
    let place = last_missing(first, end - behind, passed)?;
    Some(Missing {
        place,
        node: first[place] as usize,
    })
}

/// The nodes that were looked at: each that can't be passed yet stands in the list of the last prerequisite in its row that
/// wasn't passed. The last ones of a row are mostly passed last, so few nodes are looked at often.
pub struct Waiting {
    /// The nodes below this number were looked at.
    from: usize,
    /// Where that stands in the row of each.
    places: Vec<u32>,
    lists: NodeLists,
}

impl Drop for Waiting {
    fn drop(self) {
        let Waiting {
            from: _,
            places: _,
            lists: _,
        } = self;
    }
}

impl Waiting {
    /// Of so many nodes none was looked at.
    pub fn new(alloc: Global, nodes: usize) -> Result<Waiting, AllocError>
        ensures from { IfOk result (λ w. w.from ≡ 0) }
        ensures places { IfOk result (λ w. length w.places.items ≡ nodes) }
        ensures lists { IfOk result (λ w. length w.lists ≡ nodes) }
        ensures empty { IfOk result (λ w. (p : ℕ) → row w.lists p ≡ []) }
    {
        Ok(Waiting {
            from: 0,
            places: Vec::from_elem(alloc, 0, nodes)?,
            lists: NodeLists::new(alloc, nodes)?,
        })
    }

    /// Goes on in the rows of a node, before an end, and answers whether all was passed. Where something wasn't, the node waits
    /// for it.
    fn go_on(
        &mut self,
        node: usize,
        first: &[u32],
        second: &[u32],
        end: usize,
        passed: &[bool],
    ) -> Result<bool, AllocError>
        requires node { node < length self.old.lists }
        requires places { length self.old.places.items ≡ length self.old.lists }
        requires marks { length passed.now ≡ length self.old.lists }
        requires free { (p : ℕ) → has (row self.old.lists p) node ≡ false }
        requires within { end ≤ length (first.now ++ second.now) }
        requires seen { (k : ℕ) → end ≤ k → k < length (first.now ++ second.now) → is_passed passed.now (slice_index (first.now ++ second.now) k) ≡ true }
        ensures from { self.new.from ≡ self.old.from }
        ensures places { length self.new.places.items ≡ length self.old.places.items }
        ensures lists { length self.new.lists ≡ length self.old.lists }
        ensures all { IfOk result (λ all. all ≡ true → list_all (is_passed passed.now) (first.now ++ second.now) ≡ true) }
        ensures waits { IfOk result (λ all. all ≡ false → Waits passed.now (first.now ++ second.now) self.new.places.items self.new.lists node) }
        ensures own { OnOk result ((p : ℕ) → has (row self.new.lists p) node ≡ true → IsSeen passed.now (first.now ++ second.now) (slice_index self.new.places.items node) p) }
        ensures others { (n : ℕ) → n ≢ node → slice_index self.new.places.items n ≡ slice_index self.old.places.items n }
        ensures still { (p n : ℕ) → n ≢ node → has (row self.new.lists p) n ≡ has (row self.old.lists p) n }
        ensures passed { (p : ℕ) → is_passed passed.now p ≡ true → row self.new.lists p ≡ row self.old.lists p }
    {
        let Some(missing) = missing_of(first, second, end, passed) else {
            return Ok(true);
        };
        self.places[node] = u32::try_from(missing.place).map_err(|_| AllocError)?;
        if missing.node >= passed.len() {
            return Ok(false);
        }
        self.lists.put_first(node, missing.node);
        Ok(false)
    }

    /// Looks at nodes, one by one, until all prerequisites of one were passed.
    pub fn next_open(
        &mut self,
        first: &Edges,
        second: &Edges,
        passed: &[bool],
    ) -> Result<Option<usize>, AllocError>
        requires nodes { length second.now ≡ length first.now }
        requires watched { AreWatched (joined first.now second.now) passed.now (λ n. false) self.old.from self.old.places.items self.old.lists }
        requires released { AreReleased passed.now self.old.lists }
        ensures some { IfOk result (λ found. IfSome found (λ n. can_pass (joined first.now second.now) passed.now n ≡ true)) }
        ensures watched { IfOk result (λ found. IfSome found (λ n.
            AreWatched (joined first.now second.now) passed.now (λ m. nat_eq m n) self.new.from self.new.places.items self.new.lists)) }
        ensures least { IfOk result (λ found. IfSome found (λ n. (m : ℕ) → m < n → can_pass (joined first.now second.now) passed.now m ≡ false)) }
        ensures none { IfOk result (λ found. IfNone found ((m : ℕ) → can_pass (joined first.now second.now) passed.now m ≡ false)) }
        ensures released { AreReleased passed.now self.new.lists }
    {
        for node in self.from..first.len() {
            self.from = node + 1;
            let row = first.row(node);
            let more = row_of(second, node);
            if self.go_on(node, row, more, row.len() + more.len(), passed)? {
                return Ok(Some(node));
            }
        }
        Ok(None)
    }

    /// The nodes that wait for one that was passed go on; those that miss nothing more are ready.
    pub fn release(
        &mut self,
        node: usize,
        first: &Edges,
        second: &Edges,
        passed: &[bool],
        ready: &mut ReadyNodes,
    ) -> Result<(), AllocError>
        requires nodes { length second.now ≡ length first.now }
        requires passed { is_passed passed.now node ≡ true }
        requires watched { AreWatched (joined first.now second.now) passed.now (is_in ready.old) self.old.from self.old.places.items self.old.lists }
        requires released { (p : ℕ) → p ≢ node → is_passed passed.now p ≡ true → row self.old.lists p ≡ [] }
        ensures watched { OnOk result (AreWatched (joined first.now second.now) passed.now (is_in ready.new) self.new.from self.new.places.items self.new.lists) }
        ensures released { OnOk result (AreReleased passed.now self.new.lists) }
    {
        while let Some(waiter) = self.lists.take_first(node) {
            let place = self.places[waiter];
            if place == 0 {
                ready.insert(waiter)?;
                continue;
            }
            let row = first.row(waiter);
            let more = row_of(second, waiter);
            if self.go_on(waiter, row, more, place as usize, passed)? {
                ready.insert(waiter)?;
            }
        }
        Ok(())
    }
}
