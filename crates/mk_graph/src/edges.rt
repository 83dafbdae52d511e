//! A graph: the prerequisites of each node.

ghost use Rattle.std.specs.Prelude.{◌≡◌, ℕ, ◌<◌, true, [], ◌∷◌, ◌++◌, length, map, IfOk, IsTrue, OnOk, OnErr, nat_lt};
ghost use Rattle.std.specs.List.Sorted.{IsStrictlyIncreasing};
ghost use Rattle.mk_graph.specs.Edges.{row, is_closed, AreUsers};
ghost use Rattle.mk_graph.specs.Forms.{rows_of};
ghost use Rattle.mk_graph.specs.Counted.{joined};
ghost use Rattle.mk_graph.specs.Parts.{fronts, backs};
ghost use Rattle.mk_graph.specs.Users.{HasUsers};
ghost use Rattle.std.specs.List.{list_all};

use crate::packed_rows::{PackedRows, short};
use crate::shared_rows::SharedRows;
use mk_names::{append, push};
use std::alloc::{AllocError, Global};
use std::marker::Model;

/// How the rows of a graph lie.
#[derive(Debug, Drop)]
enum Form {
    Packed(PackedRows),
    Shared(SharedRows),
}

/// The prerequisites of each node, by number. A number may stand in a row more than once. The numbers of all rows are one
/// list, which several graphs may share.
#[derive(Debug)]
pub struct Edges {
    form: Form,
}

impl Model for Edges {
    ghost use Rattle.std.specs.Prelude.{ℕ, List};
    ghost use Rattle.mk_graph.specs.Forms.{rows_of};

    ghost Value = { List (List ℕ) };

    ghost view = { λ e. rows_of e.form };
}

impl Drop for Edges {
    fn drop(self) {
        let Edges { form: _ } = self;
    }
}

fn all_below(numbers: &[u32], limit: usize) -> bool
    ensures { result ≡ list_all (λ n. nat_lt n limit) numbers.now }
{
    numbers.iter().all(|n| (*n as usize) < limit)
}

fn is_ascending(numbers: &[u32]) -> bool
    ensures { result ≡ true → IsStrictlyIncreasing numbers.now }
{
    let mut last = 0;
    for (place, number) in numbers.iter().enumerate() {
        if place > 0 && *number <= last {
            return false;
        }
        last = *number;
    }
    true
}

/// The rows of a graph, parted in two.
#[derive(Drop)]
pub struct Parts {
    /// The first numbers of each row.
    pub fronts: Edges,
    /// The numbers behind them.
    pub backs: Edges,
}

/// The rows in the list of the graph that is parted.
fn parts_of(alloc: Global, rows: &SharedRows, counts: &[u32]) -> Result<Parts, AllocError>
    requires { length counts.now ≡ length rows.now }
    ensures fronts { IfOk result (λ parts. parts.fronts ≡ fronts counts.now rows.now) }
    ensures backs { IfOk result (λ parts. parts.backs ≡ backs counts.now rows.now) }
{
    let (fronts, backs) = rows.parted(alloc, counts)?;
    Ok(Parts {
        fronts: Edges::of_shared(fronts),
        backs: Edges::of_shared(backs),
    })
}

impl Edges {
    fn of_packed(rows: PackedRows) -> Edges
        ensures { result ≡ rows }
    {
        Edges {
            form: Form::Packed(rows),
        }
    }

    fn of_shared(rows: SharedRows) -> Edges
        ensures { result ≡ rows }
    {
        Edges {
            form: Form::Shared(rows),
        }
    }

    /// The same rows, one behind the other.
    fn into_packed(self) -> Result<PackedRows, AllocError>
        ensures { IfOk result (λ rows. rows ≡ self) }
    {
        let Edges { form } = self;
        match form {
            Form::Packed(rows) => Ok(rows),
            Form::Shared(rows) => rows.packed(),
        }
    }

    /// The same rows, which are parted without a copy of their numbers where there is memory for it.
    pub(crate) fn shared(self, alloc: Global) -> Edges
        ensures { result ≡ self }
    {
        let Edges { form } = self;
        match form {
            Form::Packed(rows) => match SharedRows::of(alloc, rows) {
                Ok(rows) => Edges::of_shared(rows),
                Err(rows) => Edges::of_packed(rows),
            },
            Form::Shared(rows) => Edges::of_shared(rows),
        }
    }

    /// No nodes, with room for so many; no clause says that pushes then succeed.
    pub fn with_capacity(alloc: Global, nodes: usize) -> Result<Edges, AllocError>
        ensures { IfOk result (λ e. e ≡ []) }
    {
        let rows = PackedRows::with_capacity(alloc, nodes)?;
        Ok(Edges::of_packed(rows))
    }

    /// No nodes, with room for so many and for so many numbers in their rows, where there is memory for it.
    pub(crate) fn with_room(alloc: Global, nodes: usize, numbers: usize) -> Edges
        ensures { result ≡ [] }
    {
        Edges::of_packed(PackedRows::with_room(alloc, nodes, numbers))
    }

    /// A node for each of these rows.
    pub fn of_rows(alloc: Global, rows: &[Vec<u32>]) -> Result<Edges, AllocError>
        ensures { IfOk result (λ e. e ≡ map (λ r. r.items) rows.now) }
    {
        let mut edges = Edges::with_capacity(alloc, rows.len())?;
        for row in rows {
            edges.push_row(row)?;
        }
        Ok(edges)
    }

    /// The rows of two graphs together: of each node those of the first, and then those of the second.
    pub(crate) fn joined(alloc: Global, first: &Edges, second: &Edges) -> Result<Edges, AllocError>
        requires { length second.now ≡ length first.now }
        ensures { IfOk result (λ e. e ≡ joined first.now second.now) }
    {
        let mut numbers = Vec::new(alloc);
        let mut ends = Vec::with_capacity(alloc, first.len())?;
        for node in 0..first.len() {
            append(&mut numbers, first.row(node))?;
            append(&mut numbers, second.row(node))?;
            push(&mut ends, short(numbers.len())?)?;
        }
        Ok(Edges::of_packed(PackedRows { numbers, ends }))
    }

    /// Adds the prerequisites of one more node. There is no memory for 2^32 numbers or more.
    #[inline(always)]
    pub fn push_row(&mut self, prerequisites: &[u32]) -> Result<(), AllocError>
        ensures ok { OnOk result (self.new ≡ self.old ++ prerequisites.now ∷ []) }
        ensures err { OnErr result (self.new ≡ self.old) }
    {
        match &mut self.form {
            Form::Packed(rows) => rows.push_row(prerequisites)?,
            Form::Shared(rows) => {
                let mut packed = rows.packed()?;
                packed.push_row(prerequisites)?;
                self.form = Form::Packed(packed);
            }
        }
        Ok(())
    }

    /// The first numbers of each row, as many as its count says, and those behind them.
    pub fn parted(&self, alloc: Global, counts: &[u32]) -> Result<Parts, AllocError>
        requires { length counts.now ≡ length self.now }
        ensures fronts { IfOk result (λ parts. parts.fronts ≡ fronts counts.now self.now) }
        ensures backs { IfOk result (λ parts. parts.backs ≡ backs counts.now self.now) }
    {
        match &self.form {
            Form::Packed(rows) => match SharedRows::of(alloc, rows.copy(alloc)?) {
                Ok(shared) => parts_of(alloc, &shared, counts),
                Err(_) => Err(AllocError),
            },
            Form::Shared(rows) => parts_of(alloc, rows, counts),
        }
    }

    /// The number of nodes.
    pub fn len(&self) -> usize
        ensures { result ≡ length self.now }
    {
        match &self.form {
            Form::Packed(rows) => rows.len(),
            Form::Shared(rows) => rows.len(),
        }
    }

    /// The prerequisites of a node.
    #[inline(always)]
    pub fn row(&self, node: usize) -> &[u32]
        requires { node < length self.now }
        ensures { result.now ≡ row self.now node }
    {
        match &self.form {
            Form::Packed(rows) => rows.row(node),
            Form::Shared(rows) => rows.row(node),
        }
    }

    /// As many nodes, without prerequisites.
    pub(crate) fn blank(&self, alloc: Global) -> Result<Edges, AllocError>
        ensures nodes { IfOk result (λ e. length e ≡ length self.now) }
        ensures joined { IfOk result (λ e. joined self.now e ≡ self.now) }
    {
        let rows = PackedRows {
            numbers: Vec::new(alloc),
            ends: Vec::from_elem(alloc, 0, self.len())?,
        };
        Ok(Edges::of_packed(rows))
    }

    /// Whether no node has prerequisites. Rows in a shared list may have none, though they aren't asked.
    #[inline(always)]
    pub(crate) fn is_blank(&self) -> bool
        ensures { result ≡ true → (n : ℕ) → row self.now n ≡ [] }
    {
        match &self.form {
            Form::Packed(rows) => rows.is_blank(),
            Form::Shared(_) => false,
        }
    }

    /// Whether each number in a row is that of a node.
    pub fn is_closed(&self) -> bool
        ensures { result ≡ is_closed self.now }
    {
        for node in 0..self.len() {
            if !all_below(self.row(node), self.len()) {
                return false;
            }
        }
        true
    }

    /// Whether the numbers of each row ascend, so that none stands there twice.
    pub(crate) fn ascends(&self) -> bool
        ensures { result ≡ true → (n : ℕ) → IsStrictlyIncreasing (row self.now n) }
    {
        for node in 0..self.len() {
            if !is_ascending(self.row(node)) {
                return false;
            }
        }
        true
    }

    /// The users of each node in their order: a node has one for each time that a row names it. Numbers past the end
    /// have none.
    pub fn reversed(&self, alloc: Global) -> Result<Edges, AllocError>
        ensures { IfOk result (AreUsers self.now) }
    {
        let users = match &self.form {
            Form::Packed(rows) => rows.reversed(alloc)?,
            Form::Shared(rows) => rows.packed()?.reversed(alloc)?,
        };
        Ok(Edges::of_packed(users))
    }

    /// The same of the users of a graph, whose own rows have just the room that is needed: each gets its numbers back, in
    /// their order.
    pub(crate) fn reversed_into(&self, rows: Edges) -> Result<Edges, AllocError>
        requires closed { IsTrue (is_closed rows) }
        requires users { HasUsers rows self.now }
        ensures { IfOk result (AreUsers self.now) }
    {
        let rows = rows.into_packed()?;
        match &self.form {
            Form::Packed(users) => Ok(Edges::of_packed(users.reversed_into(rows)?)),
            Form::Shared(users) => Ok(Edges::of_packed(users.packed()?.reversed_into(rows)?)),
        }
    }

    /// The same rows.
    pub fn copy(&self, alloc: Global) -> Result<Edges, AllocError>
        ensures { IfOk result (λ e. e ≡ self.now) }
    {
        match &self.form {
            Form::Packed(rows) => Ok(Edges::of_packed(rows.copy(alloc)?)),
            Form::Shared(rows) => Ok(Edges::of_shared(rows.copy(alloc)?)),
        }
    }
}
