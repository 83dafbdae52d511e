//! Rows that lie one behind the other.

ghost use Rattle.std.specs.Prelude.{◌≡◌, ℕ, ◌<◌, ◌≤◌, ◌^◌, true, [], ◌∷◌, ◌++◌, length, slice_index, IfOk, IsTrue, OnOk, OnErr};
ghost use Rattle.mk_graph.specs.Edges.{row, is_closed, AreUsers};
ghost use Rattle.mk_graph.specs.Users.{HasRoom, HasUsers};
ghost use Rattle.byte_strings.specs.Pieces.{pieces, AreEnds};

use crate::users::{counted, note_user, starts_behind, starts_of};
use mk_names::{append, make_room, with_room};
use std::alloc::{AllocError, Global};
use std::marker::Model;

/// Rows whose numbers lie one behind the other, each up to its end.
///
/// A number takes four bytes, half of an index: 49,000 targets with 20 hidden prerequisites each have a million of them.
#[derive(Debug, Drop)]
pub struct PackedRows {
    pub numbers: Vec<u32>,
    pub ends: Vec<u32>,
}

impl Model for PackedRows {
    ghost use Rattle.std.specs.Prelude.{ℕ, List, length};
    ghost use Rattle.byte_strings.specs.Pieces.{pieces, AreEnds};

    ghost Value = { List (List ℕ) };

    ghost view = { λ e. pieces e.numbers.items 0 e.ends.items };

    ghost invariant = { λ e. AreEnds (length e.numbers.items) 0 e.ends.items };
}

/// Where the row of a node begins: at the end of the one before it.
fn start_of(ends: &[u32], node: usize) -> usize
    requires { node ≤ length ends.now }
    ensures { result ≡ slice_index (0 ∷ ends.now) node }
{
    if node == 0 {
        0
    } else {
        ends[node - 1] as usize
    }
}

/// A count of 32 bits. There is no memory for 2^32 or more.
pub fn short(count: usize) -> Result<u32, AllocError>
    ensures { IfOk result (λ short. short ≡ count) }
{
    u32::try_from(count).map_err(|_| AllocError)
}

impl PackedRows {
    /// No rows, with room for so many and for so many numbers, where there is memory for it.
    pub fn with_room(alloc: Global, rows: usize, numbers: usize) -> PackedRows
        ensures { result ≡ [] }
    {
        PackedRows {
            numbers: with_room(alloc, numbers),
            ends: with_room(alloc, rows),
        }
    }

    /// No rows, with room for so many.
    pub fn with_capacity(alloc: Global, rows: usize) -> Result<PackedRows, AllocError>
        ensures { IfOk result (λ e. e ≡ []) }
    {
        Ok(PackedRows {
            numbers: Vec::new(alloc),
            ends: Vec::with_capacity(alloc, rows)?,
        })
    }

    /// Adds a row. There is no memory for 2^32 numbers or more.
    #[inline(always)]
    pub fn push_row(&mut self, row: &[u32]) -> Result<(), AllocError>
        ensures ok { OnOk result (self.new ≡ self.old ++ row.now ∷ []) }
        ensures err { OnErr result (self.new ≡ self.old) }
    {
        let end = short(self.numbers.len() + row.len())?;
        make_room(&mut self.ends, 1)?;
        append(&mut self.numbers, row)?;
        self.ends.push_reserved(end);
        Ok(())
    }

    pub fn len(&self) -> usize
        ensures { result ≡ length self.now }
    {
        self.ends.len()
    }

    /// Whether no row has a number.
    #[inline(always)]
    pub fn is_blank(&self) -> bool
        ensures { result ≡ true → (n : ℕ) → row self.now n ≡ [] }
    {
        self.numbers.is_empty()
    }

    #[inline(always)]
    pub fn row(&self, node: usize) -> &[u32]
        requires { node < length self.now }
        ensures { result.now ≡ row self.now node }
    {
        let end = self.ends[node] as usize;
        let start = start_of(&self.ends, node);
        &self.numbers[start..end]
    }

    /// Notes each node where the next users of its prerequisites go: from where their rows start to where these end, which
    /// is where the rows behind them started.
    fn note_users(&self, next: &mut [u32], users: &mut [u32]) -> Result<(), AllocError>
        requires room { HasRoom self.now (length users.old) next.old }
        requires few { length users.old < 2 ^ 32 }
        ensures ends { OnOk result (AreEnds (length users.old) 0 next.new) }
        ensures users { OnOk result (AreUsers self.now (pieces users.new 0 next.new)) }
    {
        let nodes = short(self.len())?;
        for node in 0..nodes {
            note_user(node, self.row(node as usize), next, users);
        }
        Ok(())
    }

    /// The users of each node in their order.
    pub fn reversed(&self, alloc: Global) -> Result<PackedRows, AllocError>
        ensures { IfOk result (AreUsers self.now) }
    {
        let mut next = counted(alloc, &self.numbers, self.len())?;
        let size = starts_of(&mut next);
        // Each of these numbers is written over; copying them is cheaper than setting as many zeros one by one.
        let mut users = Vec::from_slice(alloc, self.numbers.as_slice())?;
        users.truncate(size as usize);
        self.note_users(&mut next, &mut users)?;
        Ok(PackedRows {
            numbers: users,
            ends: next,
        })
    }

    /// The same of the users of a graph, whose own rows have just the room that is needed: each gets its numbers back, in
    /// their order.
    pub fn reversed_into(&self, rows: PackedRows) -> Result<PackedRows, AllocError>
        requires closed { IsTrue (is_closed rows) }
        requires users { HasUsers rows self.now }
        ensures { IfOk result (AreUsers self.now) }
    {
        let PackedRows {
            mut numbers,
            mut ends,
        } = rows;
        starts_behind(&mut ends);
        self.note_users(&mut ends, &mut numbers)?;
        Ok(PackedRows { numbers, ends })
    }

    /// The same rows.
    pub fn copy(&self, alloc: Global) -> Result<PackedRows, AllocError>
        ensures { IfOk result (λ e. e ≡ self.now) }
    {
        Ok(PackedRows {
            numbers: Vec::from_slice(alloc, self.numbers.as_slice())?,
            ends: Vec::from_slice(alloc, self.ends.as_slice())?,
        })
    }
}
