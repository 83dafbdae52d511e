//! Rows in a list of numbers that several graphs share.
//! A row takes 8 bytes here, and 4 where its end tells it. Parts with numbers of their own took 3.5 of 51 MB at 49,000 targets
//! with 20 hidden prerequisites each (27 November 2026). Owners are counted by atomic steps, since workers share a graph.

ghost use Rattle.std.specs.Prelude.{◌≡◌, ℕ, ◌<◌, ◌≤◌, List, length, take, drop, IfOk, MatchResult};
ghost use Rattle.byte_strings.specs.Pieces.{pieces, AreEnds};
ghost use Rattle.mk_graph.specs.Edges.{row};
ghost use Rattle.mk_graph.specs.Parts.{fronts, backs};
ghost use Rattle.mk_graph.specs.Spans.{spanned, rows_at, IsWithin, AreWithin};

use crate::packed_rows::PackedRows;
use std::alloc::{AllocError, Global};
use std::marker::Model;
use std::sync::Arc;

/// Where a row lies.
#[derive(Clone, Copy, Debug)]
pub struct Span {
    pub start: u32,
    pub end: u32,
}

/// Rows in one list of numbers. Numbers may stand there that are in none of them.
#[derive(Debug)]
pub struct SharedRows {
    numbers: Arc<Vec<u32>>,
    spans: Vec<Span>,
}

impl Model for SharedRows {
    ghost use Rattle.std.specs.Prelude.{ℕ, List, length};
    ghost use Rattle.mk_graph.specs.Spans.{rows_at, AreWithin};

    ghost Value = { List (List ℕ) };

    ghost view = { λ r. rows_at r.numbers.value.items r.spans.items };

    ghost invariant = { λ r. AreWithin (length r.numbers.value.items) r.spans.items };
}

impl Drop for SharedRows {
    fn drop(self) {
        let SharedRows {
            numbers: _,
            spans: _,
        } = self;
    }
}

/// Where the rows lie that end there, one behind the other.
fn spans_of(alloc: Global, ends: &[u32]) -> Result<Vec<Span>, AllocError>
    ensures rows { IfOk result (λ spans. (numbers : List ℕ) → rows_at numbers spans.items ≡ pieces numbers 0 ends.now) }
    ensures within { IfOk result (λ spans. (size : ℕ) → AreEnds size 0 ends.now → AreWithin size spans.items) }
{
    let mut spans = Vec::with_capacity(alloc, ends.len())?;
    let mut start = 0;
    for end in ends {
        spans.push_reserved(Span { start, end: *end });
        start = *end;
    }
    Ok(spans)
}

/// Where the first numbers of a row lie, as many as the count says, and where those behind them do.
fn cut(span: Span, count: usize) -> (Span, Span)
    requires { span.start ≤ span.end }
    ensures front { (numbers : List ℕ) → spanned numbers result.0 ≡ take count (spanned numbers span) }
    ensures back { (numbers : List ℕ) → spanned numbers result.1 ≡ drop count (spanned numbers span) }
    ensures within { (size : ℕ) → IsWithin size span → IsWithin size result.0 }
    ensures within_back { (size : ℕ) → IsWithin size span → IsWithin size result.1 }
{
    let Span { start, end } = span;
    let middle = if count < (end - start) as usize {
        start + count as u32
    } else {
        end
    };
    let front = Span { start, end: middle };
    let back = Span { start: middle, end };
    (front, back)
}

impl SharedRows {
    /// The same rows. Where there is no memory for it, they are given back.
    pub fn of(alloc: Global, rows: PackedRows) -> Result<SharedRows, PackedRows>
        ensures { MatchResult result (λ shared. shared ≡ rows) (λ packed. packed ≡ rows) }
    {
        let Ok(spans) = spans_of(alloc, &rows.ends) else {
            return Err(rows);
        };
        let PackedRows { numbers, ends } = rows;
        match Arc::new(alloc, numbers) {
            Ok(numbers) => Ok(SharedRows { numbers, spans }),
            Err(refused) => Err(PackedRows {
                numbers: refused.value,
                ends,
            }),
        }
    }

    pub fn len(&self) -> usize
        ensures { result ≡ length self.now }
    {
        self.spans.len()
    }

    #[inline(always)]
    pub fn row(&self, node: usize) -> &[u32]
        requires { node < length self.now }
        ensures { result.now ≡ row self.now node }
    {
        let span = self.spans[node];
        &self.numbers[span.start as usize..span.end as usize]
    }

    /// The first numbers of each row, as many as its count says, and those behind them.
    pub fn parted(
        &self,
        alloc: Global,
        counts: &[u32],
    ) -> Result<(SharedRows, SharedRows), AllocError>
        requires { length counts.now ≡ length self.now }
        ensures fronts { IfOk result (λ parts. parts.0 ≡ fronts counts.now self.now) }
        ensures backs { IfOk result (λ parts. parts.1 ≡ backs counts.now self.now) }
    {
        let mut fronts = Vec::with_capacity(alloc, counts.len())?;
        let mut backs = Vec::with_capacity(alloc, counts.len())?;
        for (node, count) in counts.iter().enumerate() {
            let (front, back) = cut(self.spans[node], *count as usize);
            fronts.push_reserved(front);
            backs.push_reserved(back);
        }
        let fronts = SharedRows {
            numbers: Arc::try_clone(&self.numbers)?,
            spans: fronts,
        };
        let backs = SharedRows {
            numbers: Arc::try_clone(&self.numbers)?,
            spans: backs,
        };
        Ok((fronts, backs))
    }

    /// The same rows, one behind the other.
    pub fn packed(&self) -> Result<PackedRows, AllocError>
        ensures { IfOk result (λ rows. rows ≡ self.now) }
    {
        let mut rows = PackedRows::with_capacity(*self.spans.allocator(), self.len())?;
        for node in 0..self.len() {
            rows.push_row(self.row(node))?;
        }
        Ok(rows)
    }

    /// The same rows in the same list.
    pub fn copy(&self, alloc: Global) -> Result<SharedRows, AllocError>
        ensures { IfOk result (λ rows. rows ≡ self.now) }
    {
        Ok(SharedRows {
            numbers: Arc::try_clone(&self.numbers)?,
            spans: Vec::from_slice(alloc, self.spans.as_slice())?,
        })
    }
}
