//! Byte order of names by their ranks: numbers that stand beside the names and tell most of them apart, so that a sort
//! seldom has to look at the names themselves.
//! Four million names of one folder are sorted in 0.5 s, by both names of each comparison in 4.2 s (22 November 2026). Ranks of
//! the first eight bytes would tell few apart: names of one folder often share them.

ghost use Rattle.std.specs.Prelude.{◌≡◌, ◌<◌, ◌≤◌, List, ℕ, length, slice_index, IfOk, map as list_map};
ghost use Rattle.std.specs.Cmp.Lexicographic.{slice_cmp};
ghost use Rattle.std.specs.FinMap as map;
ghost use Rattle.std.specs.List.{All};
ghost use Rattle.std.specs.Ordering.{nat_cmp, ordering_then};
ghost use Rattle.std.specs.Str.{bytes_eq};
ghost use Rattle.indexmap.specs.IndexMap.{IsUnique};
ghost use Rattle.st_state.specs.Listed.{entry_at};
ghost use Rattle.st_state.specs.Ranks.{HasRank, number_from, rank};
ghost use Rattle.st_state.specs.State.{by_name};

use crate::state::Entries;
use std::alloc::{AllocError, Global};
use std::cmp::Ordering;

// How many names show what most of them begin with.
const SAMPLES: usize = 16;

/// Where a name stands in the map, and its rank.
#[derive(Clone, Copy)]
pub(crate) struct Ranked {
    pub rank: u64,
    pub place: usize,
}

/// The places of all names, in byte order of the names.
pub(crate) fn in_order(alloc: Global, entries: &Entries) -> Result<Vec<Ranked>, AllocError>
    ensures sorted { IfOk result (λ order. list_map (λ r. entry_at entries.now.entries r.place) order.items ≡ map.entries (by_name (λ k. k) entries.now.entries)) }
    ensures within { IfOk result (λ order. All (λ r. r.place < length entries.now.entries) order.items) }
{
    let mut order = with_ranks(alloc, entries)?;
    order.sort_unstable_by(|a, b| compare(entries, *a, *b));
    Ok(order)
}

/// The places of all names, with their ranks, in the order of the map.
fn with_ranks(alloc: Global, entries: &Entries) -> Result<Vec<Ranked>, AllocError>
    ensures all { IfOk result (λ ranked. list_map (λ r. entry_at entries.now.entries r.place) ranked.items ≡ entries.now.entries) }
    ensures within { IfOk result (λ ranked. All (λ r. r.place < length entries.now.entries) ranked.items) }
    ensures unique { IfOk result (λ _. IsUnique bytes_eq entries.now) }
    ensures ranks { IfOk result (λ ranked. (beginning : List ℕ) × All (λ r. HasRank beginning (entry_at entries.now.entries r.place).0 r.rank) ranked.items) }
{
    let beginning = usual_beginning(entries);
    let mut ranked = Vec::with_capacity(alloc, entries.len())?;
    for place in 0..entries.len() {
        let rank = rank_of(beginning, name_at(entries, place));
        ranked.push(Ranked { rank, place })?;
    }
    Ok(ranked)
}

// The names are looked at only where the ranks don't tell.
fn compare(entries: &Entries, a: Ranked, b: Ranked) -> Ordering
    ensures { result ≡ ordering_then (nat_cmp a.rank b.rank)
        (slice_cmp nat_cmp (entry_at entries.now.entries a.place).0 (entry_at entries.now.entries b.place).0) }
{
    match a.rank.cmp(&b.rank) {
        Ordering::Less => Ordering::Less,
        Ordering::Equal => name_at(entries, a.place).cmp(&name_at(entries, b.place)),
        Ordering::Greater => Ordering::Greater,
    }
}

fn name_at(entries: &Entries, place: usize) -> &[u8]
    ensures same { result.now ≡ (entry_at entries.now.entries place).0 }
    ensures bytes { (i : ℕ) → slice_index result.now i < 256 }
{
    match entries.get_index(place) {
        Some((name, _)) => bytes_of(name.as_slice()),
        None => &[],
    }
}

// The bytes of a name again. What follows from the type, that each is below 256, has to be said for the ranks.
fn bytes_of(name: &[u8]) -> &[u8]
    ensures same { result.now ≡ name.now }
    ensures bytes { (place : ℕ) → slice_index result.now place < 256 }
{
    name
}

// What most names begin with, as far as a few of them show. Any answer serves: it only decides how many names their ranks
// tell apart.
fn usual_beginning(entries: &Entries) -> &[u8] {
    let Some((first, _)) = entries.first() else {
        return &[];
    };
    let mut beginning = first.as_slice();
    let between = entries.len() / SAMPLES + 1;
    for sample in 1..SAMPLES {
        if let Some((name, _)) = entries.get_index(sample.saturating_mul(between)) {
            beginning = &beginning[..shared_len(beginning, name.as_slice())];
        }
    }
    beginning
}

fn shared_len(a: &[u8], b: &[u8]) -> usize
    ensures { result ≤ length a.now }
{
    let most = a.len().min(b.len());
    for place in 0..most {
        if a[place] != b[place] {
            return place;
        }
    }
    most
}

// A name that begins otherwise stands below or above all those that begin so.
fn rank_of(beginning: &[u8], name: &[u8]) -> u64
    ensures { result ≡ rank beginning.now name.now }
{
    match name.strip_prefix(beginning) {
        Some(rest) => first_eight(rest),
        None => {
            if name.cmp(&beginning).is_lt() {
                0
            } else {
                u64::MAX
            }
        }
    }
}

fn first_eight(name: &[u8]) -> u64
    ensures { result ≡ number_from 8 0 name.now }
{
    u64::from_be_bytes([
        byte_at(name, 0),
        byte_at(name, 1),
        byte_at(name, 2),
        byte_at(name, 3),
        byte_at(name, 4),
        byte_at(name, 5),
        byte_at(name, 6),
        byte_at(name, 7),
    ])
}

fn byte_at(name: &[u8], place: usize) -> u8
    ensures { result ≡ slice_index name.now place }
{
    if place < name.len() { name[place] } else { 0 }
}
