//! Rows of users, filled once it is known how many each node has.

ghost use Rattle.std.specs.Prelude.{◌≡◌, ℕ, ◌+◌, ◌<◌, ◌≤◌, ◌^◌, List, ◌∷◌, ◌++◌, length, replicate, slice_index, sum, IfOk};
ghost use Rattle.mk_graph.specs.Edges.{times};
ghost use Rattle.mk_graph.specs.Users.{ends_from, filled, AreStarts, CanTake};

use std::alloc::{AllocError, Global};

/// How often each number below `nodes` stands in a list. There is no memory for counts of 2^32 or more.
pub fn counted(alloc: Global, numbers: &[u32], nodes: usize) -> Result<Vec<u32>, AllocError>
    ensures nodes { IfOk result (λ counts. length counts.items ≡ nodes) }
    ensures times { IfOk result (λ counts. (n : ℕ) → n < nodes → slice_index counts.items n ≡ times n numbers.now) }
    ensures sum { IfOk result (λ counts. sum counts.items ≤ length numbers.now) }
    ensures few { IfOk result (λ counts. sum counts.items < 2 ^ 32) }
{
    if numbers.len() > u32::MAX as usize {
        return Err(AllocError);
    }
    let mut counts = Vec::from_elem(alloc, 0, nodes)?;
    for number in numbers {
        let node = *number as usize;
        if node < nodes {
            counts[node] += 1;
        }
    }
    Ok(counts)
}

/// Makes of the lengths of rows that lie one behind the other where each starts. Gives where the last one ends.
pub fn starts_of(lengths: &mut [u32]) -> u32
    requires { sum lengths.old < 2 ^ 32 }
    ensures starts { AreStarts (ends_from 0 lengths.old) lengths.new }
    ensures end { result ≡ sum lengths.old }
{
    let mut start = 0;
    for row in 0..lengths.len() {
        let end = start + lengths[row];
        lengths[row] = start;
        start = end;
    }
    start
}

/// Makes of the ends of rows where each starts.
pub fn starts_behind(ends: &mut [u32])
    ensures starts { AreStarts ends.old ends.new }
    ensures few { slice_index (0 ∷ ends.old) (length ends.old) < 2 ^ 32 }
{
    let mut start = 0;
    for row in 0..ends.len() {
        let end = ends[row];
        ends[row] = start;
        start = end;
    }
}

/// Notes a node where the next user of each of its prerequisites goes, as often as it names it. Numbers past the end have no
/// users.
pub fn note_user(node: u32, prerequisites: &[u32], next: &mut [u32], users: &mut [u32])
    requires room { (n : ℕ) → n < length next.old → slice_index next.old n + times n prerequisites.now ≤ length users.old }
    requires few { length users.old < 2 ^ 32 }
    ensures next { (n : ℕ) → n < length next.old → slice_index next.new n ≡ slice_index next.old n + times n prerequisites.now }
    ensures rows { (ends : List ℕ) → CanTake (length users.old) ends next.old prerequisites.now → (n : ℕ) → n < length ends
        → filled users.new ends next.new n ≡ filled users.old ends next.old n ++ replicate (times n prerequisites.now) node }
{
    for prerequisite in prerequisites {
        let number = *prerequisite as usize;
        if number < next.len() {
            let place = next[number];
            users[place as usize] = node;
            next[number] = place + 1;
        }
    }
}
