//! Graphs whose rows have each number once.
ghost use Rattle.std.specs.Prelude.{◌≡◌, ℕ, ◌≤◌, IsTrue};
ghost use Rattle.mk_graph.specs.Edges.{row, times};

use mk_graph::Edges;

/// Each number is below the next one.
fn ascends(numbers: &[u32]) -> bool
    ensures { IsTrue result → (n : ℕ) → times n numbers.now ≤ 1 }
{
    for place in 1..numbers.len() {
        if numbers[place - 1] >= numbers[place] {
            return false;
        }
    }
    true
}

/// Whether each row has its numbers in ascending order.
pub fn are_sets(edges: &Edges) -> bool
    ensures { IsTrue result → (u n : ℕ) → times n (row edges.now u) ≤ 1 }
{
    for node in 0..edges.len() {
        if !ascends(edges.row(node)) {
            return false;
        }
    }
    true
}
