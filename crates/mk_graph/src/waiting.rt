//! Soft edges between groups of nodes.

ghost use Rattle.std.specs.Prelude.{◌≡◌, ℕ, ◌&&◌, ◌||◌, length, map, nat_lt, true, OnOk};
ghost use Rattle.std.specs.List.{list_all};
ghost use Rattle.mk_graph.specs.Edges.{row, has};
ghost use Rattle.mk_graph.specs.Waits.{BeginWith, waits};

use std::alloc::{AllocError, Global};

/// Adds prerequisites to the rows of some nodes.
#[tactic(auto, using(crate::proofs::WaitLemmas::begin_same))]
fn add_to_rows(
    rows: &mut Vec<Vec<u32>>,
    nodes: &[u32],
    prerequisites: &[u32],
) -> Result<(), AllocError>
    requires { list_all (λ n. nat_lt n (length rows.old.items)) nodes.now ≡ true }
    ensures nodes { OnOk result (length rows.new.items ≡ length rows.old.items) }
    ensures members { OnOk result ((n m : ℕ) → has (row (map (λ r. r.items) rows.new.items) n) m
        ≡ (has (row (map (λ r. r.items) rows.old.items) n) m || (has nodes.now n && has prerequisites.now m))) }
    ensures begin { OnOk result (BeginWith (map (λ r. r.items) rows.old.items) (map (λ r. r.items) rows.new.items)) }
{
    for node in nodes {
        let row = &mut rows[*node as usize];
        row.extend_from_slice(prerequisites)?;
    }
    Ok(())
}

/// Adds that each node of a group waits for all nodes of the groups before it: a line of groups of n and m nodes adds
/// n × m numbers to the rows, behind those that they have.
///
/// Where memory is refused, some of them may have been added.
#[tactic(auto, using(crate::proofs::WaitLemmas::begin_same))]
pub fn add_waits(
    alloc: Global,
    rows: &mut Vec<Vec<u32>>,
    groups: &[Vec<u32>],
) -> Result<(), AllocError>
    requires { list_all (λ group. list_all (λ n. nat_lt n (length rows.old.items)) group.items) groups.now ≡ true }
    ensures nodes { OnOk result (length rows.new.items ≡ length rows.old.items) }
    ensures members { OnOk result ((n m : ℕ) → has (row (map (λ r. r.items) rows.new.items) n) m
        ≡ (has (row (map (λ r. r.items) rows.old.items) n) m || waits (map (λ r. r.items) groups.now) n m)) }
    ensures begin { OnOk result (BeginWith (map (λ r. r.items) rows.old.items) (map (λ r. r.items) rows.new.items)) }
{
    let mut before = Vec::new(alloc);
    for group in groups {
        add_to_rows(rows, group, &before)?;
        before.extend_from_slice(group)?;
    }
    Ok(())
}
