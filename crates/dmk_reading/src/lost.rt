//! Names that have no file and that nothing makes, where a run goes on without them, and what isn't made for want of one.
ghost use Rattle.std.specs.Prelude.{◌≡◌, ◌↔◌, ◌<◌, ◌||◌, ◌&&◌, ℕ, true, map, length, nat_eq, nat_lt, IfOk};
ghost use Rattle.std.specs.List.{list_any};
ghost use Rattle.mk_graph.specs.Edges.{row, has};
ghost use Rattle.mk_names.specs.Names.{name_at};
ghost use Rattle.mk_plan.specs.Nodes.{is_marked};
ghost use Rattle.dmk_reading.specs.Lost.{goes_without, IsLost, StandsOn};
ghost use Rattle.dmk_reading.specs.Passing.{PassesEach};

use byte_strings::ByteString;
use mk_graph::Edges;
use mk_nodes::Graph;
use mk_plan::name_of;
use mk_profile::Profile;
use mk_rule_lines::Unmade;
use std::alloc::{AllocError, Global};

/// Whether a run goes on without names that have no file and that nothing makes.
pub fn goes_without(profile: Profile, goes_on: bool) -> bool
    ensures { result ≡ goes_without profile goes_on }
{
    profile.is_wide() && goes_on
}

/// Of each node the first one by number that isn't made without it.
fn users_of(alloc: Global, graph: &Graph) -> Result<Vec<Option<usize>>, AllocError> {
    let mut users = vec![in alloc; None; graph.len()]?;
    let required = graph.required_edges();
    for user in 0..required.len() {
        for node in required.row(user) {
            let node = *node as usize;
            if node < users.len() && users[node].is_none() {
                users[node] = Some(user);
            }
        }
    }
    Ok(users)
}

/// The name of such a node, and that of the one that isn't made without it.
fn unmade_at(
    alloc: Global,
    graph: &Graph,
    users: &[Option<usize>],
    node: usize,
) -> Result<Unmade, AllocError>
    ensures { IfOk result (λ unmade. unmade.name ≡ name_at graph.now.names node) }
{
    let name = ByteString::from_slice(alloc, name_of(graph, node))?;
    let mut needed_by = None;
    if let Some(Some(user)) = users.get(node) {
        needed_by = Some(ByteString::from_slice(alloc, name_of(graph, *user))?);
    }
    Ok(Unmade { name, needed_by })
}

/// The names of these nodes so, in turn.
fn names_at(
    alloc: Global,
    graph: &Graph,
    users: &[Option<usize>],
    nodes: &[usize],
) -> Result<Vec<Unmade>, AllocError>
    ensures { IfOk result (λ told. map (λ u. u.name) told.items ≡ map (name_at graph.now.names) nodes.now) }
{
    let mut told = Vec::new(alloc);
    for node in nodes {
        told.push(unmade_at(alloc, graph, users, *node)?)?;
    }
    Ok(told)
}

/// All such names, in the order of their numbers, each with the first name, by number, that isn't made without it.
pub fn unmade_names(alloc: Global, graph: &Graph) -> Result<Vec<Unmade>, AllocError>
    ensures { IfOk result (λ told. map (λ u. u.name) told.items ≡ map (name_at graph.now.names) graph.now.unmade.items) }
{
    if graph.unmade.is_empty() {
        return Ok(Vec::new(alloc));
    }
    let users = users_of(alloc, graph)?;
    names_at(alloc, graph, &users, &graph.unmade)
}

/// Whether a node is marked as one that is lost.
pub fn is_lost(lost: &[bool], node: usize) -> bool
    ensures { result ≡ is_marked lost.now node }
{
    match lost.get(node) {
        Some(mark) => *mark,
        None => false,
    }
}

/// Whether one is marked in the row of a node.
fn has_lost(lost: &[bool], rows: &Edges, node: usize) -> bool
    ensures { result ≡ list_any (is_marked lost.now) (row rows.now node) }
{
    if node >= rows.len() {
        return false;
    }
    rows.row(node)
        .iter()
        .any(|one| is_lost(lost, *one as usize))
}

fn mark(lost: &mut Vec<bool>, node: usize)
    ensures count { length lost.new.items ≡ length lost.old.items }
    ensures marks { (n : ℕ) → is_marked lost.new.items n ≡ (is_marked lost.old.items n || (nat_eq n node && nat_lt n (length lost.old.items))) }
{
    if node < lost.len() {
        lost[node] = true;
    }
}

fn mark_all(lost: &mut Vec<bool>, nodes: &[usize])
    ensures count { length lost.new.items ≡ length lost.old.items }
    ensures marks { (n : ℕ) → is_marked lost.new.items n ≡ (is_marked lost.old.items n || (has nodes.now n && nat_lt n (length lost.old.items))) }
{
    for node in nodes {
        mark(lost, *node);
    }
}

/// Marks a node where one is marked in its row.
fn mark_user(lost: &mut Vec<bool>, rows: &Edges, node: usize)
    ensures count { length lost.new.items ≡ length lost.old.items }
    ensures marks { (n : ℕ) → is_marked lost.new.items n
        ≡ (is_marked lost.old.items n || ((nat_eq n node && nat_lt n (length lost.old.items)) && list_any (is_marked lost.old.items) (row rows.now node))) }
{
    if has_lost(lost, rows, node) {
        mark(lost, node);
    }
}

/// Which nodes stand on some, by their numbers: these, and again and again what isn't made without one of them.
pub fn nodes_on(alloc: Global, graph: &Graph, nodes: &[usize]) -> Result<Vec<bool>, AllocError>
    ensures count { IfOk result (λ marks. length marks.items ≡ length graph.now.nodes.items) }
    ensures marks { PassesEach graph.now → IfOk result (λ marks. (n : ℕ) → n < length graph.now.nodes.items
        → (is_marked marks.items n ≡ true) ↔ StandsOn graph.now (λ m. has nodes.now m ≡ true) n) }
{
    let mut lost = vec![in alloc; false; graph.len()]?;
    mark_all(&mut lost, nodes);
    let rows = graph.required_edges();
    for node in graph.order.as_slice() {
        mark_user(&mut lost, rows, *node);
    }
    Ok(lost)
}

/// Which nodes are lost, by their numbers. Where nothing makes none of the names there are no marks.
pub fn lost_nodes(alloc: Global, graph: &Graph) -> Result<Vec<bool>, AllocError>
    ensures { PassesEach graph.now → IfOk result (λ lost. (n : ℕ) → n < length graph.now.nodes.items
        → (is_marked lost.items n ≡ true) ↔ IsLost graph.now n) }
{
    if graph.unmade.is_empty() {
        return Ok(Vec::new(alloc));
    }
    nodes_on(alloc, graph, &graph.unmade)
}
