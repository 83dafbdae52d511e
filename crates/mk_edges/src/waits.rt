//! What stands behind a `.WAIT` waits for what stands before it.
ghost use Rattle.std.specs.Prelude.{◌≡◌, ◌<◌, ◌&&◌, ◌||◌, ℕ, List, length, map, filter, nat_lt, true, IfOk, OnOk};
ghost use Rattle.std.specs.List.{IsDistinct, list_any, list_all};
ghost use Rattle.std.specs.Str.{bytes_eq};
ghost use Rattle.mk_graph.specs.Edges.{row, is_closed, has as has_number};
ghost use Rattle.mk_names.specs.Names.{has_name, name_at};
ghost use Rattle.mk_graph.specs.Waits.{BeginWith};
ghost use Rattle.mk_rule_lines.specs.Explicit.{is_wait};
ghost use Rattle.mk_nodes.specs.Waits.{groups_of, orders, line_orders, waits_in};

use crate::rows::apart;
use byte_strings::ByteStrings;
use mk_graph::{Edges, add_waits};
use mk_names::Names;
use mk_rule_lines::{LineWords, RuleLine, is_wait, words_by};
use std::alloc::{AllocError, Global};

/// Whether a `.WAIT` is among the words, which aren't cut where its second byte stands nowhere.
#[tactic(auto, using(crate::proofs::WaitLemmas::no_wait))]
fn any_wait(words: &LineWords) -> bool
    ensures { result ≡ list_any is_wait words.now }
{
    words.has_byte(b'W') && words.iter().any(|word| is_wait(word))
}

/// Whether a line has a `.WAIT` among its prerequisites.
fn any_line_waits(lines: &[RuleLine]) -> bool
    ensures { result ≡ list_any waits_in lines.now }
{
    lines.iter().any(|line| any_wait(&line.prerequisites))
}

fn any_number(names: &Names, words: &ByteStrings) -> bool
    ensures { result ≡ list_any (has_name names.now) words.now }
{
    words.iter().any(|word| names.number_of(word).is_some())
}

/// The numbers of these words, in groups between the `.WAIT`s. A name without a number is passed over.
fn number_groups(
    alloc: Global,
    names: &Names,
    words: &ByteStrings,
) -> Result<Vec<Vec<u32>>, AllocError>
    ensures groups { IfOk result (λ groups. map (map (name_at names.now)) (map (λ g. g.items) groups.items)
        ≡ map (filter (has_name names.now)) (groups_of words.now)) }
    ensures nodes { IfOk result (λ groups. list_all (λ g. list_all (λ n. nat_lt n (length names.now)) g.items) groups.items ≡ true) }
{
    let mut groups = Vec::new(alloc);
    let mut group = Vec::new(alloc);
    for word in words.iter() {
        if is_wait(word) {
            groups.push(group)?;
            group = Vec::new(alloc);
        } else if let Some(number) = names.number_of(word) {
            group.push(number)?;
        }
    }
    groups.push(group)?;
    Ok(groups)
}

/// Adds that the nodes of a group wait for those of the groups before it: the groups are told by name.
fn add_groups(
    alloc: Global,
    rows: &mut Vec<Vec<u32>>,
    names: &Names,
    groups: &[Vec<u32>],
) -> Result<(), AllocError>
    requires nodes { length rows.old.items ≡ length names.now }
    requires names { IsDistinct bytes_eq names.now }
    requires groups { list_all (λ g. list_all (λ n. nat_lt n (length names.now)) g.items) groups.now ≡ true }
    ensures nodes { OnOk result (length rows.new.items ≡ length rows.old.items) }
    ensures members { OnOk result ((told : List (List (List ℕ)))
        → map (map (name_at names.now)) (map (λ g. g.items) groups.now) ≡ map (filter (has_name names.now)) told
        → (n m : ℕ) → n < length names.now → m < length names.now
        → has_number (row (map (λ r. r.items) rows.new.items) n) m
        ≡ (has_number (row (map (λ r. r.items) rows.old.items) n) m || orders told (name_at names.now m) (name_at names.now n))) }
    ensures closed { OnOk result (is_closed (map (λ r. r.items) rows.old.items) ≡ true → is_closed (map (λ r. r.items) rows.new.items) ≡ true) }
    ensures begin { OnOk result (BeginWith (map (λ r. r.items) rows.old.items) (map (λ r. r.items) rows.new.items)) }
{
    add_waits(alloc, rows, groups)
}

/// Adds what the `.WAIT`s among these words say.
fn add_word_waits(
    alloc: Global,
    rows: &mut Vec<Vec<u32>>,
    names: &Names,
    words: &ByteStrings,
) -> Result<(), AllocError>
    requires nodes { length rows.old.items ≡ length names.now }
    requires names { IsDistinct bytes_eq names.now }
    ensures nodes { OnOk result (length rows.new.items ≡ length rows.old.items) }
    ensures members { OnOk result ((n m : ℕ) → n < length names.now → m < length names.now
        → has_number (row (map (λ r. r.items) rows.new.items) n) m
        ≡ (has_number (row (map (λ r. r.items) rows.old.items) n) m
        || orders (groups_of words.now) (name_at names.now m) (name_at names.now n))) }
    ensures closed { OnOk result (is_closed (map (λ r. r.items) rows.old.items) ≡ true → is_closed (map (λ r. r.items) rows.new.items) ≡ true) }
    ensures begin { OnOk result (BeginWith (map (λ r. r.items) rows.old.items) (map (λ r. r.items) rows.new.items)) }
{
    let groups = number_groups(alloc, names, words)?;
    add_groups(alloc, rows, names, &groups)
}

/// Adds what a line's `.WAIT`s say, where the line makes a node by name.
fn add_line_waits(
    alloc: Global,
    rows: &mut Vec<Vec<u32>>,
    names: &Names,
    suffixes: &ByteStrings,
    line: &RuleLine,
) -> Result<(), AllocError>
    requires nodes { length rows.old.items ≡ length names.now }
    requires names { IsDistinct bytes_eq names.now }
    ensures nodes { OnOk result (length rows.new.items ≡ length rows.old.items) }
    ensures members { OnOk result ((n m : ℕ) → n < length names.now → m < length names.now
        → has_number (row (map (λ r. r.items) rows.new.items) n) m
        ≡ (has_number (row (map (λ r. r.items) rows.old.items) n) m
        || line_orders names.now suffixes.now (name_at names.now m) (name_at names.now n) line.now)) }
    ensures closed { OnOk result (is_closed (map (λ r. r.items) rows.old.items) ≡ true → is_closed (map (λ r. r.items) rows.new.items) ≡ true) }
    ensures begin { OnOk result (BeginWith (map (λ r. r.items) rows.old.items) (map (λ r. r.items) rows.new.items)) }
{
    if !any_wait(&line.prerequisites) {
        return Ok(());
    }
    let targets = line.targets_by(alloc, suffixes, false)?;
    if !any_number(names, &targets) {
        return Ok(());
    }
    let ordinary = words_by(alloc, line, false)?;
    let order_only = words_by(alloc, line, true)?;
    add_word_waits(alloc, rows, names, &ordinary)?;
    add_word_waits(alloc, rows, names, &order_only)
}

/// Adds what the `.WAIT`s of all lines say.
fn add_all_waits(
    alloc: Global,
    rows: &mut Vec<Vec<u32>>,
    names: &Names,
    suffixes: &ByteStrings,
    lines: &[RuleLine],
) -> Result<(), AllocError>
    requires nodes { length rows.old.items ≡ length names.now }
    requires names { IsDistinct bytes_eq names.now }
    ensures nodes { OnOk result (length rows.new.items ≡ length rows.old.items) }
    ensures members { OnOk result ((n m : ℕ) → n < length names.now → m < length names.now
        → has_number (row (map (λ r. r.items) rows.new.items) n) m
        ≡ (has_number (row (map (λ r. r.items) rows.old.items) n) m
        || list_any (line_orders names.now suffixes.now (name_at names.now m) (name_at names.now n)) lines.now)) }
    ensures closed { OnOk result (is_closed (map (λ r. r.items) rows.old.items) ≡ true → is_closed (map (λ r. r.items) rows.new.items) ≡ true) }
    ensures begin { OnOk result (BeginWith (map (λ r. r.items) rows.old.items) (map (λ r. r.items) rows.new.items)) }
{
    for line in lines {
        add_line_waits(alloc, rows, names, suffixes, line)?;
    }
    Ok(())
}

/// These edges, and what the `.WAIT`s of all lines say. Most makefiles have none, so that the rows aren't parted.
pub(crate) fn with_waits(
    alloc: Global,
    edges: Edges,
    names: &Names,
    suffixes: &ByteStrings,
    lines: &[RuleLine],
) -> Result<Edges, AllocError>
    requires nodes { length edges ≡ length names.now }
    requires names { IsDistinct bytes_eq names.now }
    ensures nodes { IfOk result (λ more. length more ≡ length edges) }
    ensures members { IfOk result (λ more. (n m : ℕ) → n < length names.now → m < length names.now
        → has_number (row more n) m
        ≡ (has_number (row edges n) m || list_any (line_orders names.now suffixes.now (name_at names.now m) (name_at names.now n)) lines.now)) }
    ensures closed { IfOk result (λ more. is_closed edges ≡ true → is_closed more ≡ true) }
    ensures begin { IfOk result (BeginWith edges) }
{
    if !any_line_waits(lines) {
        return Ok(edges);
    }
    let mut rows = apart(alloc, &edges)?;
    add_all_waits(alloc, &mut rows, names, suffixes, lines)?;
    Edges::of_rows(alloc, &rows)
}
