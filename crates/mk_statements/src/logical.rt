//! Logical lines, from the front of a text.
ghost use Rattle.std.specs.Prelude.{◌≡◌, ◌+◌, ◌≤◌, ◌++◌, length, flat_map, true, IfOk, OnOk, option_copied};
ghost use Rattle.mk_lines.specs.Text.{without_tab};
ghost use Rattle.mk_lines.specs.Lines.{body, joint, lines_left, rest_of_group, after_group, number_after, size_left};
ghost use Rattle.mk_statements.specs.Logical.{physical, before_newline, with_line, joined_behind, IsNext};

use crate::physical::{PhysicalLine, next_line};
use byte_strings::{trim_end, trim_start};
use mk_lines::{LineText, begins_with, without_first};
use std::alloc::{AllocError, Global};

/// The text of a logical line.
#[derive(Drop)]
pub(crate) struct LogicalText<'a> {
    /// With its backslashes and newlines, as in a recipe.
    pub(crate) kept: LineText<'a>,
    /// With a space in place of each of these.
    pub(crate) joined: LineText<'a>,
}

/// The text without a TAB that stands first.
#[tactic(auto, unfolding(mk_lines::specs::Text::without_tab))]
fn without_tab(bytes: &[u8]) -> &[u8]
    ensures { result.now ≡ without_tab bytes.now }
{
    if begins_with(bytes, b'\t') {
        without_first(bytes)
    } else {
        bytes
    }
}

#[tactic(auto, unfolding(mk_lines::specs::Lines::joint))]
fn push_kept(text: &mut Vec<u8>, line: PhysicalLine<'_>) -> Result<(), AllocError>
    ensures { OnOk result (text.new.items ≡ text.old.items ++ joint true (physical line.entry)) }
{
    text.extend_from_slice(b"\\\n")?;
    text.extend_from_slice(without_tab(line.body()))
}

#[tactic(auto, using(crate::proofs::LogicalLemmas::line_added))]
fn push_joined(text: &mut Vec<u8>, line: PhysicalLine<'_>) -> Result<(), AllocError>
    ensures { OnOk result (text.new.items ≡ with_line text.old.items (physical line.entry)) }
{
    text.truncate(trim_end(text.as_slice()).len());
    text.push(b' ')?;
    text.extend_from_slice(trim_start(line.before_newline()))?;
    Ok(())
}

/// Adds the lines in which `first` goes on. Gives the number of the line behind them, and what is left there.
fn join_rest<'a>(
    kept: &mut Vec<u8>,
    joined: &mut Vec<u8>,
    first: PhysicalLine<'a>,
    first_number: usize,
    left: Option<&'a [u8]>,
) -> Result<(usize, Option<&'a [u8]>), AllocError>
    ensures kept { let others = rest_of_group (physical first.entry) (lines_left (option_copied left.entry)) in
        OnOk result (kept.new.items ≡ kept.old.items ++ flat_map (joint true) others) }
    ensures joined { let others = rest_of_group (physical first.entry) (lines_left (option_copied left.entry)) in
        OnOk result (joined.new.items ≡ joined_behind joined.old.items others) }
    ensures number { let others = rest_of_group (physical first.entry) (lines_left (option_copied left.entry)) in
        IfOk result (λ found. found.0 ≡ number_after first_number (length others + 1)) }
    ensures left { IfOk result (λ found. lines_left (option_copied found.1)
        ≡ after_group (physical first.entry) (lines_left (option_copied left.entry))) }
    ensures shorter { IfOk result (λ found.
        size_left (option_copied found.1) ≤ size_left (option_copied left.entry)) }
{
    let mut last = first;
    let mut number = first_number.saturating_add(1);
    let mut left = left;
    while last.goes_on() {
        let Some(bytes) = left else { break };
        let (line, after) = next_line(bytes);
        push_kept(kept, line)?;
        push_joined(joined, line)?;
        last = line;
        left = after;
        number = number.saturating_add(1);
    }
    Ok((number, left))
}

/// The logical line that begins with `first`, the number of the line behind it, and what is left there.
#[tactic(auto, using(crate::proofs::LogicalLemmas::kept_alone, crate::proofs::LogicalLemmas::joined_alone, crate::proofs::LogicalLemmas::number_alone, mk_lines::proofs::LinesLemmas::left_alone))]
fn whole_text<'a>(
    alloc: Global,
    number: usize,
    first: PhysicalLine<'a>,
    left: Option<&'a [u8]>,
) -> Result<(LogicalText<'a>, usize, Option<&'a [u8]>), AllocError>
    ensures kept { let others = rest_of_group (physical first.entry) (lines_left (option_copied left.entry)) in
        IfOk result (λ found. found.0.kept ≡ body (physical first.entry) ++ flat_map (joint true) others) }
    ensures joined { let others = rest_of_group (physical first.entry) (lines_left (option_copied left.entry)) in
        IfOk result (λ found. found.0.joined ≡ joined_behind (before_newline (physical first.entry)) others) }
    ensures number { let others = rest_of_group (physical first.entry) (lines_left (option_copied left.entry)) in
        IfOk result (λ found. found.1 ≡ number_after number (length others + 1)) }
    ensures left { IfOk result (λ found. lines_left (option_copied found.2)
        ≡ after_group (physical first.entry) (lines_left (option_copied left.entry))) }
    ensures shorter { IfOk result (λ found.
        size_left (option_copied found.2) ≤ size_left (option_copied left.entry)) }
{
    if !first.goes_on() {
        let text = LogicalText {
            kept: LineText::part(first.body()),
            joined: LineText::part(first.body()),
        };
        return Ok((text, number.saturating_add(1), left));
    }
    let mut kept = Vec::from_slice(alloc, first.body())?;
    let mut joined = Vec::from_slice(alloc, first.before_newline())?;
    let (next, left) = join_rest(&mut kept, &mut joined, first, number, left)?;
    let text = LogicalText {
        kept: LineText::joined(kept),
        joined: LineText::joined(joined),
    };
    Ok((text, next, left))
}

/// The logical line that the bytes begin with, the number of the line behind it, and what is left there.
pub(crate) fn next_logical(
    alloc: Global,
    number: usize,
    bytes: &[u8],
) -> Result<(LogicalText<'_>, usize, Option<&[u8]>), AllocError>
    ensures line { IfOk result (λ found. IsNext number bytes.now found.0 found.1 (option_copied found.2)) }
    ensures shorter { IfOk result (λ found. size_left (option_copied found.2) ≤ length bytes.now) }
{
    let (first, left) = next_line(bytes);
    let (text, next, left) = whole_text(alloc, number, first, left)?;
    Ok((text, next, left))
}
