//! Reads a text line by line from its front: physical lines, and the logical lines that they are joined to.
ghost use Rattle.std.specs.Prelude.{◌≡◌, ◌&&◌, Bool, false, ◌+◌, ◌<◌, ◌≤◌, ◌==◌, ◌∷◌, ◌++◌, [], length, take, drop, flat_map, IfOk, IfSome, OnOk, Some, option_copied};
ghost use Rattle.std.specs.List.{suffix_len, position_or_len, list_any};
ghost use Rattle.mk_profile.specs.Profile.{is_wide};
ghost use Rattle.mk_lines.specs.Text.{is_newline, is_backslash, begins_with, ends_with, without_last, without_tab};
ghost use Rattle.mk_lines.specs.Search.{is_in_recipe, HasRead};
ghost use Rattle.mk_lines.specs.declared.recipe_search.RecipeSearch.{RecipeSearch};
ghost use Rattle.mk_lines.specs.Lines.{ended_line, goes_on, body, opening, joint, joined_behind, groups, lines_left, rest_of_group, after_group, logical_line, is_recipe, logical_lines, joined_lines, numbered, number_after, physical, size_left};

use crate::line::{Ending, LineText, LogicalLine, PhysicalLine};
use crate::recipe_search::RecipeSearch;
use byte_strings::trim_start;
use memchr::memchr;
use mk_profile::Profile;
use std::alloc::{AllocError, Global};

/// Whether the first byte is this one.
pub fn begins_with(bytes: &[u8], byte: u8) -> bool
    ensures { result ≡ begins_with byte bytes.now }
{
    match bytes.split_first() {
        Some((first, _)) => *first == byte,
        None => false,
    }
}

/// Whether the last byte is this one.
#[tactic(auto, unfolding(crate::specs::Text::ends_with))]
pub fn ends_with(bytes: &[u8], byte: u8) -> bool
    ensures { result ≡ ends_with byte bytes.now }
{
    match bytes.split_last() {
        Some((last, _)) => *last == byte,
        None => false,
    }
}

/// The bytes in front of the last one; none of none.
pub fn without_last(bytes: &[u8]) -> &[u8]
    ensures { result.now ≡ without_last bytes.now }
{
    match bytes.split_last() {
        Some((_, front)) => front,
        None => bytes,
    }
}

#[tactic(auto, unfolding(crate::specs::Text::without_tab))]
fn without_tab(bytes: &[u8]) -> &[u8]
    ensures { result.now ≡ without_tab bytes.now }
{
    match bytes.split_first() {
        Some((b'\t', rest)) => rest,
        _ => bytes,
    }
}

/// The bytes behind the first one; none of none.
pub fn without_first(bytes: &[u8]) -> &[u8]
    ensures { result.now ≡ drop 1 bytes.now }
{
    match bytes.split_first() {
        Some((_, rest)) => rest,
        None => bytes,
    }
}

/// What stands before the byte at this place, and what stands behind it.
pub fn around(bytes: &[u8], at: usize) -> (&[u8], &[u8])
    requires { at < length bytes.now }
    ensures left { result.0.now ≡ take at bytes.now }
    ensures right { result.1.now ≡ drop (at + 1) bytes.now }
{
    let (left, rest) = bytes.split_at(at);
    (left, without_first(rest))
}

/// How many backslashes stand at the end.
fn trailing_backslashes(bytes: &[u8]) -> usize
    ensures { result ≡ suffix_len is_backslash bytes.now }
{
    let mut end = bytes.len();
    while end > 0 && bytes[end - 1] == b'\\' {
        end -= 1;
    }
    bytes.len() - end
}

/// How many bytes stand before the first of these.
#[tactic(auto, using(crate::proofs::PlaceLemmas::first_place))]
pub fn len_before(bytes: &[u8], byte: u8) -> usize
    ensures value { result ≡ position_or_len (λ b. b == byte) bytes.now }
    ensures within { result ≤ length bytes.now }
{
    match memchr(byte, bytes) {
        Some(at) => at,
        None => bytes.len(),
    }
}

#[tactic(auto, unfolding(crate::specs::Lines::ended_line))]
fn ended_line(text: &[u8]) -> PhysicalLine<'_>
    ensures { physical result ≡ ended_line text.now }
{
    if ends_with(text, b'\r') {
        PhysicalLine {
            text: without_last(text),
            ending: Ending::ReturnNewline,
        }
    } else {
        PhysicalLine {
            text,
            ending: Ending::Newline,
        }
    }
}

/// The first physical line, and what is left behind its newline, if it has one.
fn next_line(bytes: &[u8]) -> (PhysicalLine<'_>, Option<&[u8]>)
    ensures lines { lines_left (Some bytes.now) ≡ physical result.0 ∷ lines_left (option_copied result.1) }
    ensures shorter { size_left (option_copied result.1) ≤ length bytes.now }
{
    let (text, rest) = bytes.split_at(len_before(bytes, b'\n'));
    match rest.split_first() {
        Some((_, after)) => (ended_line(text), Some(after)),
        None => {
            let line = PhysicalLine {
                text,
                ending: Ending::EndOfText,
            };
            (line, None)
        }
    }
}

#[tactic(auto, unfolding(crate::specs::Lines::goes_on))]
fn goes_on(line: PhysicalLine<'_>) -> bool
    ensures { result ≡ goes_on (physical line.entry) }
{
    match line.ending {
        Ending::EndOfText => false,
        Ending::Newline | Ending::ReturnNewline => trailing_backslashes(line.text) % 2 == 1,
    }
}

#[tactic(auto, unfolding(crate::specs::Lines::body))]
fn body(line: PhysicalLine<'_>) -> &[u8]
    ensures { result.now ≡ body (physical line.entry) }
{
    if goes_on(line) {
        without_last(line.text)
    } else {
        line.text
    }
}

#[tactic(auto, unfolding(crate::specs::Lines::joint))]
fn push_joint(text: &mut Vec<u8>, is_recipe: bool, line: PhysicalLine<'_>) -> Result<(), AllocError>
    ensures { OnOk result (text.new.items ≡ text.old.items ++ joint is_recipe (physical line.entry)) }
{
    if is_recipe {
        text.extend_from_slice(b"\\\n")?;
        text.extend_from_slice(without_tab(body(line)))
    } else {
        text.push(b' ')?;
        text.extend_from_slice(trim_start(body(line)))
    }
}

#[tactic(auto, unfolding(crate::specs::Lines::opening))]
fn opening(is_recipe: bool, line: PhysicalLine<'_>) -> &[u8]
    ensures { result.now ≡ opening is_recipe (physical line.entry) }
{
    if is_recipe {
        without_first(body(line))
    } else {
        body(line)
    }
}

/// Adds the next line of a text that has been read so far, and reads on in it.
fn push_line(
    text: &mut Vec<u8>,
    search: RecipeSearch,
    line: PhysicalLine<'_>,
) -> Result<RecipeSearch, AllocError>
    ensures text { OnOk result (text.new.items ≡ text.old.items ++ joint (is_in_recipe search.stage) (physical line.entry)) }
    ensures search { IfOk result (λ now. (start : RecipeSearch) → HasRead start text.old.items search → HasRead start text.new.items now) }
{
    let from = text.len();
    push_joint(text, search.is_in_recipe(), line)?;
    Ok(search.past(text.as_slice().split_at(from).1))
}

/// Adds the lines in which `first` goes on. Gives the number of the line behind them, and what is left there.
#[inline(never)]
fn join_rest<'a>(
    text: &mut Vec<u8>,
    profile: Profile,
    is_recipe: bool,
    first: PhysicalLine<'a>,
    first_number: usize,
    left: Option<&'a [u8]>,
) -> Result<(usize, Option<&'a [u8]>), AllocError>
    ensures text { let others = rest_of_group (physical first.entry) (lines_left (option_copied left.entry)) in
        OnOk result (text.new.items ≡ joined_behind is_recipe (is_wide profile) text.old.items others) }
    ensures number { let others = rest_of_group (physical first.entry) (lines_left (option_copied left.entry)) in
        IfOk result (λ found. found.0 ≡ number_after first_number (length (physical first.entry ∷ others))) }
    ensures left { IfOk result (λ found. lines_left (option_copied found.1)
        ≡ after_group (physical first.entry) (lines_left (option_copied left.entry))) }
    ensures shorter { IfOk result (λ found.
        size_left (option_copied found.1) ≤ size_left (option_copied left.entry)) }
{
    let mut search = RecipeSearch::begin(is_recipe, profile).past(text.as_slice());
    let mut last = first;
    let mut number = first_number.saturating_add(1);
    let mut left = left;
    while goes_on(last) {
        let Some(bytes) = left else { break };
        let (line, after) = next_line(bytes);
        let read = push_line(text, search, line)?;
        search = read;
        last = line;
        left = after;
        number = number.saturating_add(1);
    }
    Ok((number, left))
}

/// How a line that doesn't go on begins the text of a logical line: it is all of that.
#[tactic(auto, unfolding(crate::specs::Lines::opening, crate::specs::Lines::body))]
fn alone(is_recipe: bool, line: PhysicalLine<'_>) -> &[u8]
    requires { goes_on (physical line) ≡ false }
    ensures { result.now ≡ opening is_recipe (physical line.entry) }
{
    if is_recipe {
        without_first(line.text)
    } else {
        line.text
    }
}

/// The text of the logical line that begins with `first`, the number of the line behind it, and what is left there.
#[tactic(auto, using(crate::proofs::LinesLemmas::text_alone, crate::proofs::LinesLemmas::number_alone, crate::proofs::LinesLemmas::left_alone))]
fn whole_text<'a>(
    alloc: Global,
    profile: Profile,
    number: usize,
    is_recipe: bool,
    first: PhysicalLine<'a>,
    left: Option<&'a [u8]>,
) -> Result<(LineText<'a>, usize, Option<&'a [u8]>), AllocError>
    ensures text { let others = rest_of_group (physical first.entry) (lines_left (option_copied left.entry)) in
        IfOk result (λ found. found.0 ≡ joined_behind is_recipe (is_wide profile) (opening is_recipe (physical first.entry)) others) }
    ensures number { let others = rest_of_group (physical first.entry) (lines_left (option_copied left.entry)) in
        IfOk result (λ found. found.1 ≡ number_after number (length (physical first.entry ∷ others))) }
    ensures left { IfOk result (λ found. lines_left (option_copied found.2)
        ≡ after_group (physical first.entry) (lines_left (option_copied left.entry))) }
    ensures shorter { IfOk result (λ found.
        size_left (option_copied found.2) ≤ size_left (option_copied left.entry)) }
{
    if !goes_on(first) {
        let text = LineText::part(alone(is_recipe, first));
        return Ok((text, number.saturating_add(1), left));
    }
    let mut text = Vec::from_slice(alloc, opening(is_recipe, first))?;
    let (next_number, left) = join_rest(&mut text, profile, is_recipe, first, number, left)?;
    Ok((LineText::joined(text), next_number, left))
}

/// The logical line that the bytes begin with, the number of the line behind it, and what is left there.
pub fn next_logical_line(
    alloc: Global,
    profile: Profile,
    number: usize,
    bytes: &[u8],
) -> Result<(LogicalLine<'_>, usize, Option<&[u8]>), AllocError>
    ensures line { IfOk result (λ found. logical_lines (is_wide profile) number (Some bytes.now)
        ≡ found.0 ∷ logical_lines (is_wide profile) found.1 (option_copied found.2)) }
    ensures shorter { IfOk result (λ found. size_left (option_copied found.2) ≤ length bytes.now) }
{
    let (first, left) = next_line(bytes);
    let is_recipe = begins_with(first.text, b'\t');
    let (text, next_number, left) = whole_text(alloc, profile, number, is_recipe, first, left)?;
    let line = LogicalLine {
        number,
        is_recipe,
        text,
    };
    Ok((line, next_number, left))
}

/// The line that the bytes begin with, joined as one that is no recipe line, and what is left behind it. For other
/// texts than makefiles that go on behind a backslash.
pub fn next_joined_line(alloc: Global, bytes: &[u8]) -> Result<(Vec<u8>, Option<&[u8]>), AllocError>
    ensures line { IfOk result (λ found. joined_lines (Some bytes.now)
        ≡ found.0.items ∷ joined_lines (option_copied found.1)) }
    ensures shorter { IfOk result (λ found. size_left (option_copied found.1) ≤ length bytes.now) }
{
    let (first, left) = next_line(bytes);
    let mut text = Vec::from_slice(alloc, opening(false, first))?;
    let (_, left) = join_rest(&mut text, Profile::Strict, false, first, 1, left)?;
    Ok((text, left))
}
