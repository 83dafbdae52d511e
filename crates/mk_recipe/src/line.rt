//! The lines of a recipe, and those that the state keeps.
ghost use Rattle.std.specs.Prelude.{◌≡◌, ◌⊎◌, ◌↔◌, ◌≤◌, ℕ, List, false, length, option_copied, IfOk, IsTrue};
ghost use Rattle.std.specs.List.{prefix_len};
ghost use Rattle.mk_profile.specs.Profile.{is_wide};
ghost use Rattle.mk_profile.specs.declared.profile.Profile.{Profile as Language};
ghost use Rattle.mk_macros.specs.Mention.{RefersToNewer};
ghost use Rattle.mk_recipe.specs.Line.{front, text_of, is_front, is_blank_text, has, StandsIn, CallsMake, IsLine, IsKept, Records};
ghost use Rattle.mk_recipe.specs.Tests.{is_recorded};

use bstr::ByteSlice;
use byte_strings::{ByteString, ByteStrings, is_blank};
use mk_macros::refers_to_newer;
use mk_profile::Profile;
use std::alloc::{AllocError, Global};

/// A line of a recipe, expanded and without its prefixes.
#[derive(Debug)]
pub struct Line {
    /// What the shell is given.
    pub text: ByteString,
    /// The line is printed before it is run.
    pub is_printed: bool,
    /// The status of the line doesn't matter.
    pub is_ignored: bool,
    /// A change of the line doesn't make the target out of date.
    pub is_exempt: bool,
    /// The line is run in a dry run too.
    pub is_always_run: bool,
}

impl Drop for Line {
    fn drop(self) {
        let Line {
            text: _,
            is_printed: _,
            is_ignored: _,
            is_exempt: _,
            is_always_run: _,
        } = self;
    }
}

/// What may stand in front of a line's text.
fn is_front(byte: u8) -> bool
    ensures { result ≡ is_front byte }
{
    is_blank(byte) || byte == b'+' || byte == b'-' || byte == b'@' || byte == b'?' || byte == b'!'
}

fn front_len(bytes: &[u8]) -> usize
    ensures value { result ≡ prefix_len is_front bytes.now }
    ensures within { result ≤ length bytes.now }
{
    let mut count = 0;
    while count < bytes.len() && is_front(bytes[count]) {
        count += 1;
    }
    count
}

fn has(bytes: &[u8], byte: u8) -> bool
    ensures { result ≡ has byte bytes.now }
{
    bytes.iter().any(|b| *b == byte)
}

fn is_blank_text(bytes: &[u8]) -> bool
    ensures { result ≡ is_blank_text bytes.now }
{
    bytes.iter().all(|byte| is_blank(*byte))
}

/// These bytes stand somewhere in the text.
fn stands_in(bytes: &[u8], text: &[u8]) -> bool
    ensures { IsTrue result ↔ StandsIn bytes.now text.now }
{
    text.contains_str(bytes)
}

/// The line calls make by its macro, in either spelling.
fn calls_make(unexpanded: &[u8]) -> bool
    ensures { IsTrue result ↔ CallsMake unexpanded.now }
{
    stands_in(b"$(MAKE)".as_slice(), unexpanded) || stands_in(b"${MAKE}".as_slice(), unexpanded)
}

/// The line is run in a dry run too, with these prefixes.
fn is_always_run(profile: Profile, unexpanded: &[u8], front: &[u8]) -> bool
    ensures { IsTrue result ↔ (IsTrue (is_wide profile) × (IsTrue (has 43 front.now) ⊎ CallsMake unexpanded.now)) }
{
    profile.is_wide() && (has(front, b'+') || calls_make(unexpanded))
}

/// The line isn't compared with what the state has, with these prefixes.
fn is_exempt(profile: Profile, unexpanded: &[u8], front: &[u8]) -> bool
    ensures { IsTrue result ↔ ((has 33 front.now ≡ false) × (IsTrue (has 63 front.now) ⊎ RefersToNewer (is_wide profile) unexpanded.now)) }
{
    !has(front, b'!') && (has(front, b'?') || refers_to_newer(profile, unexpanded))
}

/// The prefixes of an expanded line, and what is left behind them.
#[tactic(auto, unfolding(crate::specs::Line::front, crate::specs::Line::text_of))]
fn parted(expanded: &[u8]) -> (&[u8], &[u8])
    ensures front { result.0.now ≡ front expanded.now }
    ensures text { result.1.now ≡ text_of expanded.now }
{
    expanded.split_at(front_len(expanded))
}

/// The line that an unexpanded and an expanded text give, in this language: its prefixes are those of the expanded one, and a
/// reference to `$?` in the unexpanded one exempts it too.
pub fn split_line(
    alloc: Global,
    profile: Profile,
    unexpanded: &[u8],
    expanded: &[u8],
) -> Result<Line, AllocError>
    ensures { IfOk result (IsLine profile unexpanded.now expanded.now) }
{
    let (front, text) = parted(expanded);
    Ok(Line {
        text: ByteString::from_slice(alloc, text)?,
        is_printed: !has(front, b'@') && !is_blank_text(text),
        is_ignored: has(front, b'-'),
        is_exempt: is_exempt(profile, unexpanded, front),
        is_always_run: is_always_run(profile, unexpanded, front),
    })
}

/// What the state keeps of the line that an unexpanded and an expanded text give, in this language: its text, unless the line is
/// exempt or blank. It takes no memory.
pub fn kept_text<'e>(profile: Profile, unexpanded: &[u8], expanded: &'e [u8]) -> Option<&'e [u8]>
    ensures { IsKept profile unexpanded.now expanded.now (option_copied result) }
{
    let (front, text) = parted(expanded);
    if is_exempt(profile, unexpanded, front) {
        return None;
    }
    if is_blank_text(text) {
        return None;
    }
    Some(text)
}

/// What stands in front of a line exempts it.
fn is_front_exempt(front: &[u8]) -> bool
    ensures { IsTrue result ↔ ((has 33 front.now ≡ false) × IsTrue (has 63 front.now)) }
{
    !has(front, b'!') && has(front, b'?')
}

/// What the state keeps of the line that an expanded text gives, where the unexpanded one has no reference to `$?`.
pub fn kept_of_expanded<'e>(expanded: &'e [u8]) -> Option<&'e [u8]>
    ensures { (profile : Language) (unexpanded : List ℕ) → (RefersToNewer (is_wide profile) unexpanded → ⊥)
        → IsKept profile unexpanded expanded.now (option_copied result) }
{
    let (front, text) = parted(expanded);
    if is_front_exempt(front) {
        return None;
    }
    if !is_blank_text(text) {
        return Some(text);
    }
    None
}

impl Line {
    /// Whether the line's text is a part of the commands that the state keeps.
    fn is_recorded(&self) -> bool
        ensures { result ≡ is_recorded self.now }
    {
        !self.is_exempt && !self.is_blank()
    }

    /// The line has nothing but blanks: it is neither printed nor run nor recorded.
    pub fn is_blank(&self) -> bool
        ensures { result ≡ is_blank_text self.now.text }
    {
        is_blank_text(self.text.as_slice())
    }
}

/// The commands that the state keeps of these lines: the texts of those that are neither exempt nor blank, in order.
pub fn recorded(alloc: Global, lines: &[Line]) -> Result<ByteStrings, AllocError>
    ensures { IfOk result (λ commands. Records lines.now commands) }
{
    let mut commands = ByteStrings::empty(alloc);
    for line in lines {
        if line.is_recorded() {
            commands.push(line.text.as_slice())?;
        }
    }
    Ok(commands)
}
