//! Physical lines, from the front of a text.
ghost use Rattle.std.specs.Prelude.{◌≡◌, ◌+◌, ◌≤◌, ◌∷◌, length, Some, option_copied};
ghost use Rattle.std.specs.List.{suffix_len};
ghost use Rattle.mk_lines.specs.Text.{is_backslash};
ghost use Rattle.mk_lines.specs.Lines.{ended_line, goes_on, body, lines_left, size_left};
ghost use Rattle.mk_statements.specs.Logical.{physical, before_newline};

use mk_lines::{ends_with, len_before, without_last};

/// What ends a physical line.
#[derive(Clone, Copy)]
pub(crate) enum Ending {
    EndOfText,
    Newline,
    /// A carriage return and a newline.
    ReturnNewline,
}

/// A line as it stands in the text, without its ending.
#[derive(Clone, Copy)]
pub(crate) struct PhysicalLine<'a> {
    text: &'a [u8],
    ending: Ending,
}

#[tactic(auto, unfolding(mk_lines::specs::Lines::ended_line))]
fn ended_line(text: &[u8]) -> PhysicalLine<'_>
    ensures { physical result ≡ ended_line text.now }
{
    if ends_with(text, b'\r') {
        PhysicalLine {
            text: without_last(text),
            ending: Ending::ReturnNewline,
        }
    } else {
        PhysicalLine {
            text,
            ending: Ending::Newline,
        }
    }
}

/// The first physical line, and what is left behind its newline, if it has one.
pub(crate) fn next_line(bytes: &[u8]) -> (PhysicalLine<'_>, Option<&[u8]>)
    ensures lines { lines_left (Some bytes.now) ≡ physical result.0 ∷ lines_left (option_copied result.1) }
    ensures shorter { size_left (option_copied result.1) ≤ length bytes.now }
{
    let (text, rest) = bytes.split_at(len_before(bytes, b'\n'));
    match rest.split_first() {
        Some((_, after)) => (ended_line(text), Some(after)),
        None => {
            let line = PhysicalLine {
                text,
                ending: Ending::EndOfText,
            };
            (line, None)
        }
    }
}

/// How many backslashes stand at the end.
fn trailing_backslashes(bytes: &[u8]) -> usize
    ensures value { result ≡ suffix_len is_backslash bytes.now }
    ensures within { result ≤ length bytes.now }
{
    let mut end = bytes.len();
    while end > 0 && bytes[end - 1] == b'\\' {
        end -= 1;
    }
    bytes.len() - end
}

impl<'a> PhysicalLine<'a> {
    #[tactic(auto, unfolding(mk_lines::specs::Lines::goes_on))]
    pub(crate) fn goes_on(self) -> bool
        ensures { result ≡ goes_on (physical self.entry) }
    {
        match self.ending {
            Ending::EndOfText => false,
            Ending::Newline | Ending::ReturnNewline => trailing_backslashes(self.text) % 2 == 1,
        }
    }

    /// The line without the backslash by which it goes on.
    #[tactic(auto, unfolding(mk_lines::specs::Lines::body))]
    pub(crate) fn body(self) -> &'a [u8]
        ensures { result.now ≡ body (physical self.entry) }
    {
        if self.goes_on() {
            without_last(self.text)
        } else {
            self.text
        }
    }

    /// The line with half of the backslashes by which it goes on.
    #[tactic(auto, unfolding(crate::specs::Logical::before_newline))]
    pub(crate) fn before_newline(self) -> &'a [u8]
        ensures { result.now ≡ before_newline (physical self.entry) }
    {
        if !self.goes_on() {
            return self.text;
        }
        let backslashes = trailing_backslashes(self.text);
        let dropped = backslashes - backslashes / 2;
        self.text.split_at(self.text.len() - dropped).0
    }
}
