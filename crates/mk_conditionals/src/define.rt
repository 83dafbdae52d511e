//! The body of a `define`: the lines up to its own `endef`.
ghost use Rattle.std.specs.Prelude.{◌≡◌, ◌+◌, ◌<◌, ◌^◌};
ghost use Rattle.mk_conditionals.specs.Define.{begins_with, has_text, body_line};

use crate::cut::part_word;

/// What a line is in the body of a `define`.
#[derive(Clone, Copy)]
pub enum BodyLine {
    /// A line of the body, behind which so many inner ones are open.
    Inside(usize),
    /// The `endef` of the body, and whether text stands behind it, which is passed over.
    Ends(bool),
}

fn begins_with(text: &[u8], byte: u8) -> bool
    ensures { result ≡ begins_with byte text.now }
{
    match text.split_first() {
        Some((first, _)) => *first == byte,
        None => false,
    }
}

fn has_text(rest: &[u8]) -> bool
    ensures { result ≡ has_text rest.now }
{
    !rest.is_empty() && !begins_with(rest, b'#')
}

/// What a line is in a body in which so many inner ones are open. A line that goes on is joined, and its comment is a part of it.
#[tactic(auto, unfolding(crate::specs::Define::body_line))]
pub fn body_line(depth: usize, line: &[u8]) -> BodyLine
    requires { depth + 1 < 2 ^ 64 }
    ensures { result ≡ body_line depth line.now }
{
    if begins_with(line, b'\t') {
        return BodyLine::Inside(depth);
    }
    let (word, rest) = part_word(line);
    if word == b"define".as_slice() {
        return BodyLine::Inside(depth + 1);
    }
    if word != b"endef".as_slice() {
        return BodyLine::Inside(depth);
    }
    if depth > 0 {
        return BodyLine::Inside(depth - 1);
    }
    BodyLine::Ends(has_text(rest))
}
