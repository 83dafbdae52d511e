//! From a makefile's text to its statements.
ghost use Rattle.std.specs.Prelude.{◌≡◌, ◌≤◌, ◌∷◌, [], ℕ, length, map, Some, IfOk, option_copied, true, false};
ghost use Rattle.mk_lines.specs.Lines.{size_left};
ghost use Rattle.mk_statements.specs.Reading.{outside, within, statements_left, statements, stated, stated_at, meaning_of, IsBegun};

use crate::body::body_of;
use crate::content::{Begun, Content, Line, beginning_of, content_of_body};
use crate::logical::next_logical;
use crate::said::Fault;
use mk_lines::LineText;
use std::alloc::{AllocError, Global};

/// How long a statement may be expected to be: room that isn't used takes no memory.
const STATEMENT_LEN: usize = 30;

/// The content of a `define` with this line, whose body stands in front of what is left.
fn define_content<'a>(
    alloc: Global,
    text: LineText<'a>,
    number: usize,
    left: Option<&'a [u8]>,
) -> Result<(Content<'a>, usize, Option<&'a [u8]>), AllocError>
    ensures content { IfOk result (λ found. (line : ℕ) →
        statements_left (within line text.entry 0 []) number (option_copied left.entry)
        ≡ stated_at line (meaning_of found.0) ∷ statements_left outside found.1 (option_copied found.2)) }
    ensures shorter { IfOk result (λ found. size_left (option_copied found.2) ≤ size_left (option_copied left.entry)) }
{
    let Some(bytes) = left else {
        return Ok((Content::Refused(Fault::MissingEndef), number, None));
    };
    let (body, next, left) = body_of(alloc, number, bytes)?;
    Ok((content_of_body(text, body), next, left))
}

/// The statement that a text begins with, the number of the line behind it, and what is left there.
pub fn next_statement(
    alloc: Global,
    number: usize,
    bytes: &[u8],
) -> Result<(Line<'_>, usize, Option<&[u8]>), AllocError>
    ensures line { IfOk result (λ found. statements_left outside number (Some bytes.now)
        ≡ stated found.0 ∷ statements_left outside found.1 (option_copied found.2)) }
    ensures shorter { IfOk result (λ found. size_left (option_copied found.2) ≤ length bytes.now) }
{
    let (text, next, left) = next_logical(alloc, number, bytes)?;
    let beginning = beginning_of(alloc, text)?;
    match beginning {
        Begun::Whole(content) => Ok((Line { number, content }, next, left)),
        Begun::Opens(text) => {
            let (content, next, left) = define_content(alloc, text, next, left)?;
            Ok((Line { number, content }, next, left))
        }
    }
}

/// The statements of a text, in their order. What is refused is refused where it counts, and doesn't end them; but a `define`
/// without its `endef` goes up to the end.
pub fn statements_of(alloc: Global, text: &[u8]) -> Result<Vec<Line<'_>>, AllocError>
    ensures { IfOk result (λ lines. map stated lines.items ≡ statements text.now) }
{
    let mut lines = Vec::with_capacity(alloc, text.len() / STATEMENT_LEN)?;
    let mut left = Some(text);
    let mut number = 1;
    while let Some(bytes) = left {
        let (line, next, after) = next_statement(alloc, number, bytes)?;
        lines.push(line)?;
        number = next;
        left = after;
    }
    Ok(lines)
}
