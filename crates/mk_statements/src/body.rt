//! The body of a `define`, line by line up to its `endef`.
ghost use Rattle.std.specs.Prelude.{◌≡◌, ◌+◌, ◌<◌, ◌^◌, ◌≤◌, ◌∷◌, ◌++◌, [], ℕ, List, length, Some, IfOk, OnOk, option_copied};
ghost use Rattle.mk_conditionals.specs.Define.{body_line};
ghost use Rattle.mk_lines.specs.Lines.{size_left};
ghost use Rattle.mk_statements.specs.Reading.{outside, within, statements_left, stated_at, plain, body_told};

use crate::logical::{LogicalText, next_logical};
use mk_conditionals::{BodyLine, body_line};
use std::alloc::{AllocError, Global};

#[derive(Drop)]
pub(crate) struct Body {
    /// Its lines, each with its newline.
    pub(crate) lines: Vec<u8>,
    /// Whether text stands behind the `endef`. There is none where the text of the makefile ends first.
    pub(crate) has_text_behind: Option<bool>,
}

fn push_line(lines: &mut Vec<u8>, line: &LogicalText<'_>) -> Result<(), AllocError>
    ensures { OnOk result (lines.new.items ≡ lines.old.items ++ line.now.joined ++ 10 ∷ []) }
{
    lines.extend_from_slice(line.joined.as_slice())?;
    lines.push(b'\n')?;
    Ok(())
}

/// What a line is in a body in which so many inner ones are open.
fn told_line(depth: usize, line: &LogicalText<'_>) -> BodyLine
    requires { depth + 1 < 2 ^ 64 }
    ensures { result ≡ body_line depth line.now.joined }
{
    body_line(depth, line.joined.as_slice())
}

/// The body of a `define` whose line stands in front of these bytes, the number of the line behind it, and what is left there.
pub(crate) fn body_of(
    alloc: Global,
    first: usize,
    bytes: &[u8],
) -> Result<(Body, usize, Option<&[u8]>), AllocError>
    ensures body { IfOk result (λ found. (line : ℕ) (opening : List ℕ) →
        statements_left (within line opening 0 []) first (Some bytes.now)
        ≡ stated_at line (plain (body_told opening found.0.lines.items found.0.has_text_behind)) ∷ statements_left outside found.1 (option_copied found.2)) }
    ensures shorter { IfOk result (λ found. size_left (option_copied found.2) ≤ length bytes.now) }
{
    let mut lines = Vec::new(alloc);
    let mut depth: usize = 0;
    let mut number = first;
    let mut left = Some(bytes);
    while let Some(bytes) = left {
        let (line, next, after) = next_logical(alloc, number, bytes)?;
        match told_line(depth, &line) {
            BodyLine::Inside(now) => {
                push_line(&mut lines, &line)?;
                depth = now;
            }
            BodyLine::Ends(has_text_behind) => {
                let body = Body {
                    lines,
                    has_text_behind: Some(has_text_behind),
                };
                return Ok((body, next, after));
            }
        }
        number = next;
        left = after;
    }
    let body = Body {
        lines,
        has_text_behind: None,
    };
    Ok((body, number, left))
}
