//! The arguments of `ifeq` and `ifneq`.
ghost use Rattle.std.specs.Prelude.{◌≡◌, true, None, Some, MatchOption};
ghost use Rattle.mk_conditionals.specs.Spelled.{second_in_parentheses, is_quote, quoted, second_in_quotes, arguments};
ghost use Rattle.mk_conditionals.specs.Cut.{cut};

use crate::cut::cut;
use byte_strings::{trim_end, trim_start};

/// The arguments behind an opening parenthesis, and what stands behind them.
fn in_parentheses(inner: &[u8]) -> Option<(&[u8], &[u8], &[u8])>
    ensures { MatchOption result (second_in_parentheses (cut true 44 inner.now) ≡ None)
        (λ found. second_in_parentheses (cut true 44 inner.now) ≡ Some (found.0.now, found.1.now, found.2.now)) }
{
    let (first, rest) = cut(inner, b',', true)?;
    let (second, behind) = cut(trim_start(rest), b')', true)?;
    Some((trim_end(first), second, behind))
}

fn is_quote(byte: u8) -> bool
    ensures { result ≡ is_quote byte }
{
    byte == b'"' || byte == b'\''
}

/// What stands in the quotes that a text begins with, and what stands behind them.
fn quoted(text: &[u8]) -> Option<(&[u8], &[u8])>
    ensures { MatchOption result (quoted text.now ≡ None) (λ found. quoted text.now ≡ Some (found.0.now, found.1.now)) }
{
    let (quote, inner) = text.split_first()?;
    if !is_quote(*quote) {
        return None;
    }
    cut(inner, *quote, false)
}

fn in_quotes(text: &[u8]) -> Option<(&[u8], &[u8], &[u8])>
    ensures { MatchOption result (second_in_quotes (quoted text.now) ≡ None)
        (λ found. second_in_quotes (quoted text.now) ≡ Some (found.0.now, found.1.now, found.2.now)) }
{
    let (first, rest) = quoted(text)?;
    let (second, behind) = quoted(trim_start(rest))?;
    Some((first, second, behind))
}

/// The first argument, the second one, and what stands behind them.
pub fn arguments(text: &[u8]) -> Option<(&[u8], &[u8], &[u8])>
    ensures { MatchOption result (arguments text.now ≡ None)
        (λ found. arguments text.now ≡ Some (found.0.now, found.1.now, found.2.now)) }
{
    match text.split_first() {
        Some((b'(', inner)) => in_parentheses(inner),
        _ => in_quotes(text),
    }
}
