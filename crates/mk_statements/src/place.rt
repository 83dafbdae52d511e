//! Where a byte of a line stands: references hide what stands in them, and backslashes may quote what stands behind them.
ghost use Rattle.std.specs.Prelude.{◌≡◌, ◌+◌, ◌<◌, ◌≤◌, ◌^◌, IfSome};
ghost use Rattle.mk_statements.specs.Cut.{size, closed, in_brackets, behind_dollar};

#[derive(Clone, Copy)]
pub(crate) enum Place {
    /// Outside references, behind so many backslashes.
    Outside(usize),
    /// Directly behind the `$` of a reference.
    Dollar,
    /// In the brackets of a reference, which one byte opens and the other closes, and in so many inner ones.
    Within(u8, u8, usize),
}

/// Where the byte behind this one stands, in brackets. Those of another kind count for nothing.
pub(crate) fn in_brackets(opening: u8, close: u8, depth: usize, byte: u8) -> Place
    requires { depth + 1 < 2 ^ 64 }
    ensures value { result ≡ in_brackets opening close depth byte }
    ensures small { size result ≤ depth + 1 }
{
    if byte == opening {
        return Place::Within(opening, close, depth + 1);
    }
    if byte != close {
        return Place::Within(opening, close, depth);
    }
    if depth == 0 {
        return Place::Outside(0);
    }
    Place::Within(opening, close, depth - 1)
}

/// Where the byte behind this one stands, which stands behind a `$`.
pub(crate) fn behind_dollar(byte: u8) -> Place
    ensures value { result ≡ behind_dollar byte }
    ensures small { size result ≤ 1 }
{
    match byte {
        b'(' => Place::Within(b'(', b')', 0),
        b'{' => Place::Within(b'{', b'}', 0),
        b'\\' => Place::Outside(1),
        _ => Place::Outside(0),
    }
}
