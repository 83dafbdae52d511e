//! Names in front of signs, in which references hide signs and blanks.
ghost use Rattle.std.specs.Prelude.{◌≡◌, ◌≤◌, length, None, MatchOption, IfSome, option_copied};
ghost use Rattle.mk_assignments.specs.Name.{opening, closing, is_half, ends_name};
ghost use Rattle.mk_assignments.specs.Reading.{outside, behind_dollar, within, behind_name};

use byte_strings::is_blank;

/// The brackets of a reference.
#[derive(Clone, Copy)]
enum Brackets {
    Round,
    Curly,
}

impl Brackets {
    fn opening(self) -> u8
        ensures { result ≡ opening self }
    {
        match self {
            Brackets::Round => b'(',
            Brackets::Curly => b'{',
        }
    }

    fn closing(self) -> u8
        ensures { result ≡ closing self }
    {
        match self {
            Brackets::Round => b')',
            Brackets::Curly => b'}',
        }
    }

    /// What stands behind the brackets, of which this stands behind the opening one. Counting takes no memory, however deep they are.
    fn behind(self, text: &[u8]) -> Option<&[u8]>
        ensures value { MatchOption result (behind_name (within self 0) text.now ≡ None)
            (λ rest. behind_name (within self 0) text.now ≡ behind_name outside rest.now) }
        ensures shorter { IfSome result (λ rest. length rest.now ≤ length text.now) }
    {
        let mut depth: usize = 0;
        let mut rest = text;
        while let Some((byte, behind)) = rest.split_first() {
            if *byte == self.opening() {
                depth += 1;
            } else if *byte == self.closing() {
                if depth == 0 {
                    return Some(behind);
                }
                depth -= 1;
            }
            rest = behind;
        }
        None
    }
}

/// What stands behind a reference, of which this stands behind the dollar.
fn behind_reference(text: &[u8]) -> Option<&[u8]>
    ensures value { MatchOption result (behind_name behind_dollar text.now ≡ None)
        (λ rest. behind_name behind_dollar text.now ≡ behind_name outside rest.now) }
    ensures shorter { IfSome result (λ rest. length rest.now ≤ length text.now) }
{
    match text.split_first()? {
        (b'(', inner) => Brackets::Round.behind(inner),
        (b'{', inner) => Brackets::Curly.behind(inner),
        (_, rest) => Some(rest),
    }
}

/// Whether a byte is the first one of `!=`, `+=` and `?=`.
fn is_half(byte: u8) -> bool
    ensures { result ≡ is_half byte }
{
    byte == b'!' || byte == b'+' || byte == b'?'
}

/// Whether a name ends in front of this byte, with this behind it.
fn ends_name(byte: u8, behind: &[u8]) -> bool
    ensures { result ≡ ends_name byte behind.now }
{
    is_blank(byte)
        || byte == b'#'
        || byte == b':'
        || byte == b'='
        || (is_half(byte) && behind.starts_with(b"="))
}

/// What stands behind the name that a text begins with. There is none where no byte ends it.
pub(crate) fn behind_name(text: &[u8]) -> Option<&[u8]>
    ensures { option_copied result ≡ behind_name outside text.now }
{
    let mut rest = text;
    while let Some((byte, behind)) = rest.split_first() {
        if *byte == b'$' {
            rest = behind_reference(behind)?;
        } else if ends_name(*byte, behind) {
            return Some(rest);
        } else {
            rest = behind;
        }
    }
    None
}
