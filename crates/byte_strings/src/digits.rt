//! Numbers that are written in digits.
ghost use Rattle.std.specs.Prelude.{◌≡◌};
ghost use Rattle.std.specs.List.{list_all};
ghost use Rattle.std.specs.Char.{is_ascii_digit};
ghost use Rattle.byte_strings.specs.Digits.{number_of};

fn are_digits(text: &[u8]) -> bool
    ensures { result ≡ list_all is_ascii_digit text.now }
{
    text.iter().all(|byte| byte.is_ascii_digit())
}

/// The number that a text is, if it is digits alone; a larger one than 65,535 is that.
pub fn number_of(text: &[u8]) -> Option<u16>
    ensures { result ≡ number_of text.now }
{
    if text.is_empty() || !are_digits(text) {
        return None;
    }
    let mut number: u16 = 0;
    for byte in text {
        number = number
            .saturating_mul(10)
            .saturating_add(u16::from(byte - b'0'));
    }
    Some(number)
}
