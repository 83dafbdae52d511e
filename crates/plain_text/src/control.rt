//! What stands for each byte of a text in which nothing is left that a terminal obeys. A newline stays.
ghost use Rattle.std.specs.Prelude.{◌≡◌};
ghost use Rattle.plain_text.specs.Plain.{is_behind, bytes_behind, is_c1, is_control, begins_with_c1, begins_c1, goes_on, shown, missing_behind};

fn is_behind(byte: u8) -> bool
    ensures { result ≡ is_behind byte }
{
    0x80 <= byte && byte <= 0xbf
}

/// How many more bytes a character of UTF-8 has at most that begins with this one.
fn bytes_behind(first: u8) -> usize
    ensures { result ≡ bytes_behind first }
{
    if 0xc2 <= first && first <= 0xdf {
        return 1;
    }
    if 0xe0 <= first && first <= 0xef {
        return 2;
    }
    if 0xf0 <= first && first <= 0xf4 { 3 } else { 0 }
}

fn is_c1(byte: u8) -> bool
    ensures { result ≡ is_c1 byte }
{
    0x80 <= byte && byte <= 0x9f
}

/// Control characters of one byte: those that ISO 6429 calls C0, and DEL. One of C1 is two bytes of UTF-8; a terminal that reads no
/// UTF-8 takes the second one alone for it.
fn is_control(byte: u8) -> bool
    ensures { result ≡ is_control byte }
{
    byte != b'\n' && (byte <= 0x1f || (byte == 0x7f || is_c1(byte)))
}

fn begins_with_c1(text: &[u8]) -> bool
    ensures { result ≡ begins_with_c1 text.now }
{
    match text.split_first() {
        Some((byte, _)) => is_c1(*byte),
        None => false,
    }
}

/// The first of the two bytes of a control character of C1.
fn begins_c1(byte: u8, text: &[u8]) -> bool
    ensures { result ≡ begins_c1 byte text.now }
{
    byte == 0xc2 && begins_with_c1(text)
}

/// Whether the byte belongs to the character before it, of which so many bytes may be missing.
fn goes_on(missing: usize, byte: u8) -> bool
    ensures { result ≡ goes_on missing byte }
{
    missing != 0 && is_behind(byte)
}

/// What stands for a byte before this text: a blank for a control character, else the byte.
pub fn shown(missing: usize, byte: u8, text: &[u8]) -> Option<u8>
    ensures { result ≡ shown missing byte text.now }
{
    if goes_on(missing, byte) {
        return Some(byte);
    }
    if begins_c1(byte, text) {
        return None;
    }
    if is_control(byte) {
        Some(b' ')
    } else {
        Some(byte)
    }
}

/// How many bytes of a character may be missing behind this one.
pub fn missing_behind(missing: usize, byte: u8, text: &[u8]) -> usize
    ensures { result ≡ missing_behind missing byte text.now }
{
    if goes_on(missing, byte) {
        return missing - 1;
    }
    if begins_c1(byte, text) {
        0
    } else {
        bytes_behind(byte)
    }
}
