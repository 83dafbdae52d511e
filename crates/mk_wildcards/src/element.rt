//! What a pattern is made of.
ghost use Rattle.std.specs.Prelude.{◌≡◌, ◌&&◌, nat_le};
ghost use Rattle.mk_wildcards.specs.Pattern.{range_behind, is_member};
ghost use Rattle.mk_wildcards.specs.Fits.{is_one_of};

use byte_strings::ByteString;

/// Bytes in brackets, and ranges of them.
#[derive(Drop)]
pub struct Brackets {
    pub is_negated: bool,
    /// What stands in the brackets, without the sign of a negation.
    pub members: ByteString,
}

/// One part of a pattern.
#[derive(Drop)]
pub enum Element {
    Byte(u8),
    /// `?`
    AnyByte,
    /// `*`
    AnyRun,
    /// `[..]`
    OneOf(Brackets),
}

/// The upper end of the range whose lower end stands before this.
fn range_end(behind: &[u8]) -> Option<u8>
    ensures { result ≡ range_behind behind.now }
{
    let (sign, rest) = behind.split_first()?;
    let (high, _) = rest.split_first()?;
    if *sign == b'-' { Some(*high) } else { None }
}

fn is_between(low: u8, high: u8, byte: u8) -> bool
    ensures { result ≡ (nat_le low byte && nat_le byte high) }
{
    low <= byte && byte <= high
}

/// Whether the byte is among these, by itself or in a range.
fn is_member(members: &[u8], byte: u8) -> bool
    ensures { result ≡ is_member members.now byte }
{
    let mut rest = members;
    while let Some((low, behind)) = rest.split_first() {
        match range_end(behind) {
            Some(high) => {
                if is_between(*low, high, byte) {
                    return true;
                }
                rest = &behind[2..];
            }
            None => {
                if *low == byte {
                    return true;
                }
                rest = behind;
            }
        }
    }
    false
}

impl Brackets {
    pub(crate) fn takes(&self, byte: u8) -> bool
        ensures { result ≡ is_one_of self.now byte }
    {
        is_member(self.members.as_slice(), byte) != self.is_negated
    }
}
