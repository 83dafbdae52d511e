//! Bytes that own themselves. Clauses see the list of the bytes, and nothing of where they lie in memory.
ghost use Rattle.std.specs.Prelude.{◌≡◌, ◌≤◌, List, ℕ, Some, length, IfOk, IsOk, encode_utf8_all, nat_eq};
ghost use Rattle.std.specs.Cmp.Lexicographic.{pointwise};
ghost use Rattle.bstr.specs.Utf8.{lossy_chars};

use bstr::ByteSlice;
use std::alloc::{AllocError, Global};
use std::fmt;
use std::marker::Model;

// As many as leave a string 32 bytes: one says which form it has, one how long it is.
const MAX_SHORT_BYTES: usize = 30;

#[derive(Drop)]
enum Bytes {
    Short(u8, [u8; MAX_SHORT_BYTES]),
    Long(Vec<u8>),
}

/// A name, a command, or a piece of a text: any bytes, which needn't be UTF-8. Most are short, and stand in the value itself.
///
/// `smallvec` and `arrayvec` keep a length of a whole word: as many bytes would take 40 and more. There is no way back to a
/// vector, which would take memory.
pub struct ByteString {
    bytes: Bytes,
}

impl Model for ByteString {
    ghost use Rattle.std.specs.Prelude.{List, ℕ};
    ghost use Rattle.byte_strings.specs.Held.{held, IsHeld};

    ghost Value = { List ℕ };

    ghost view = { λ s. held s.bytes };

    ghost invariant = { λ s. IsHeld s.bytes };
}

impl Drop for ByteString {
    fn drop(self) {
        let ByteString { bytes: _ } = self;
    }
}

/// The bytes of a slice that has few, in a value.
fn short(bytes: &[u8]) -> ByteString
    requires { length bytes.now ≤ 30 }
    ensures { result ≡ bytes.now }
{
    let mut kept = [0; MAX_SHORT_BYTES];
    kept[..bytes.len()].copy_from_slice(bytes);
    ByteString {
        bytes: Bytes::Short(bytes.len() as u8, kept),
    }
}

impl ByteString {
    /// The bytes of a vector, which takes no memory.
    pub fn new(bytes: Vec<u8>) -> ByteString
        ensures { result ≡ bytes.items }
    {
        ByteString {
            bytes: Bytes::Long(bytes),
        }
    }

    /// A copy of the bytes of a slice, which takes no memory where there are at most 30 of them.
    pub fn from_slice(alloc: Global, bytes: &[u8]) -> Result<ByteString, AllocError>
        ensures ok { IfOk result (λ s. s ≡ bytes.now) }
        ensures short { length bytes.now ≤ 30 → IsOk result }
    {
        if bytes.len() <= MAX_SHORT_BYTES {
            return Ok(short(bytes));
        }
        let bytes = Vec::from_slice(alloc, bytes)?;
        Ok(ByteString::new(bytes))
    }

    #[inline(always)]
    pub fn as_slice(&self) -> &[u8]
        ensures { result.now ≡ self.now }
    {
        match &self.bytes {
            Bytes::Short(len, bytes) => &bytes[..*len as usize],
            Bytes::Long(bytes) => bytes.as_slice(),
        }
    }

    pub fn copy(&self, alloc: Global) -> Result<ByteString, AllocError>
        ensures { IfOk result (λ s. s ≡ self.now) }
    {
        ByteString::from_slice(alloc, self.as_slice())
    }
}

/// The text, with U+FFFD for what isn't UTF-8.
impl fmt::Display for ByteString {
    ghost output = { λ s. Some (encode_utf8_all (lossy_chars s)) };

    fn fmt<W: fmt::Write>(&self, f: &mut fmt::Formatter<W>) -> fmt::Result {
        let bytes = self.as_slice();
        fmt::Display::fmt(&bytes.as_bstr(), f)
    }
}

/// The text in quotes, with what isn't UTF-8 escaped.
impl fmt::Debug for ByteString {
    fn fmt<W: fmt::Write>(&self, f: &mut fmt::Formatter<W>) -> fmt::Result {
        let bytes = self.as_slice();
        fmt::Debug::fmt(&bytes.as_bstr(), f)
    }
}

impl PartialEq for ByteString {
    ghost use Rattle.std.specs.Cmp.Lexicographic.{nat_list_eq_equiv};
    ghost use Rattle.std.specs.Cmp.{partial_equiv_from_equiv};

    ghost eq = { pointwise nat_eq };

    ghost laws = { partial_equiv_from_equiv nat_list_eq_equiv };

    fn eq(&self, other: &ByteString) -> bool {
        self.as_slice() == other.as_slice()
    }
}

impl Eq for ByteString {
    ghost use Rattle.std.specs.Cmp.Lexicographic.{nat_list_eq_equiv};

    ghost laws = { nat_list_eq_equiv };
}
