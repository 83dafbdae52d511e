//! A name that a table owns, and one by which it is looked up.
ghost use Rattle.std.specs.Prelude.{◌≡◌, ℕ, List, [], ◌∷◌, nat_eq, IfOk};
ghost use Rattle.std.specs.Cmp.Lexicographic.{pointwise, bytes_decides, nat_list_eq_equiv};
ghost use Rattle.std.specs.Cmp.{partial_equiv_from_equiv, on_per, on_equiv};
ghost use Rattle.std.proofs.Common.{ap};
ghost use Rattle.name_keys.specs.Written.{at_once};

use crate::same::same_bytes;
use bstr::ByteSlice;
use byte_strings::ByteString;
use indexmap::Equivalent;
use std::alloc::{AllocError, Global};
use std::fmt;
use std::hash::{Hash, Hasher};
use std::marker::Model;

/// A name as a key of an `IndexMap` or `IndexSet`. Contracts see the list of its bytes.
pub struct Name {
    bytes: ByteString,
}

impl Model for Name {
    ghost Value = { List ℕ };

    ghost view = { λ name. name.bytes };
}

impl Drop for Name {
    fn drop(self) {
        let Name { bytes: _ } = self;
    }
}

impl Name {
    /// The name that has these bytes, which takes no memory.
    pub fn new(bytes: ByteString) -> Name
        ensures { result ≡ bytes }
    {
        Name { bytes }
    }

    /// A copy of these bytes.
    pub fn from_slice(alloc: Global, bytes: &[u8]) -> Result<Name, AllocError>
        ensures { IfOk result (λ name. name ≡ bytes.now) }
    {
        let bytes = ByteString::from_slice(alloc, bytes)?;
        Ok(Name { bytes })
    }

    pub fn as_slice(&self) -> &[u8]
        ensures { result.now ≡ self.now }
    {
        self.bytes.as_slice()
    }
}

impl PartialEq for Name {
    ghost eq = { pointwise nat_eq };

    ghost laws = { partial_equiv_from_equiv nat_list_eq_equiv };

    fn eq(&self, other: &Name) -> bool {
        same_bytes(self.as_slice(), other.as_slice())
    }
}

impl Eq for Name {
    ghost laws = { nat_list_eq_equiv };
}

// The toolchain's `Hash` for vectors hands over byte after byte: under SipHash a name of five bytes costs twice as much.
impl Hash for Name {
    ghost hash_input = { at_once };

    ghost respects_eq = { λ x y h. ap at_once ((bytes_decides x y).0 h) };

    fn hash<H: Hasher>(&self, state: &mut H) {
        state.write(self.as_slice());
    }
}

/// The text in quotes, with what isn't UTF-8 escaped.
impl fmt::Debug for Name {
    fn fmt<W: fmt::Write>(&self, f: &mut fmt::Formatter<W>) -> fmt::Result {
        let bytes = self.as_slice();
        fmt::Debug::fmt(&bytes.as_bstr(), f)
    }
}

/// The bytes by which a table of names is looked up.
#[derive(Clone, Copy)]
pub struct NameRef<'a> {
    pub bytes: &'a [u8],
}

impl<'a> PartialEq for NameRef<'a> {
    ghost eq = { λ x y. pointwise nat_eq x.bytes.now y.bytes.now };

    ghost laws = { on_per (λ x. x.bytes.now) (partial_equiv_from_equiv nat_list_eq_equiv) };

    fn eq(&self, other: &NameRef<'a>) -> bool {
        same_bytes(self.bytes, other.bytes)
    }
}

impl<'a> Eq for NameRef<'a> {
    ghost laws = { on_equiv (λ x. x.bytes.now) nat_list_eq_equiv };
}

impl<'a> Hash for NameRef<'a> {
    ghost hash_input = { λ x. at_once x.bytes.now };

    ghost respects_eq = { λ x y h. ap at_once ((bytes_decides x.bytes.now y.bytes.now).0 h) };

    fn hash<H: Hasher>(&self, state: &mut H) {
        state.write(self.bytes);
    }
}

impl<'a> Equivalent<Name> for NameRef<'a> {
    ghost equivalent = { λ q k. pointwise nat_eq q.bytes.now k };

    ghost respects_hash = { λ q k h. ap at_once ((bytes_decides q.bytes.now k).0 h) };

    ghost respects_eq = { λ q x y. nat_list_eq_equiv.congr q.bytes.now x y };

    fn equivalent(&self, key: &Name) -> bool {
        same_bytes(self.bytes, key.as_slice())
    }
}
