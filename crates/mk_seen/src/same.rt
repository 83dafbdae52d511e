//! Whether two byte strings are the same.
ghost use Rattle.std.specs.Prelude.{◌≡◌};
ghost use Rattle.std.specs.Str.{bytes_eq};

use name_keys::NameRef;

/// As tables compare names: many bytes at once.
pub fn is_same(a: &[u8], b: &[u8]) -> bool
    ensures { result ≡ bytes_eq a.now b.now }
{
    NameRef { bytes: a } == NameRef { bytes: b }
}
