ghost use Rattle.std.specs.Prelude.{◌≡◌};
ghost use Rattle.mk_short_names.specs.Short.{begins_here, behind_here, or_here, short_name, name_in, is_short};

use mk_profile::Profile;

/// Whether a name begins with `./`.
pub fn begins_here(name: &[u8]) -> bool
    ensures { result ≡ begins_here name.now }
{
    matches!(name, [b'.', b'/', ..])
}

/// What stands behind `./`, without more of it.
fn behind_here(rest: &[u8]) -> &[u8]
    ensures { result.now ≡ behind_here rest.now }
{
    let mut left = rest;
    while let [b'/', after @ ..] | [b'.', b'/', after @ ..] = left {
        left = after;
    }
    left
}

fn or_here(name: &[u8]) -> &[u8]
    ensures { result.now ≡ or_here name.now }
{
    if name.is_empty() {
        return b"./".as_slice();
    }
    name
}

/// The name without a `./` in front.
pub fn short_name(name: &[u8]) -> &[u8]
    ensures { result.now ≡ short_name name.now }
{
    if !begins_here(name) {
        return name;
    }
    or_here(behind_here(name.split_at(2).1))
}

/// A name as it is read in this profile: in the wide one without a `./` in front.
pub fn name_in(profile: Profile, name: &[u8]) -> &[u8]
    ensures { result.now ≡ name_in profile name.now }
{
    if profile.is_wide() {
        return short_name(name);
    }
    name
}

/// Whether a name is its own short form.
pub fn is_short(name: &[u8]) -> bool
    ensures { result ≡ is_short name.now }
{
    !begins_here(name) || short_name(name) == name
}
