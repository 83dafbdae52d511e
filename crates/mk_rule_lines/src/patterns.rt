//! Where names and patterns are parted.
ghost use Rattle.std.specs.Prelude.{◌≡◌, ◌<◌, length, IfSome};
ghost use Rattle.mk_macros.specs.Words.{last_slash, file_of, place_of};
ghost use Rattle.mk_rule_lines.specs.Patterns.{has_slash, folder_of, before_percent, behind_percent};

fn last_slash(name: &[u8]) -> Option<usize>
    ensures value { result ≡ last_slash name.now }
    ensures within { IfSome result (λ slash. slash < length name.now) }
{
    let mut last = None;
    for (i, byte) in name.iter().enumerate() {
        if *byte == b'/' {
            last = Some(i);
        }
    }
    last
}

/// The folder of a name, with the `/` that ends it, and what stands behind it.
pub fn parted(name: &[u8]) -> (&[u8], &[u8])
    ensures folder { result.0.now ≡ folder_of name.now }
    ensures file { result.1.now ≡ file_of name.now }
{
    match last_slash(name) {
        Some(slash) => (&name[..slash + 1], &name[slash + 1..]),
        None => (&[], name),
    }
}

/// The place of the first `%`.
pub fn percent(name: &[u8]) -> Option<usize>
    ensures place { result ≡ place_of 37 name.now }
    ensures within { IfSome result (λ place. place < length name.now) }
{
    name.iter().position(|b| *b == b'%')
}

/// What stands before the first `%` of a name: the whole of one without.
pub fn before_percent(name: &[u8]) -> &[u8]
    ensures { result.now ≡ before_percent name.now }
{
    match percent(name) {
        Some(place) => &name[..place],
        None => name,
    }
}

/// What stands behind the first `%` of a name: nothing in one without.
pub fn behind_percent(name: &[u8]) -> &[u8]
    ensures { result.now ≡ behind_percent name.now }
{
    match percent(name) {
        Some(place) => &name[place + 1..],
        None => &[],
    }
}

/// Whether a name has a `/`.
pub fn has_slash(name: &[u8]) -> bool
    ensures { result ≡ has_slash name.now }
{
    name.iter().any(|b| *b == b'/')
}
