//! Names that lead out of the tree below the working folder.

ghost use Rattle.std.specs.Prelude.{◌≡◌, true};
ghost use Rattle.st_answers.specs.Cleaning.{ends_part, begins_up, has_up, leads_out};

/// The name is an absolute path, or has a part `..`.
pub(crate) fn leads_out(name: &[u8]) -> bool
    ensures { result ≡ leads_out name.now }
{
    name.starts_with(b"/") || has_up(name)
}

fn has_up(path: &[u8]) -> bool
    ensures { result ≡ has_up true path.now }
{
    let mut begins = true;
    let mut rest = path;
    while let Some((byte, behind)) = rest.split_first() {
        if begins && begins_up(rest) {
            return true;
        }
        begins = *byte == b'/';
        rest = behind;
    }
    false
}

fn begins_up(path: &[u8]) -> bool
    ensures { result ≡ begins_up path.now }
{
    match path.strip_prefix(b"..") {
        Some(behind) => ends_part(behind),
        None => false,
    }
}

fn ends_part(path: &[u8]) -> bool
    ensures { result ≡ ends_part path.now }
{
    match path.first() {
        Some(byte) => *byte == b'/',
        None => true,
    }
}
