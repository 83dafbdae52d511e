//! Paths, part by part.
ghost use Rattle.std.specs.Prelude.{◌≡◌, ◌<◌, ◌≤◌, [], ◌∷◌, length, IfSome, MatchOption};
ghost use Rattle.std.specs.List.{position_or_len};
ghost use Rattle.mk_wildcards.specs.Found.{is_slash, parts};

/// How many bytes stand before the first slash.
fn part_len(path: &[u8]) -> usize
    ensures value { result ≡ position_or_len is_slash path.now }
    ensures within { result ≤ length path.now }
{
    let mut count = 0;
    while count < path.len() && path[count] != b'/' {
        count += 1;
    }
    count
}

/// The first part of a path and what stands behind its slash, or nothing where the path has no slash.
pub fn split_part(path: &[u8]) -> Option<(&[u8], &[u8])>
    ensures part { MatchOption result (parts path.now ≡ path.now ∷ []) (λ found. parts path.now ≡ found.0.now ∷ parts found.1.now) }
    ensures shorter { IfSome result (λ found. length found.1.now < length path.now) }
{
    let len = part_len(path);
    if len >= path.len() {
        return None;
    }
    Some((&path[..len], &path[len + 1..]))
}
