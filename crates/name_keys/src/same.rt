//! Whether two names have the same bytes.
//! 5 bytes take 20 instructions, one by one 46; 12 take 26 and 24 take 22, by `==` of slices 95 and 42; from 60 on both take the
//! same (26 November 2026). Eight bytes as a number don't become one load where each place has its check, and steps for lengths
//! in between cost a branch each.
ghost use Rattle.std.specs.Prelude.{◌≡◌, ◌+◌, ◌<◌, ◌≤◌, length, take, drop, nat_eq};
ghost use Rattle.std.specs.Cmp.Lexicographic.{pointwise};

use std::simd::Simd;

// So many bytes are compared at once where a name has as many: most have.
const MANY: usize = 16;

const FEW: usize = 4;

/// Whether the N bytes from a place on are the same.
fn same_at<const N: usize>(a: &[u8], b: &[u8], place: usize) -> bool
    requires lanes { N ≤ 64 }
    requires a { place + N ≤ length a.now }
    requires b { place + N ≤ length b.now }
    ensures { result ≡ pointwise nat_eq (take N (drop place a.now)) (take N (drop place b.now)) }
{
    Simd::<u8, N>::from_slice(&a[place..]) == Simd::from_slice(&b[place..])
}

/// Whether both are the same, N bytes at a time. The last N may begin in front of where those before them end.
fn same_by<const N: usize>(a: &[u8], b: &[u8]) -> bool
    requires lanes { (0 < N) × (N ≤ 64) }
    requires many { N ≤ length a.now }
    requires lengths { length a.now ≡ length b.now }
    ensures { result ≡ pointwise nat_eq a.now b.now }
{
    let last = a.len() - N;
    let mut place = 0;
    while place < last {
        if !same_at::<N>(a, b, place) {
            return false;
        }
        place += N;
    }
    same_at::<N>(a, b, last)
}

/// Whether both are the same, one by one: for a few bytes.
fn same_few(a: &[u8], b: &[u8]) -> bool
    requires { length a.now ≡ length b.now }
    ensures { result ≡ pointwise nat_eq a.now b.now }
{
    for place in 0..a.len() {
        if a[place] != b[place] {
            return false;
        }
    }
    true
}

/// Most names that meet in a table are the same.
pub(crate) fn same_bytes(a: &[u8], b: &[u8]) -> bool
    ensures { result ≡ pointwise nat_eq a.now b.now }
{
    if a.len() != b.len() {
        return false;
    }
    if a.len() >= MANY {
        return same_by::<MANY>(a, b);
    }
    if a.len() >= FEW {
        return same_by::<FEW>(a, b);
    }
    same_few(a, b)
}
