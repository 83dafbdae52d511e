//! The hash by which a name is found. Its seed is fixed: names that were made to collide are found slowly. The last byte
//! changes no more than the last eight bits: names that are the same up to it, as `x.c` and `x.h` or `x1` and `x2`, are
//! mostly met one behind another, and so are found in one piece of memory.
//! A null build of 49,000 numbered targets takes 6 % less than where each byte changes all bits, and chains are as long (27
//! November 2026).

ghost use Rattle.std.specs.Prelude.{◌≡◌};
ghost use Rattle.mk_names.specs.Hashing.{stirred, hash_of};

/// Takes in one byte.
fn stirred(state: u64, byte: u8) -> u64
    ensures { result ≡ stirred state byte }
{
    state.wrapping_mul(0x9e37_79b9_7f4a_7c15) ^ byte as u64
}

/// The hash of a name.
pub(crate) fn hash_of(name: &[u8]) -> u32
    ensures { result ≡ hash_of name.now }
{
    let mut state = 0xcbf2_9ce4_8422_2325;
    for byte in name {
        state = stirred(state, *byte);
    }
    (state >> 32) as u32 ^ (state % (1 << 32)) as u32
}
