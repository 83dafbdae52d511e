//! The limits of expansions.

/// No text and no value grows longer.
pub const MAX_VALUE: usize = 67_108_864;

/// So many calls may be nested.
pub const MAX_CALLS: usize = 4096;

/// So many pieces of texts are looked at in an expansion.
pub const MAX_PIECES: usize = 268_435_456;
