//! How long chains of implicit rules get.

/// How many rules a chain may have before its last one.
pub const MAX_STEPS: usize = 5;
