//! Names that may have been meant by a name that nothing is known of.
#![tactic(auto)]

mod near;

pub use near::nearest;
