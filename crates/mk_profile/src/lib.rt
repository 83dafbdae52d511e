//! Which language makefiles are written in. Nothing else depends on how it was asked for.
#![tactic(auto)]

mod profile;

pub use profile::Profile;
