//! What is reckoned of the recipes of a build log: which ran beside each other, how long they took, and what the build waited for.
#![tactic(auto)]

mod critical;
mod lane;
mod span;
mod times;

pub use critical::{CriticalPath, critical_path};
pub use lane::lanes;
pub use span::Span;
pub use times::{Ranked, busy, by_time};
