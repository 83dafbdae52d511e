//! Which files a target was made of: looks at them before and behind its recipe, and the marks that its 'done' records.
#![tactic(auto)]

mod before;
mod done;
mod earlier;
mod laws;
mod memory;
mod names;
mod recorded;
mod same;
mod sights;
mod single;
mod text;

pub use before::{Before, Known};
pub use done::{Left, look_behind};
pub use earlier::Earlier;
pub use laws::{marks_are_looks_before, marks_are_sure, named_before, one_mark_each};
pub use memory::{MemorySights, Placed};
pub use names::{Names, Recorded};
pub use recorded::recorded_in;
pub use same::is_same;
pub use sights::{Sight, Sights};
pub use text::text_of_sights;
