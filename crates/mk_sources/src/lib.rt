//! What makes a name: by which rule, from which files, and when it was made.
#![tactic(auto)]

mod chain;
mod distinct_names;
mod known;
mod laws;
mod left_over;
mod links;
mod listed;
mod look;
mod lookup;
mod made;
mod rules;
mod seen;
mod several;
mod source;
mod tree;
mod wanted;

pub use chain::steps_of;
pub use distinct_names::DistinctNames;
pub use known::{Given, Ruled, Seen};
pub use laws::further_targets_follow_the_run;
pub use left_over::default_of;
pub use links::links_of;
pub use lookup::is_node;
pub use rules::Rules;
pub use seen::seen_of;
pub use tree::{Tree, TreeFault};
