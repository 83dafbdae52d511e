//! From the words' options, the environment and makefiles to a graph, and what is said of each way there.
//!
//! It reads the makefiles and runs no recipe. Commands of definitions are run.
#![tactic(auto)]

mod base;
mod built_in;
mod definitions;
mod graph;
mod keeping;
mod laws;
mod lost;
mod makefile;
mod makefiles;
mod old_rules;
mod options;
mod own_rules;
mod passing;
mod state_name;

pub use base::base_of;
pub use definitions::{first_macros, is_option_letter};
pub use graph::{graph_of, judged_graph};
pub use keeping::{keeps_state, kept_form, value_of};
pub use laws::{one_makefile, one_reading_of_the_settings, plan_of_the_graph};
pub use lost::{goes_without, is_lost, lost_nodes, nodes_on, unmade_names};
pub use makefile::items_of;
pub use makefiles::Makefiles;
pub use mk_plan::Telling;
pub use options::{MAX_WORKERS, Mode, Options};
pub use passing::unlisted;
pub use state_name::usual_state;
