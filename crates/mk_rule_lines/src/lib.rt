//! The rule lines of a makefile: their texts expanded and cut into words, of which kind each is, and what they say of a name.
#![tactic(auto)]

mod explicit;
mod fault;
mod laws;
mod line_words;
mod lines;
mod patterns;
mod pool_faults;
mod pool_line;
mod rule_line;
mod suffixes;

pub use explicit::{
    explicit_of, is_bar, is_default_at, is_phony, is_wait, may_have_bar, names_in, order_only_of,
    words_by,
};
pub use fault::{CycleNames, RuleFault, TextFault, TextPlace, Unmade, Unsupported};
pub use laws::suffixes_are_the_last_list;
pub use line_words::LineWords;
pub use lines::rule_lines;
pub use patterns::{before_percent, behind_percent, has_slash, parted, percent};
pub use pool_faults::{PoolCause, PoolFault, check_pools};
pub use pool_line::{add_members, is_pool, most_said};
pub use rule_line::{RuleLine, has, has_percent, is_default_rule};
pub use suffixes::suffixes_of;
