//! GNU make's functions of words and bytes: each is made of the values of its arguments alone.
#![tactic(auto)]

mod changed;
mod counted;
mod cursor;
mod joined;
mod laws;
mod names;
mod numbers;
mod patterns;
mod sorting;
mod texts;

pub use changed::{patsubst, substitution};
pub use counted::{first_word, last_word, word_count};
pub use cursor::{before_spaces, behind_spaces, is_space, next_word};
pub use joined::strip;
pub use laws::one_order;
pub use names::{add_prefix, add_suffix, basename, dir, join, notdir, suffix};
pub use numbers::{NumberFault, number_by, word, word_list};
pub use patterns::{filter, filter_out};
pub use sorting::sort;
pub use texts::{find_string, subst};
