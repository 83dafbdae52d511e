//! What a part of the goals is, by which graph it is made, and what parts before it leave to it.
#![tactic(auto)]

mod causes;
mod clearing;
mod conducting;
mod left;
mod made;
mod parting;
mod parts;
mod planning;
mod refusing;
mod tried;
mod unmade;

pub use conducting::{Wishes, waiting_beside};
pub use left::{Left, Standing};
pub use made::{Made, failed_in, filed_in, made_in};
pub use parting::{has_file, to_make};
pub use parts::{goes_on, in_parts, joined, part_behind, part_of};
pub use planning::{Goals, Plan, planned, recorded_apart};
pub use refusing::ready_recipes;
pub use tried::Tried;
pub use unmade::with_unmade;
