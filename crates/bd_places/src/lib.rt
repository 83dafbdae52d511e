//! Where the nodes of a graph stand: what each of them still lacks, how those ended that have settled, and what settles
//! with a node.
#![tactic(auto)]

mod end;
mod places;
mod settling;
mod tally;

pub use end::End;
pub use places::Places;
