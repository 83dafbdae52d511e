//! Workers that take nodes from the board, run their recipes with a job slot each, and write into the state what they are
//! about to do and what came of it.
#![tactic(auto)]

mod abandoning;
mod beginning;
mod bench;
mod boards;
mod desk;
mod earlier;
mod ending;
mod failing;
mod gate;
mod making;
mod outside;
mod pending;
mod pool;
mod served;
mod serving;
mod shift;
mod shop;
mod slotted;
mod submitting;
mod turns;
mod worker;

pub use boards::board_of;
pub use outside::{Outside, Parts};
pub use pool::run;
pub use serving::{Source, source_of};
pub use slotted::{Slotting, run_slotted};
