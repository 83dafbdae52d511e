//! The state that two sides recover: the records of the side of the greater generation, taken in one after another.
#![tactic(auto)]

mod laws;
mod opening;
mod recovery;
mod store;
mod store_in;

pub use laws::{
    every_pair_has_an_outcome, every_pair_has_an_outcome_in, one_recovery, one_recovery_in,
};
pub use opening::{open, open_in};
pub use recovery::{
    Chosen, ChosenIn, choose, choose_from, choose_from_in, choose_in, recover, recover_from,
    recover_from_in, recover_in,
};
pub use store::Store;
pub use store_in::StoreIn;
