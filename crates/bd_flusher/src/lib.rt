//! What stands between the board and the store: records are written in batches, and each worker is told when its own is
//! there.
#![tactic(auto)]

mod any_store;
mod fault;
mod flusher;
mod flusher_in;
mod same;
mod site;
mod tidying;

pub use fault::FlushFault;
pub use flusher::Flusher;
pub use flusher_in::FlusherIn;
pub use same::is_same;
pub use site::{Receipt, Site, SiteIn};
