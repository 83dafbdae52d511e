//! The report of a run, checked against the closed store: that its receipts are those of the told records, and that each
//! built node is done there.
#![tactic(auto)]

mod agreement;
mod closing;
mod fault;
mod last;
mod report;

pub use closing::Closed;
pub use fault::RunFault;
pub use report::Report;
