//! The one fault of a pool of tokens.

use thiserror::Error;

/// A byte couldn't be read from the pool or given back. What the system said of it is let go: no caller could act on
/// it.
#[derive(Clone, Copy, Debug, PartialEq, Eq, Error)]
#[error("jobserver fault")]
pub struct BankFault;
