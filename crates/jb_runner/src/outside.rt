//! What lies outside of a run of workers.

use bd_flusher::Receipt;
use bd_lists::Exec;
use jb_recipe::{Place, Say};
use mk_nodes::Graph;
use st_records::HashKey;
use std::sync::Wait;
use std::thread::Threads;

/// What a run of workers finds outside of it, by its types: whoever starts one names them together.
pub trait Outside {
    /// Where its threads are, and how they wait.
    type Runtime: Threads + Wait + Sync;
    /// What runs the lines of recipes.
    type Exec: Exec<Receipt> + Sync;
    /// What the run is told to.
    type Say: Say + Sync;
    /// Where targets and reports lie.
    type Place: Place + Sync;
}

impl<R, E, S, P> Outside for (R, E, S, P)
where
    R: Threads + Wait + Sync,
    E: Exec<Receipt> + Sync,
    S: Say + Sync,
    P: Place + Sync,
{
    type Runtime = R;

    type Exec = E;

    type Say = S;

    type Place = P;
}

/// What a run is given beside its slots.
#[derive(Drop)]
pub struct Parts<'a, E, S, P> {
    pub graph: &'a Graph,
    pub key: HashKey,
    pub exec: &'a E,
    pub say: &'a S,
    pub place: &'a P,
}
