//! The machine that a run is made on.
ghost use Rattle.std.specs.Prelude.{List, Option, ℕ};
ghost use Rattle.mk_nodes.specs.declared.file_look.FileLook.{FileLook};

use crate::guard::Guard;
use jb_recipe::Place;
use jb_slots::{Bank, Banks};
use mk_eval::Includes;
use mk_rules::Tree;
use std::io::Write;
use std::sync::Wait;
use std::thread::Threads;

/// Files that can be looked at anew.
pub trait Looks<T: Tree> {
    /// What knows nothing yet of any file.
    fn anew(&self) -> T
        ensures { (looks : List ℕ → Option FileLook) → T.allows result looks };
}

/// What a run finds on a machine, by its types: whoever starts one names them together. What runs the lines of recipes isn't among
/// them, since that is put together in layers, nor is the disk of the state, which is one in memory where no state is kept.
pub trait Machine {
    /// Where threads are, and how they wait.
    type Runtime: Threads + Wait + Sync;
    /// Standard output.
    type Out: Write + Drop + Send;
    /// Standard error.
    type Err: Write + Drop + Send;
    /// Where targets and reports lie.
    type Place: Place + Sync;
    /// The files that rules are found by.
    type Tree: Tree + Drop;
    /// What looks at these anew.
    type Looks: Looks<Self::Tree>;
    /// Makefiles that are included.
    type Includes: Includes;
    /// What keeps other runs from the state.
    type Guard: Guard;
    /// A worker's end of a pool of job slots.
    type End: Bank + Drop + Send;
    /// Pools of job slots.
    type Banks: Banks<End = Self::End>;
}
