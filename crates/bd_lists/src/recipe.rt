//! Recipes as they are run.

use byte_strings::ByteString;
use mk_recipe::Line;

/// A variable of a recipe's environment.
#[derive(Debug)]
pub struct Variable {
    pub name: ByteString,
    pub value: ByteString,
}

impl Drop for Variable {
    fn drop(self) {
        let Variable { name: _, value: _ } = self;
    }
}

/// The recipe of a target.
#[derive(Debug)]
pub struct Recipe {
    pub target: ByteString,
    /// Its lines in order. Blank ones aren't run.
    pub lines: Vec<Line>,
    pub env: Vec<Variable>,
    /// The whole run ignores statuses.
    pub ignore: bool,
}

impl Drop for Recipe {
    fn drop(self) {
        let Recipe {
            target: _,
            lines: _,
            env: _,
            ignore: _,
        } = self;
    }
}
