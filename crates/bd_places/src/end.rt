//! How a node ended.

/// How a node ended in this run.
#[derive(Clone, Copy, Debug, PartialEq, Eq)]
pub enum End {
    /// Nothing had to be done.
    UpToDate,
    /// It has no recipe, and counts as made anew.
    Remade,
    /// Its recipe was run to its end.
    Built,
    /// Its recipe failed with this status.
    Failed(u32),
    /// It can't be made: a hard prerequisite failed or was abandoned, or the run was stopped.
    Abandoned,
}
