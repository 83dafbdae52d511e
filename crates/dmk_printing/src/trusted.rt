//! What is said of targets that are taken as they are.

/// What came of taking targets as they are.
#[derive(Clone, Copy)]
pub enum Trusted {
    /// No state is kept.
    Unkept,
    /// The state knows of targets already, so none was taken.
    Known,
    /// So many were taken.
    Taken(usize),
}
