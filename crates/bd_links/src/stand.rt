//! Where a node stands.

/// The six lists of a board. Each node stands in one of them.
#[derive(Clone, Copy, Debug, PartialEq, Eq)]
pub enum Stand {
    /// A counted prerequisite hasn't settled yet.
    Waiting,
    /// All counted prerequisites have settled: the node can be claimed.
    Ready,
    /// A worker has the node.
    Running,
    /// A record of the node was submitted and not drained yet.
    Unflushed,
    /// The record was drained, to be written.
    Flushing,
    /// The node has ended.
    Settled,
}
