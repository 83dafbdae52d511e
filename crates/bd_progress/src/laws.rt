//! What holds over every list of moves. Nothing here runs: each body is empty.

ghost use Rattle.st_records.specs.declared.version.Form.{Form};
ghost use Rattle.bd_progress.specs.NeverStuck.{NeverStuckIn, EachMoveDoesMoreIn, EveryRunEndsIn};
ghost use Rattle.bd_progress.specs.Graphs.{CountedAreOrdered};

/// Where the edges that order nodes make no cycle, then however workers interleave: a node that waits counts one that hasn't
/// settled; as long as a node hasn't settled, some node is ready, running, unflushed or flushing; and each of these has a move
/// before it, which isn't to give up.
pub fn never_stuck()
    ensures { (form : Form) → NeverStuckIn form }
{}

/// Each move leaves less to be done than there was.
pub fn each_move_does_more()
    ensures { (form : Form) → EachMoveDoesMoreIn form }
{}

/// So a run has at most seven moves a node; and where each recipe that was begun ends, and no move can be made any more but to give
/// up nodes, all nodes have settled.
pub fn every_run_ends()
    ensures { (form : Form) → EveryRunEndsIn form }
{}

/// The edges that count are such: where hard ones make no cycle, and soft ones were dropped just where they would make one, those that
/// count lead to nodes and make none.
pub fn counted_edges_are_ordered()
    ensures { CountedAreOrdered }
{}
