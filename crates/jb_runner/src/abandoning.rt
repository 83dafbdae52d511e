//! What is abandoned when a run doesn't go on.

use bd_flusher::Receipt;
use bd_links::{Node, Stand};
use bd_lists::BoardIn;

fn waits(board: &BoardIn<Receipt>, node: Node) -> bool {
    matches!(board.stand(node), Some(Stand::Waiting | Stand::Ready))
}

/// Abandons each node of Waiting and Ready. What settles with a node may bring another one to Ready, but only one that comes
/// behind in this walk: those before have left Waiting.
pub(crate) fn abandon_waiting(board: &mut BoardIn<Receipt>, nodes: usize) {
    for number in 0..nodes {
        let node = Node::new(number);
        if waits(board, node) {
            board.abandon(node);
        }
    }
}
