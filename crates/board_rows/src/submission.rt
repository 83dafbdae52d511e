//! What a row submits.
ghost use Rattle.std.specs.Prelude.{IfOk};
ghost use Rattle.st_records.specs.Limits.{IsGood};
ghost use Rattle.st_records.specs.declared.version.Version.TheVariants.{Two};

use crate::nodes::Nodes;
use crate::records::read_good;
use bd_links::Node;
use row_files::{RowFault, Words};
use st_records::Record;
use std::alloc::Global;

/// A node's record, and the node whose run is handed in with it.
pub struct Submission {
    pub node: Node,
    pub by: Node,
    pub note: Record,
}

/// `NODE [as TARGET] [by NODE] RECORD`.
pub fn read_submission(
    alloc: Global,
    nodes: &Nodes<'_>,
    words: &mut Words<'_>,
) -> Result<Submission, RowFault>
    ensures { IfOk result (λ submission. IsGood Two submission.note) }
{
    let node = nodes.next(words)?;
    let named = nodes.other(words, "as ", node)?;
    let by = nodes.other(words, "by ", node)?;
    let target = nodes.target(alloc, named)?;
    let note = read_good(alloc, target, words)?;
    Ok(Submission { node, by, note })
}
