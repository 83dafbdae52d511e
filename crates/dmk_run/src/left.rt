//! What a part of a run leaves to those behind it.
ghost use Rattle.std.specs.Prelude.{◌≡◌, Ok, IfOk, IfErr};
ghost use Rattle.std.specs.List.{All};
ghost use Rattle.jb_closing.specs.declared.report.Report.{Report as RunReport};
ghost use Rattle.dmk_reading.specs.Lost.{with_unmade};
ghost use Rattle.dmk_run.specs.InTurn.{IsParted};
ghost use Rattle.dmk_parts.specs.Tried.{IsBuilt, IsBuiltWithoutFile, AreFailed, AreTried, tried_in};

use crate::building::reported;
use crate::standing::standing_in;
use byte_strings::ByteStrings;
use dmk_parts::{Left, Made, Standing, failed_in, filed_in, made_in};
use dmk_store::Stop;
use jb_closing::{Report, RunFault};
use mk_nodes::Graph;
use std::alloc::{AllocError, Global};

/// Whether targets may be made once more behind a run over the graph: in the wide profile those that were judged up to date.
fn may_be_lost(graph: &Graph, standing: &[Standing]) -> bool {
    graph.macros.profile().is_wide() && !standing.is_empty()
}

/// What was built, where more may be made behind it: without a file, and with one.
fn made_for(
    alloc: Global,
    is_followed: bool,
    graph: &Graph,
    found: &Result<Report, RunFault>,
) -> Result<(Vec<Made>, ByteStrings), AllocError>
    ensures without { IfOk result (λ made. IfOk found.now (λ r. All (λ m. IsBuiltWithoutFile graph.now r.ends.items m.name) made.0.items)) }
    ensures filed { IfOk result (λ made. IfOk found.now (λ r. All (IsBuilt graph.now r.ends.items) made.1)) }
{
    match found {
        Ok(report) if is_followed => {
            let filed = filed_in(alloc, graph, &report.ends)?;
            let made = made_in(alloc, graph, &report.ends)?;
            Ok((made, filed))
        }
        _ => Ok((Vec::new(alloc), ByteStrings::empty(alloc))),
    }
}

/// What failed.
fn failed_for(
    alloc: Global,
    graph: &Graph,
    found: &Result<Report, RunFault>,
) -> Result<ByteStrings, AllocError>
    ensures { IfOk result (λ failed. IfOk found.now (λ r. AreFailed graph.now r.ends.items failed)) }
{
    match found {
        Ok(report) => failed_in(alloc, graph, &report.ends),
        Err(_) => Ok(ByteStrings::empty(alloc)),
    }
}

/// What a run leaves beside what was judged up to date.
fn left_of(
    alloc: Global,
    is_followed: bool,
    graph: &Graph,
    found: &Result<Report, RunFault>,
    standing: Vec<Standing>,
) -> Result<Left, AllocError>
    ensures { IfOk result (λ left. IfOk found.now (λ r. AreTried graph.now r.ends.items (tried_in left))) }
{
    let (made, filed) = made_for(alloc, is_followed, graph, found)?;
    let failed = failed_for(alloc, graph, found)?;
    Ok(Left {
        standing,
        made,
        filed,
        failed,
    })
}

/// What a run over the graph comes to, and what it leaves to parts behind it.
pub(crate) fn came_to(
    alloc: Global,
    is_part: bool,
    graph: &Graph,
    found: Result<Report, RunFault>,
) -> (Result<u8, Stop>, Left)
    ensures status { IfOk result.0 (λ s. (r : RunReport) × (found ≡ Ok r) × (s ≡ with_unmade graph.now.unmade.items r.status)
        × AreTried graph.now r.ends.items (tried_in result.1)) }
    ensures begun { IfErr result.0 (λ stop. IsParted stop → ⊥) }
{
    let standing = standing_in(alloc, graph, &found);
    let is_followed = is_part || may_be_lost(graph, &standing);
    match left_of(alloc, is_followed, graph, &found, standing) {
        Ok(left) => (reported(graph, found), left),
        Err(error) => {
            drop(found);
            (Err(Stop::from(error)), Left::nothing(alloc))
        }
    }
}
