//! Boards and their first records.
ghost use Rattle.std.specs.Prelude.{◌≡◌, IfOk, IfSome};
ghost use Rattle.st_records.specs.Limits.{IsGood};
ghost use Rattle.st_records.specs.declared.record.Record.TheVariants as records;
ghost use Rattle.st_records.specs.declared.version.Version.TheVariants as versions;

use crate::makefiles::{Asked, graph};
use bd_flusher::{FlushFault, Receipt, SiteIn};
use bd_ledger::Ticket;
use bd_links::Node;
use bd_lists::BoardIn;
use byte_strings::ByteString;
use jb_runner::board_of;
use st_disk::Disk;
use st_records::{Form, Record};
use st_state::State;
use std::alloc::Global;
use std::test::Fail;

/// The board of what is asked, over a state.
pub fn board(alloc: Global, asked: &Asked, state: &State) -> Result<BoardIn<Receipt>, Fail> {
    let graph = graph(alloc, asked, state)?;
    Ok(board_of(alloc, Form::Plain, &graph)?)
}

/// That the recipe of a target is about to be run, where there is memory for it.
pub fn begun(alloc: Global, target: &[u8]) -> Option<Record>
    ensures begun { IfSome result (λ note. note ≡ records.Begun target.now) }
    ensures good { IfSome result (λ note. IsGood versions.Two note) }
{
    let target = ByteString::from_slice(alloc, target).ok()?;
    let note = Record::Begun { target };
    if note.check().is_err() {
        return None;
    }
    Some(note)
}

/// Submits a 'begun' of a node. What isn't taken is let go.
fn submit(board: &mut BoardIn<Receipt>, node: Node, note: Record) -> Option<Ticket>
    requires { IsGood versions.Two note }
{
    match board.submit(Form::Plain, node, note, None) {
        Ok((ticket, _none)) => Some(ticket),
        Err((_note, run)) => {
            let _receipt = run.map(|spent| spent.give_up());
            None
        }
    }
}

/// Claims the next node, whose target is this one, and submits its 'begun'.
pub fn submitted(
    alloc: Global,
    board: &mut BoardIn<Receipt>,
    target: &[u8],
) -> Option<(Node, Ticket)> {
    let node = board.claim()?;
    let note = begun(alloc, target)?;
    let ticket = submit(board, node, note)?;
    Some((node, ticket))
}

/// Takes in what the board has to be written.
pub fn take_in<D: Disk + Drop>(
    alloc: Global,
    site: &mut SiteIn<D>,
    board: &mut BoardIn<Receipt>,
) -> Result<(), FlushFault> {
    site.take_in(alloc, board)
}

/// Writes what was taken in, as a batch.
pub fn flush<D: Disk + Drop>(alloc: Global, site: &mut SiteIn<D>) -> Result<(), FlushFault> {
    site.flush(alloc)
}

/// The receipt of a record that was told at this ticket.
pub fn look<D: Disk + Drop>(site: &SiteIn<D>, ticket: Ticket, note: Record) -> Result<Receipt, Fail>
    ensures { IfOk result (λ r. r.noted ≡ note) }
{
    match site.look(ticket, note) {
        Ok(receipt) => Ok(receipt),
        Err(_note) => Err("another record was told there".into()),
    }
}
