//! Which records a node may submit.

ghost use Rattle.std.specs.Prelude.{◌≡◌, ◌↔◌, IsTrue, Some, slice_get};
ghost use Rattle.mk_recipe.specs.Line.{IsRecorded, Records};
ghost use Rattle.bd_lists.specs.Admission.{run_of, IsOwn, IsOf, MaySend};

use crate::Told;
use crate::board::Spent;
use bd_ledger::Sent;
use byte_strings::ByteStrings;
use mk_recipe::{Line, Outcome};
use st_records::Record;

fn is_recorded(line: &Line) -> bool
    ensures { IsTrue result ↔ IsRecorded line.now }
{
    !line.is_exempt && !line.is_blank()
}

fn is_at(commands: &ByteStrings, place: usize, text: &[u8]) -> bool
    ensures { IsTrue result ↔ (slice_get commands.now place ≡ Some text.now) }
{
    match commands.get(place) {
        Some(command) => command == text,
        None => false,
    }
}

/// Whether these are the commands that the state keeps of the lines.
fn are_recorded(lines: &[Line], commands: &ByteStrings) -> bool
    ensures { IsTrue result ↔ Records lines.now commands.now }
{
    let mut count = 0;
    for line in lines {
        if !is_recorded(line) {
            continue;
        }
        if !is_at(commands, count, line.text.as_slice()) {
            return false;
        }
        count += 1;
    }
    count == commands.len()
}

/// Whether a run is that of a node's 'begun'.
fn is_own<T: Told>(past: Sent, run: &Option<Spent<T>>) -> bool
    ensures { IsTrue result ↔ IsOwn past (run_of T.ticket_of run.now) }
{
    match run {
        Some(spent) => past == Sent::Begun(spent.told.ticket()),
        None => false,
    }
}

/// Whether a run came to its end, and the state keeps these commands of it.
fn is_of<T: Told>(commands: &ByteStrings, run: &Option<Spent<T>>) -> bool
    ensures { IsTrue result ↔ IsOf commands.now (run_of T.ticket_of run.now) }
{
    match run {
        Some(spent) => {
            matches!(spent.outcome, Outcome::Done) && are_recorded(&spent.recipe.lines, commands)
        }
        None => false,
    }
}

/// Whether a node that has submitted so much may submit a record with this run. It takes no memory.
pub(super) fn may_send<T: Told>(past: Sent, note: &Record, run: &Option<Spent<T>>) -> bool
    ensures { IsTrue result ↔ MaySend past note.now (run_of T.ticket_of run.now) }
{
    match note {
        Record::Begun { .. } => matches!(past, Sent::Nothing) && run.is_none(),
        Record::Done { commands, .. } => is_own(past, run) && is_of(commands, run),
        Record::Failed { .. } => is_own(past, run),
        Record::Kept { .. } => false,
    }
}
