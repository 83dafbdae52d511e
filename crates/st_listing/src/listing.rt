//! The listing of the state that two sides recover.

ghost use Rattle.std.specs.Prelude.{◌≡◌, ◌⊎◌, ◌<◌, ◌≤◌, length, take, MatchResult, OnOk, OnErr, IfOk, IfErr, IsErrOf};
ghost use Rattle.std.specs.FinMap as map;
ghost use Rattle.std.specs.Io.KnownBytes.{Appends, Keeps};
ghost use Rattle.st_state.specs.State.{StateMap};
ghost use Rattle.st_file.specs.declared.fault.OpenFault.{OpenFault};
ghost use Rattle.st_file.specs.declared.fault.OpenFault.TheVariants as open_faults;
ghost use Rattle.st_listing.specs.Listing.{listing};
ghost use Rattle.st_listing.specs.Read.{Recovers, RefusesWith, PairComesToRecords};
ghost use Rattle.st_listing.specs.Writing.{IsCause, AppendsPart, LeavesText, LeavesWriter, IsOfMachine};
ghost use Rattle.st_listing.specs.declared.listing.ListFault.TheVariants as faults;

use crate::output::WriteFailed;
use crate::text::write_lines;
use st_file::OpenFault;
use st_records::{Form, HashKey};
use st_recovery::recover_in;
use st_state::State;
use std::alloc::{AllocError, Global};
use std::io::Write;
use thiserror::Error;

// The text made whole took 560 MiB of memory in all for 4,000,000 names, in place of 461 (27 November 2026).
// As much of the listing waits until it is written.
const BUFFER_BYTES: usize = 1 << 16;

/// Why a state isn't listed, or not as a whole.
#[derive(Clone, Copy, Debug, PartialEq, Eq, Error)]
pub enum ListFault {
    /// The two sides recover no state, or there was no memory. Nothing was written.
    #[error("{0}")]
    Open(OpenFault),
    /// The writer failed. A beginning of the listing may have gone out, but not all of it.
    #[error("cannot write")]
    Write,
}

impl From<AllocError> for ListFault {
    ghost from_gives = { λ _ e. e ≡ faults.Open open_faults.OutOfMemory };

    fn from(_error: AllocError) -> ListFault {
        ListFault::Open(OpenFault::OutOfMemory)
    }
}

impl From<WriteFailed> for ListFault {
    ghost from_gives = { λ _ e. e ≡ faults.Write };

    fn from(_error: WriteFailed) -> ListFault {
        ListFault::Write
    }
}

/// Writes the listing of the state that the bytes of the two sides recover, each of version 1, 2 or 4. Where names are listed, the bytes are let go
/// first, so that they and the order of the names aren't in memory together.
pub fn list<W: Write>(
    alloc: Global,
    key: HashKey,
    a: &mut Vec<u8>,
    b: &mut Vec<u8>,
    writer: &mut W,
) -> Result<(), ListFault>
    // A state that is recovered is listed, but for want of memory and the writer's faults.
    ensures listed { (m : StateMap) → Recovers a.old.items b.old.items m → MatchResult result
        (λ _. Appends (W.contents writer.old) (W.contents writer.new) (listing m)) IsOfMachine }
    ensures refused { (f : OpenFault) → RefusesWith a.old.items b.old.items f → MatchResult result (λ _. ⊥)
        (λ g. (g ≡ faults.Open f) ⊎ (g ≡ faults.Open open_faults.OutOfMemory)) }

    // What is listed was recovered, and what is answered as a fault is so.
    ensures found { MatchResult result
        (λ _. (m : StateMap) × (Recovers a.old.items b.old.items m × Appends (W.contents writer.old) (W.contents writer.new) (listing m)))
        (IsCause a.old.items b.old.items) }
    ensures memory { IsErrOf result (faults.Open open_faults.OutOfMemory) → PairComesToRecords a.old.items b.old.items }

    ensures left { IfErr result (λ f. LeavesWriter a.old.items b.old.items f (W.contents writer.old) (W.contents writer.new)) }

    // Bytes that are refused, or list nothing, are still there: they may have to be compared with another reading.
    ensures kept { (f : OpenFault) → RefusesWith a.old.items b.old.items f → (a.new ≡ a.old) × (b.new ≡ b.old) }
    ensures kept_empty { (m : StateMap) → Recovers a.old.items b.old.items m → map.len m ≡ 0 → (a.new ≡ a.old) × (b.new ≡ b.old) }
{
    match recover_in(alloc, key, Form::Marked, a, b) {
        Ok(state) => {
            let_go(alloc, &state, a, b);
            write_listing(alloc, &state, writer)
        }
        Err(fault) => Err(ListFault::Open(fault)),
    }
}

// Lets the bytes of both sides go, where the state that they recover has names.
fn let_go(alloc: Global, state: &State, a: &mut Vec<u8>, b: &mut Vec<u8>)
    ensures { map.len state.now ≡ 0 → (a.new ≡ a.old) × (b.new ≡ b.old) }
{
    if state.len() > 0 {
        *a = Vec::new(alloc);
        *b = Vec::new(alloc);
    }
}

/// Writes the listing of a state, a buffer's fill at a time. All memory is taken before its first byte is written, so no want of
/// memory comes after that. A state without names takes none.
pub fn write_listing<W: Write>(
    alloc: Global,
    state: &State,
    writer: &mut W,
) -> Result<(), ListFault>
    ensures listed { OnOk result (Appends (W.contents writer.old) (W.contents writer.new) (listing state.now)) }
    ensures cause { IfErr result IsOfMachine }
    ensures memory { IsErrOf result (faults.Open open_faults.OutOfMemory) → 0 < map.len state.now }
    ensures left { IfErr result (λ f. LeavesText (listing state.now) f (W.contents writer.old) (W.contents writer.new)) }
{
    if state.len() == 0 {
        return Ok(());
    }
    let named = state.in_byte_order(alloc)?;
    let mut buffer = Vec::with_capacity(alloc, BUFFER_BYTES)?;
    write_lines(&mut buffer, writer, &named)?;
    Ok(())
}
