//! What the program prints and answers: a listing and 0, or one line with the fault and 2.

ghost use Rattle.std.specs.Prelude.{◌≡◌, ◌⊎◌};
ghost use Rattle.std.specs.Io.KnownBytes.{Appends, Keeps};
ghost use Rattle.st_state.specs.State.{StateMap};
ghost use Rattle.st_file.specs.declared.fault.OpenFault.{OpenFault};
ghost use Rattle.st_listing.specs.Listing.{listing};
ghost use Rattle.st_listing.specs.Read.{Recovers, RefusesWith, PairComesToRecords};
ghost use Rattle.st_listing.specs.Writing.{AppendsPart};

use st_disk::{FailedCall, FailedCallMessage};
use st_listing::{ListFault, list};
use st_programs::Message;
use st_records::HashKey;
use std::alloc::Global;
use std::io::Write;

/// Prints the listing of what the two sides hold to `out` and answers 0, or prints one line with the fault to `err`
/// and answers 2. A line that can't be printed changes nothing of the answer.
pub fn show<O: Write, E: Write>(
    alloc: Global,
    key: HashKey,
    file: &str,
    a: &mut Vec<u8>,
    b: &mut Vec<u8>,
    out: &mut O,
    err: &mut E,
) -> u8
    ensures status { (result ≡ 0) ⊎ (result ≡ 2) }
    ensures listed { result ≡ 0 → (m : StateMap) × (Recovers a.old.items b.old.items m × Appends (O.contents out.old) (O.contents out.new) (listing m)) }
    ensures quiet { result ≡ 0 → err.new ≡ err.old }
    ensures refused { (f : OpenFault) → RefusesWith a.old.items b.old.items f → (result ≡ 2) × Keeps (O.contents out.old) (O.contents out.new) }

    // Sides that aren't refused and have no records to be read are listed, whatever memory there is.
    ensures cause { result ≡ 2 → ((f : OpenFault) × RefusesWith a.old.items b.old.items f) ⊎ PairComesToRecords a.old.items b.old.items }
    // Where a state is recovered and the answer is 2, nothing or a part of its listing went out.
    ensures part { (m : StateMap) → Recovers a.old.items b.old.items m → result ≡ 2 → Keeps (O.contents out.old) (O.contents out.new)
        ⊎ AppendsPart (O.contents out.old) (O.contents out.new) (listing m) }
{
    match list(alloc, key, a, b, out) {
        Ok(()) => 0,
        Err(fault) => refuse(file, fault, err),
    }
}

/// Prints the fault and answers 2.
pub fn refuse<E: Write>(file: &str, fault: ListFault, err: &mut E) -> u8
    ensures { result ≡ 2 }
{
    print_fault(err, Message { file, fault });
    2
}

/// Says which call of the system failed, behind the fault that it came to.
pub fn print_failed_call<E: Write>(file: &str, failed: FailedCall, err: &mut E) {
    let message = FailedCallMessage {
        state: file,
        failed,
    };
    let _ = writeln!(err, "dmk_state: note: {message}");
}

/// Prints one line with the fault.
fn print_fault<E: Write>(err: &mut E, message: Message<'_>) {
    let _ = writeln!(err, "dmk_state: {message}");
}
