//! The two sides as the files hold them.

ghost use Rattle.std.specs.Prelude.{◌≡◌, ◌⊎◌, IfErr};
ghost use Rattle.st_file.specs.declared.fault.OpenFault.TheVariants as faults;

use st_disk::{FailedCall, FileDisk, SystemFolder, Which};
use st_file::{OpenFault, read_whole};
use st_records::{Form, HashKey};
use st_recovery::recover_in;
use std::alloc::Global;
use std::thread;
use std::time::Duration;

/// How often the sides are read at most.
const MAX_READINGS: usize = 100;

/// How many milliseconds a run has, between two readings, to end the step that the first one met.
const PAUSE_MILLISECONDS: u64 = 2;

/// The bytes of FILE and of FILE.2. A file that isn't there is an empty side; what isn't an ordinary file is a device
/// fault, and isn't opened.
pub type Sides = Result<(Vec<u8>, Vec<u8>), OpenFault>;

/// What a reading came to. The files are let go.
#[derive(Drop)]
pub struct Reading {
    pub sides: Sides,
    /// The call that failed, where one did.
    pub failed: Option<FailedCall>,
}

/// Reads both files.
pub fn read_sides(rt: HostRuntime, file: &str) -> Reading
    // No byte is judged here.
    ensures causes { IfErr result.sides (λ fault. (fault ≡ faults.Device) ⊎ (fault ≡ faults.OutOfMemory)) }
{
    let alloc = rt.alloc();
    let Ok(folder) = SystemFolder::new(rt, alloc, file) else {
        return Reading {
            sides: Err(OpenFault::OutOfMemory),
            failed: None,
        };
    };
    let mut disk = FileDisk::new(folder);
    let sides = read_both(alloc, &mut disk);
    let failed = disk.folder.failed_call();
    Reading { sides, failed }
}

fn read_both(alloc: Global, disk: &mut FileDisk<SystemFolder>) -> Sides
    ensures causes { IfErr result (λ fault. (fault ≡ faults.Device) ⊎ (fault ≡ faults.OutOfMemory)) }
{
    let a = read_whole(alloc, disk, Which::A)?;
    let b = read_whole(alloc, disk, Which::B)?;
    Ok((a, b))
}

/// Reads both files. What a run beside it may have brought about is read again, until two readings are the same.
pub fn settled(rt: HostRuntime, key: HashKey, file: &str) -> Reading {
    let mut reading = read_sides(rt, file);
    for _ in 1..MAX_READINGS {
        if !is_doubtful(rt.alloc(), key, &reading.sides) {
            break;
        }
        thread::sleep(&rt, Duration::from_millis(PAUSE_MILLISECONDS));
        let again = read_sides(rt, file);
        if are_same(&reading.sides, &again.sides) {
            break;
        }
        reading = again;
    }
    reading
}

// A reading that falls between two writes of a run may be refused, or find neither side's records.
fn is_doubtful(alloc: Global, key: HashKey, sides: &Sides) -> bool {
    match sides {
        Ok((a, b)) => match recover_in(alloc, key, Form::Marked, a, b) {
            Ok(_) => is_void(a) && is_void(b),
            Err(fault) => fault != OpenFault::OutOfMemory,
        },
        Err(fault) => *fault != OpenFault::OutOfMemory,
    }
}

fn is_void(side: &[u8]) -> bool {
    matches!(side.first(), None | Some(0))
}

fn are_same(one: &Sides, other: &Sides) -> bool {
    match (one, other) {
        (Ok(one), Ok(other)) => one.0 == other.0 && one.1 == other.1,
        (Err(one), Err(other)) => one == other,
        _ => false,
    }
}
