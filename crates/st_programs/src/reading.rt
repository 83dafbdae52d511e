//! The state that a file has, whatever a run beside it writes.

use crate::sides::{Reading, settled};
use st_disk::{FailedCall, FileDisk, SystemFolder};
use st_file::OpenFault;
use st_records::{Form, HashKey};
use st_recovery::{recover_from_in, recover_in};
use st_state::State;

/// Why there is no state, and the call that failed where one did.
#[derive(Drop)]
pub struct Refusal {
    pub fault: OpenFault,
    pub failed: Option<FailedCall>,
}

/// The state that FILE and FILE.2, each of version 1, 2 or 4, recover, read block after block. Their files are closed then.
pub fn recovered(rt: HostRuntime, key: HashKey, file: &str) -> Result<State, OpenFault> {
    let alloc = rt.alloc();
    let folder = SystemFolder::new(rt, alloc, file)?;
    let mut disk = FileDisk::new(folder);
    recover_from_in(alloc, key, Form::Marked, &mut disk)
}

/// The same, or, where it is refused or has no names, as both are read whole once they are settled.
pub fn read_state(rt: HostRuntime, key: HashKey, file: &str) -> Result<State, Refusal> {
    if let Ok(state) = recovered(rt, key, file) {
        if state.len() > 0 {
            return Ok(state);
        }
    }
    let Reading { sides, failed } = settled(rt, key, file);
    let found = match sides {
        Ok((a, b)) => recover_in(rt.alloc(), key, Form::Marked, &a, &b),
        Err(fault) => Err(fault),
    };
    match found {
        Ok(state) => Ok(state),
        Err(fault) => Err(Refusal { fault, failed }),
    }
}
