//! Which worker a thread is.

use std::fs;

/// The thread of a worker, as the system names it; None where it doesn't tell.
pub fn worker_name(host: HostRuntime) -> Option<String> {
    match fs::read_link(&host, "/proc/thread-self") {
        Ok(path) => Some(path.into_string()),
        Err(_) => None,
    }
}
