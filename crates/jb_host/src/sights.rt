//! Looks at the files of the system, and the clock by which it stamps them.

use crate::host_place::HostPlace;
use jb_marks::{Sight, Sights};
use std::fs::{self, Metadata};
use std::os::unix::fs::MetadataExt;
use std::sync::Wait;
use std::thread;
use std::time::Duration;

/// clock_gettime(2): the clock of the last tick, by which Linux stamps files.
const CLOCK_REALTIME_COARSE: i32 = 5;

/// The clock by which it stamps some of them more finely, since Linux 6.13.
const CLOCK_REALTIME: i32 = 0;

/// Linux ticks each 10 ms, or more often.
const LONGEST_WAIT: u32 = 20;

const SECOND: i128 = 1_000_000_000;

fn moment(seconds: i64, nanoseconds: i64) -> i128 {
    i128::from(seconds) * SECOND + i128::from(nanoseconds)
}

// What a clock says, in nanoseconds since 1970. Where it can't be read no look counts.
fn time_by(clock: i32) -> i128 {
    let mut now = libc::types::timespec {
        tv_sec: 0,
        tv_nsec: 0,
    };
    if libc::clock_gettime(clock, &mut now) != 0 {
        return i128::MIN;
    }
    moment(now.tv_sec, now.tv_nsec)
}

/// The time of the last tick.
pub(crate) fn last_tick() -> i128 {
    time_by(CLOCK_REALTIME_COARSE)
}

/// The time, which no file that was changed before has passed, however finely it was stamped.
pub(crate) fn time_now() -> i128 {
    time_by(CLOCK_REALTIME)
}

fn sight_of(found: &Metadata) -> Sight {
    if !found.is_file() {
        return Sight::Other;
    }
    Sight::File {
        time: moment(found.mtime(), found.mtime_nsec()),
        size: found.len(),
        changed: moment(found.ctime(), found.ctime_nsec()),
    }
}

impl<R: Wait> Sights for HostPlace<'_, R> {
    ghost told = { λ place name sight. Unit {0} };

    ghost ticked = { λ place tick. Unit {0} };

    fn look(&self, name: &[u8]) -> Sight {
        let Ok(name) = std::str::from_utf8(name) else {
            return Sight::NoFile;
        };
        match fs::metadata(&self.host, name) {
            Ok(found) => sight_of(&found),
            Err(_) => Sight::NoFile,
        }
    }

    // Later than when the run began: each file that was changed before it has an earlier time.
    fn tick(&self) -> i128 {
        self.wait_for_tick(self.began);
        last_tick()
    }
}

impl<R: Wait> HostPlace<'_, R> {
    /// Waits until the clock has passed this tick, some milliseconds at most.
    pub(crate) fn wait_for_tick(&self, tick: i128) {
        for _ in 0..LONGEST_WAIT {
            if last_tick() > tick {
                return;
            }
            thread::sleep(&self.host, Duration::from_millis(1));
        }
    }
}
