//! How many recipes a run may have at once where its own words don't say it.
ghost use Rattle.std.specs.Prelude.{◌≡◌, ◌<◌, IfOk, true};
ghost use Rattle.jb_auth.specs.Auth.{seen};
ghost use Rattle.jb_flags.specs.Words.{Reads};
ghost use Rattle.jb_flags.specs.Jobs.{jobs_of};
ghost use Rattle.jb_flags.specs.Workers.{within, count_of, workers_above, SaysAbove};

use crate::jobs::{Jobs, jobs_of};
use crate::words::words_of;
use jb_auth::{Auth, read_auth};
use std::alloc::{AllocError, Global};

/// How many recipes a run may have at once by MAKEFLAGS.
#[derive(Clone, Copy, Debug, PartialEq, Eq)]
pub struct Above {
    pub workers: u16,
    /// A number was asked for there.
    pub is_said: bool,
}

fn within(most: u16, number: u16) -> u16
    ensures { result ≡ within most number }
{
    number.min(most).max(1)
}

fn count_of(most: u16, processors: u16, jobs: Jobs) -> u16
    ensures { result ≡ count_of most processors jobs }
{
    match jobs {
        Jobs::Processors => within(most, processors),
        Jobs::UpTo(number) => within(most, number),
    }
}

fn workers_above(auth: Auth<'_>, asked: Option<Jobs>, processors: u16, most: u16) -> u16
    ensures { result ≡ workers_above (seen auth.entry) asked processors most }
{
    match auth {
        Auth::Fifo(_) => match asked {
            Some(jobs) => count_of(most, processors, jobs),
            None => within(most, processors),
        },
        Auth::Absent => match asked {
            Some(jobs) => count_of(most, processors, jobs),
            None => 1,
        },
        Auth::Disabled | Auth::Descriptors | Auth::Unreadable => 1,
    }
}

/// How many recipes a run may have at once by this MAKEFLAGS, where there are so many processors, and it can have so many at most.
pub fn workers_by(
    alloc: Global,
    makeflags: &[u8],
    processors: u16,
    most: u16,
) -> Result<Above, AllocError>
    ensures { IfOk result (SaysAbove makeflags.now processors most) }
{
    let words = words_of(alloc, makeflags)?;
    let asked = jobs_of(&words);
    Ok(Above {
        workers: workers_above(read_auth(makeflags), asked, processors, most),
        is_said: asked.is_some(),
    })
}
