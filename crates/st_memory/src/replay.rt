//! The calls of a disk in memory made once more, for one side: what a power cut needs to know of it.
ghost use Rattle.std.specs.Prelude.{◌≡◌, [], length, IfOk, OnOk};
ghost use Rattle.st_disk.specs.Crash.{overwritten};
ghost use Rattle.st_memory.specs.Memory.{blank, size_of, made_call, made, bytes_written, side_of, replay};
ghost use Rattle.st_memory.specs.PowerCut.{contents_of, contents_after};

use crate::call::Call;
use crate::mem_side::overwrite;
use st_disk::Which;
use std::alloc::{AllocError, Global};

/// What reads give, what the last sync left, and the ranges written since: where from, and how many bytes.
#[derive(Drop)]
pub(crate) struct Replay {
    pub(crate) bytes: Vec<u8>,
    pub(crate) synced: Vec<u8>,
    pub(crate) ranges: Vec<(usize, usize)>,
}

impl Replay {
    ghost use Rattle.st_memory.specs.Replay.{replay_view};

    /// The side after these calls, whose written bytes stand one after the other.
    pub(crate) fn of(
        alloc: Global,
        side: Which,
        calls: &[Call],
        written: &[u8],
    ) -> Result<Replay, AllocError>
        requires { bytes_written calls.now ≡ length written.now }
        ensures { IfOk result (λ r.
            replay_view r ≡ contents_of (side_of side (replay blank (made calls.now written.now)))) }
    {
        let mut replay = Replay {
            bytes: Vec::new(alloc),
            synced: Vec::new(alloc),
            ranges: Vec::new(alloc),
        };
        let mut rest = written;
        for call in calls {
            let (bytes, behind) = rest.split_at(call.size());
            replay.repeat(side, *call, bytes)?;
            rest = behind;
        }
        Ok(replay)
    }

    fn repeat(&mut self, side: Which, call: Call, bytes: &[u8]) -> Result<(), AllocError>
        requires { length bytes.now ≡ size_of call }
        ensures { OnOk result (replay_view self.new ≡ contents_after side (made_call call bytes.now) (replay_view self.old)) }
    {
        match call {
            Call::Write {
                side: written,
                at,
                len,
            } => {
                if written == side {
                    append_or_overwrite(&mut self.bytes, at, bytes)?;
                    self.ranges.push((at, len))?;
                }
            }
            Call::Cut { side: cut, len } => {
                if cut == side {
                    self.bytes.truncate(len);
                }
            }
            Call::Sync { side: synced } => {
                if synced == side {
                    self.synced.clear();
                    self.synced.extend_from_slice(&self.bytes)?;
                    self.ranges.clear();
                }
            }
        }
        Ok(())
    }
}

fn append_or_overwrite(held: &mut Vec<u8>, at: usize, bytes: &[u8]) -> Result<(), AllocError>
    ensures { OnOk result (held.new.items ≡ overwritten held.old.items at bytes.now) }
{
    held.reserve(bytes.len())?;
    let from = at.min(held.len());
    overwrite(held, from, bytes);
    Ok(())
}
