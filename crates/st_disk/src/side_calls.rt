//! The calls of a disk over two files, on one side, made of a folder's calls.
ghost use Rattle.std.specs.Prelude.{◌≡◌, ◌+◌, ◌<◌, ◌≤◌, true, false, length, take, slice_range, IsErr, IfOk, OnOk, OnErr};
ghost use Rattle.st_disk.specs.Crash.{other, overwritten};
ghost use Rattle.st_disk.specs.Moments.{after_write, after_cut, after_sync, Passes, MayPass};
ghost use Rattle.st_disk.specs.Folder.{Stays, StaysAt};
ghost use Rattle.st_disk.specs.OpenSide.{Fits};
ghost use Rattle.st_disk.specs.declared.open_side.Found.TheVariants.{NotAsked, Missing};

use crate::Which;
use crate::folder::Folder;
use crate::open_side::{Found, OpenSide};
use std::io::{self, ErrorKind};

fn failed_before() -> io::Error {
    ErrorKind::Other.into()
}

/// Looks for the file, once.
fn look<F: Folder>(calls: &mut F, opened: &mut OpenSide<F::File>, side: Which) -> io::Result<()>
    requires fits { F.honest → Fits F.side_of
        (F.missing calls.old) (F.durable calls.old) (F.sound calls.old) side opened.old.found opened.old.name_synced }
    ensures fits { F.honest → Fits F.side_of
        (F.missing calls.new) (F.durable calls.new) (F.sound calls.new) side opened.new.found opened.new.name_synced }
    ensures known { OnOk result (opened.new.found ≡ NotAsked → ⊥) }
    ensures name_synced { opened.new.name_synced ≡ opened.old.name_synced }
    ensures failed { opened.new.failed ≡ opened.old.failed }
    ensures held { F.honest → F.held calls.new ≡ F.held calls.old }
    ensures moments { F.honest → F.moments calls.new ≡ F.moments calls.old }
    ensures other_missing { F.honest → StaysAt (other side) (F.missing calls.old) (F.missing calls.new) }
    ensures other_durable { F.honest → StaysAt (other side) (F.durable calls.old) (F.durable calls.new) }
    ensures other_sound { F.honest → StaysAt (other side) (F.sound calls.old) (F.sound calls.new) }
{
    if matches!(opened.found, Found::NotAsked) {
        opened.found = match calls.find(side)? {
            Some(file) => Found::There(file),
            None => Found::Missing,
        };
    }
    Ok(())
}

/// Makes the file where it is missing.
fn make<F: Folder>(calls: &mut F, opened: &mut OpenSide<F::File>, side: Which) -> io::Result<()>
    requires fits { F.honest → opened.old.failed ≡ false → Fits F.side_of
        (F.missing calls.old) (F.durable calls.old) (F.sound calls.old) side opened.old.found opened.old.name_synced }
    ensures fits { F.honest → opened.new.failed ≡ false → Fits F.side_of
        (F.missing calls.new) (F.durable calls.new) (F.sound calls.new) side opened.new.found opened.new.name_synced }
    ensures there { OnOk result ((opened.new.found ≡ NotAsked → ⊥) × (opened.new.found ≡ Missing → ⊥)) }
    ensures sound { OnOk result (opened.new.failed ≡ false) }
    ensures latched { opened.old.failed ≡ true → IsErr result × (calls.new ≡ calls.old) × (opened.new ≡ opened.old) }
    ensures latches { OnErr result (opened.new.failed ≡ true) }
    ensures held { F.honest → F.held calls.new ≡ F.held calls.old }
    ensures moments { F.honest → F.moments calls.new ≡ F.moments calls.old }
    ensures other_missing { F.honest → StaysAt (other side) (F.missing calls.old) (F.missing calls.new) }
    ensures other_durable { F.honest → StaysAt (other side) (F.durable calls.old) (F.durable calls.new) }
    ensures other_sound { F.honest → StaysAt (other side) (F.sound calls.old) (F.sound calls.new) }
{
    if opened.failed {
        return Err(failed_before());
    }
    opened.failed = true;
    look(calls, opened, side)?;
    if matches!(opened.found, Found::Missing) {
        let file = calls.create(side)?;
        opened.found = Found::There(file);
        opened.name_synced = false;
    }
    opened.failed = false;
    Ok(())
}

pub(crate) fn len<F: Folder>(
    calls: &mut F,
    opened: &mut OpenSide<F::File>,
    side: Which,
) -> io::Result<usize>
    requires fits { F.honest → opened.old.failed ≡ false → Fits F.side_of
        (F.missing calls.old) (F.durable calls.old) (F.sound calls.old) side opened.old.found opened.old.name_synced }
    ensures fits { F.honest → opened.new.failed ≡ false → Fits F.side_of
        (F.missing calls.new) (F.durable calls.new) (F.sound calls.new) side opened.new.found opened.new.name_synced }
    ensures len { F.honest → IfOk result (λ n. n ≡ length (F.held calls.old side)) }
    ensures latched { opened.old.failed ≡ true → IsErr result × (calls.new ≡ calls.old) × (opened.new ≡ opened.old) }
    ensures held { F.honest → F.held calls.new ≡ F.held calls.old }
    ensures moments { F.honest → F.moments calls.new ≡ F.moments calls.old }
    ensures other_missing { F.honest → StaysAt (other side) (F.missing calls.old) (F.missing calls.new) }
    ensures other_durable { F.honest → StaysAt (other side) (F.durable calls.old) (F.durable calls.new) }
    ensures other_sound { F.honest → StaysAt (other side) (F.sound calls.old) (F.sound calls.new) }
{
    if opened.failed {
        return Err(failed_before());
    }
    look(calls, opened, side)?;
    match &opened.found {
        Found::There(file) => calls.len(file),
        Found::NotAsked | Found::Missing => Ok(0),
    }
}

pub(crate) fn read<F: Folder>(
    calls: &mut F,
    opened: &mut OpenSide<F::File>,
    side: Which,
    at: usize,
    buf: &mut [u8],
) -> io::Result<()>
    requires fits { F.honest → opened.old.failed ≡ false → Fits F.side_of
        (F.missing calls.old) (F.durable calls.old) (F.sound calls.old) side opened.old.found opened.old.name_synced }
    requires within { F.honest → at + length buf.old ≤ length (F.held calls.old side) }
    ensures fits { F.honest → opened.new.failed ≡ false → Fits F.side_of
        (F.missing calls.new) (F.durable calls.new) (F.sound calls.new) side opened.new.found opened.new.name_synced }
    ensures bytes { F.honest →
        OnOk result (buf.new ≡ slice_range (F.held calls.old side) at (at + length buf.old)) }
    ensures latched { opened.old.failed ≡ true → IsErr result × (calls.new ≡ calls.old) × (opened.new ≡ opened.old) }
    ensures held { F.honest → F.held calls.new ≡ F.held calls.old }
    ensures moments { F.honest → F.moments calls.new ≡ F.moments calls.old }
    ensures other_missing { F.honest → StaysAt (other side) (F.missing calls.old) (F.missing calls.new) }
    ensures other_durable { F.honest → StaysAt (other side) (F.durable calls.old) (F.durable calls.new) }
    ensures other_sound { F.honest → StaysAt (other side) (F.sound calls.old) (F.sound calls.new) }
{
    if opened.failed {
        return Err(failed_before());
    }
    look(calls, opened, side)?;
    let read = match &opened.found {
        Found::There(file) => calls.read_at(file, buf, at)?,
        Found::NotAsked | Found::Missing => 0,
    };
    if read != buf.len() {
        return Err(ErrorKind::UnexpectedEof.into());
    }
    Ok(())
}

pub(crate) fn write<F: Folder>(
    calls: &mut F,
    opened: &mut OpenSide<F::File>,
    side: Which,
    at: usize,
    bytes: &[u8],
) -> io::Result<()>
    requires fits { F.honest → opened.old.failed ≡ false → Fits F.side_of
        (F.missing calls.old) (F.durable calls.old) (F.sound calls.old) side opened.old.found opened.old.name_synced }
    requires within { F.honest → at ≤ length (F.held calls.old side) }
    ensures fits { F.honest → opened.new.failed ≡ false → Fits F.side_of
        (F.missing calls.new) (F.durable calls.new) (F.sound calls.new) side opened.new.found opened.new.name_synced }
    ensures written { F.honest →
        OnOk result (F.held calls.new side ≡ overwritten (F.held calls.old side) at bytes.now) }
    ensures other { F.honest → F.held calls.new (other side) ≡ F.held calls.old (other side) }
    ensures passes { F.honest → OnOk result (Passes
        (after_write side at (length bytes.now) (F.moments calls.old)) (F.moments calls.old) (F.moments calls.new)) }
    ensures moments { F.honest → MayPass
        (after_write side at (length bytes.now) (F.moments calls.old)) (F.moments calls.old) (F.moments calls.new) }
    ensures latched { opened.old.failed ≡ true → IsErr result × (calls.new ≡ calls.old) × (opened.new ≡ opened.old) }
    ensures latches { OnErr result (opened.new.failed ≡ true) }
    ensures other_missing { F.honest → StaysAt (other side) (F.missing calls.old) (F.missing calls.new) }
    ensures other_durable { F.honest → StaysAt (other side) (F.durable calls.old) (F.durable calls.new) }
    ensures other_sound { F.honest → StaysAt (other side) (F.sound calls.old) (F.sound calls.new) }
{
    make(calls, opened, side)?;
    opened.failed = true;
    let Found::There(file) = &opened.found else {
        return Err(ErrorKind::NotFound.into());
    };
    if calls.write_at(file, bytes, at)? != bytes.len() {
        return Err(ErrorKind::WriteZero.into());
    }
    opened.failed = false;
    Ok(())
}

/// A cut that would lengthen the file fails, one to the length now makes no call.
#[tactic(auto, using(std::proofs::lemmas::List::take_all))]
fn shorten<F: Folder>(calls: &mut F, file: &F::File, len: usize) -> io::Result<()>
    requires { F.honest → len ≤ length (F.held calls.old (F.side_of file.now)) }
    ensures cut { F.honest → OnOk result
        (F.held calls.new (F.side_of file.now) ≡ take len (F.held calls.old (F.side_of file.now))) }
    ensures other { F.honest →
        F.held calls.new (other (F.side_of file.now)) ≡ F.held calls.old (other (F.side_of file.now)) }
    ensures passes { F.honest → len < length (F.held calls.old (F.side_of file.now)) → OnOk result (Passes
        (after_cut (F.side_of file.now) len (F.moments calls.old)) (F.moments calls.old) (F.moments calls.new)) }
    ensures moments { F.honest → MayPass
        (after_cut (F.side_of file.now) len (F.moments calls.old)) (F.moments calls.old) (F.moments calls.new) }
    ensures missing { F.honest → Stays (F.missing calls.old) (F.missing calls.new) }
    ensures durable { F.honest → Stays (F.durable calls.old) (F.durable calls.new) }
    ensures sound { F.honest → OnOk result (StaysAt (F.side_of file.now) (F.sound calls.old) (F.sound calls.new)) }
    ensures other_sound { F.honest → StaysAt (other (F.side_of file.now)) (F.sound calls.old) (F.sound calls.new) }
{
    let now = calls.len(file)?;
    if len > now {
        return Err(ErrorKind::InvalidInput.into());
    }
    if len < now {
        calls.set_len(file, len)?;
    }
    Ok(())
}

pub(crate) fn cut<F: Folder>(
    calls: &mut F,
    opened: &mut OpenSide<F::File>,
    side: Which,
    len: usize,
) -> io::Result<()>
    requires fits { F.honest → opened.old.failed ≡ false → Fits F.side_of
        (F.missing calls.old) (F.durable calls.old) (F.sound calls.old) side opened.old.found opened.old.name_synced }
    requires within { F.honest → len ≤ length (F.held calls.old side) }
    ensures fits { F.honest → opened.new.failed ≡ false → Fits F.side_of
        (F.missing calls.new) (F.durable calls.new) (F.sound calls.new) side opened.new.found opened.new.name_synced }
    ensures cut { F.honest → OnOk result (F.held calls.new side ≡ take len (F.held calls.old side)) }
    ensures other { F.honest → F.held calls.new (other side) ≡ F.held calls.old (other side) }
    ensures passes { F.honest → len < length (F.held calls.old side) → OnOk result (Passes
        (after_cut side len (F.moments calls.old)) (F.moments calls.old) (F.moments calls.new)) }
    ensures moments { F.honest → MayPass
        (after_cut side len (F.moments calls.old)) (F.moments calls.old) (F.moments calls.new) }
    ensures latched { opened.old.failed ≡ true → IsErr result × (calls.new ≡ calls.old) × (opened.new ≡ opened.old) }
    ensures latches { OnErr result (opened.new.failed ≡ true) }
    ensures other_missing { F.honest → StaysAt (other side) (F.missing calls.old) (F.missing calls.new) }
    ensures other_durable { F.honest → StaysAt (other side) (F.durable calls.old) (F.durable calls.new) }
    ensures other_sound { F.honest → StaysAt (other side) (F.sound calls.old) (F.sound calls.new) }
{
    if opened.failed {
        return Err(failed_before());
    }
    opened.failed = true;
    look(calls, opened, side)?;
    match &opened.found {
        Found::There(file) => shorten(calls, file, len)?,
        Found::NotAsked | Found::Missing if len > 0 => return Err(ErrorKind::InvalidInput.into()),
        Found::NotAsked | Found::Missing => {}
    }
    opened.failed = false;
    Ok(())
}

/// The name comes to the disk before the bytes, once a run and again after the file was made: a file that was found may
/// have been made by a process that was stopped before it came to that.
fn sync_side<F: Folder>(
    calls: &mut F,
    opened: &mut OpenSide<F::File>,
    side: Which,
) -> io::Result<()>
    requires fits { F.honest → opened.old.failed ≡ false → Fits F.side_of
        (F.missing calls.old) (F.durable calls.old) (F.sound calls.old) side opened.old.found opened.old.name_synced }
    ensures fits { F.honest → opened.new.failed ≡ false → Fits F.side_of
        (F.missing calls.new) (F.durable calls.new) (F.sound calls.new) side opened.new.found opened.new.name_synced }
    ensures held { F.honest → F.held calls.new ≡ F.held calls.old }
    ensures passes { F.honest → OnOk result (Passes
        (after_sync side (F.held calls.old side) (F.moments calls.old)) (F.moments calls.old) (F.moments calls.new)) }
    ensures failed { F.honest → OnErr result (F.moments calls.new ≡ F.moments calls.old) }
    ensures latched { opened.old.failed ≡ true → IsErr result × (calls.new ≡ calls.old) × (opened.new ≡ opened.old) }
    ensures latches { OnErr result (opened.new.failed ≡ true) }
    ensures other_missing { F.honest → StaysAt (other side) (F.missing calls.old) (F.missing calls.new) }
    ensures other_durable { F.honest → StaysAt (other side) (F.durable calls.old) (F.durable calls.new) }
    ensures other_sound { F.honest → OnOk result (StaysAt (other side) (F.sound calls.old) (F.sound calls.new)) }
{
    if opened.failed {
        return Err(failed_before());
    }
    opened.failed = true;
    look(calls, opened, side)?;
    match &opened.found {
        Found::There(file) => {
            if !opened.name_synced {
                calls.sync_name(file)?;
                opened.name_synced = true;
            }
            calls.sync(file)?;
        }
        Found::NotAsked | Found::Missing => calls.sync_missing(side)?,
    }
    opened.failed = false;
    Ok(())
}

/// Brings a side to the disk. Where that fails, the other side is given up too: both names stand in one folder.
pub(crate) fn sync<F: Folder>(
    calls: &mut F,
    opened: &mut OpenSide<F::File>,
    away: &mut OpenSide<F::File>,
    side: Which,
) -> io::Result<()>
    requires fits { F.honest → opened.old.failed ≡ false → Fits F.side_of
        (F.missing calls.old) (F.durable calls.old) (F.sound calls.old) side opened.old.found opened.old.name_synced }
    requires away_fits { F.honest → away.old.failed ≡ false → Fits F.side_of
        (F.missing calls.old) (F.durable calls.old) (F.sound calls.old) (other side) away.old.found away.old.name_synced }
    ensures fits { F.honest → opened.new.failed ≡ false → Fits F.side_of
        (F.missing calls.new) (F.durable calls.new) (F.sound calls.new) side opened.new.found opened.new.name_synced }
    ensures away_fits { F.honest → away.new.failed ≡ false → Fits F.side_of
        (F.missing calls.new) (F.durable calls.new) (F.sound calls.new) (other side) away.new.found away.new.name_synced }
    ensures held { F.honest → F.held calls.new ≡ F.held calls.old }
    ensures passes { F.honest → OnOk result (Passes
        (after_sync side (F.held calls.old side) (F.moments calls.old)) (F.moments calls.old) (F.moments calls.new)) }
    ensures failed { F.honest → OnErr result (F.moments calls.new ≡ F.moments calls.old) }
    ensures latched { opened.old.failed ≡ true → IsErr result × (calls.new ≡ calls.old) × (opened.new ≡ opened.old) }
    ensures latches { OnErr result ((opened.new.failed ≡ true) × (away.new.failed ≡ true)) }
{
    match sync_side(calls, opened, side) {
        Ok(()) => Ok(()),
        Err(error) => {
            away.failed = true;
            Err(error)
        }
    }
}
