//! A disk in memory that may stop or fail one call, and the store that is open on it. Each call of many clauses stands
//! here once, over any disk, where its clauses are not unfolded.
ghost use Rattle.std.specs.Prelude.{◌≡◌, ◌≤◌, true, false, IsTrue};
ghost use Rattle.std.specs.List.{AllByRecursion};
ghost use Rattle.st_records.specs.declared.version.Version.TheVariants as versions;
ghost use Rattle.st_records.specs.Limits.{IsGood, SaysExplicit};
ghost use Rattle.st_records.specs.Parts.{status_of};
ghost use Rattle.st_file.specs.Batch.{may_stand};

use record_rows::records_of;
use row_files::RowFault;
use st_compaction::compact;
use st_disk::Disk;
use st_doubles::{FailOnce, Fuse};
use st_file::{CommitFault, OpenFault};
use st_memory::MemDisk;
use st_records::{ByteString, Explicit, HashKey, Record};
use st_recovery::{Store, open};
use std::alloc::{AllocError, Global};

/// More calls of a disk than any row makes.
pub(crate) const MANY: u64 = 1_000_000;

/// A disk that may fail one call, and may stop.
pub(crate) type Device = FailOnce<Fuse<MemDisk>>;

/// A disk over memory that may fail calls.
pub(crate) trait OverMemory {
    fn memory(&self) -> &MemDisk;

    /// How many calls pass before one fails.
    fn calls_left(&self) -> u64;

    /// How many calls were refused.
    fn refused(&self) -> u64;
}

impl OverMemory for Device {
    fn memory(&self) -> &MemDisk {
        &self.inner.inner
    }

    fn calls_left(&self) -> u64 {
        self.plan.calls_left
    }

    fn refused(&self) -> u64 {
        self.refused.saturating_add(self.inner.refused)
    }
}

/// What is open over a disk of this type.
pub(crate) enum Held<D: Disk + Drop> {
    Nothing,
    Disk(D),
    Store(Store<D>),
}

impl<D: Disk + Drop> Drop for Held<D> {
    fn drop(self) {
        match self {
            Held::Nothing => {}
            Held::Disk(disk) => drop(disk),
            Held::Store(store) => drop(store),
        }
    }
}

impl<D: Disk + Drop> Held<D> {
    pub(crate) fn store(&mut self) -> Result<&mut Store<D>, RowFault> {
        match self {
            Held::Store(store) => Ok(store),
            _ => Err(RowFault::NotOpen),
        }
    }

    /// The disk within.
    pub(crate) fn device(&self) -> Result<&D, RowFault> {
        match self {
            Held::Nothing => Err(RowFault::NotOpen),
            Held::Disk(disk) => Ok(disk),
            Held::Store(store) => Ok(&store.log.disk),
        }
    }

    pub(crate) fn into_device(self) -> Result<D, RowFault> {
        match self {
            Held::Nothing => Err(RowFault::NotOpen),
            Held::Disk(disk) => Ok(disk),
            Held::Store(store) => Ok(store.log.disk),
        }
    }
}

/// `commit RECORDS`, or `compact`.
pub(crate) enum Change {
    Commit(Vec<Record>),
    Compact,
}

impl Drop for Change {
    fn drop(self) {
        match self {
            Change::Commit(records) => drop(records),
            Change::Compact => {}
        }
    }
}

impl Change {
    /// The commit of one record: that a target's recipe began.
    pub(crate) fn begun(alloc: Global, target: &[u8]) -> Result<Change, AllocError> {
        let mut records = Vec::with_capacity(alloc, 1)?;
        push_begun(alloc, &mut records, target)?;
        Ok(Change::Commit(records))
    }

    pub(crate) fn of(alloc: Global, name: &str, rest: &str) -> Result<Change, RowFault> {
        match name {
            "commit" => Ok(Change::Commit(records_of(alloc, rest)?)),
            "compact" => Ok(Change::Compact),
            _ => Err(RowFault::Word),
        }
    }
}

fn push_begun(alloc: Global, records: &mut Vec<Record>, target: &[u8]) -> Result<(), AllocError> {
    let target = ByteString::from_slice(alloc, target)?;
    add(records, Record::Begun { target })
}

// A list grows here over any type, where what isn't taken is let go by one call.
fn add<T: Drop>(list: &mut Vec<T>, item: T) -> Result<(), AllocError> {
    list.push(item)?;
    Ok(())
}

/// So many calls of the disk pass before it stops, or before one fails.
pub(crate) fn device_of(memory: MemDisk, stop: u64, fail: u64) -> Device {
    FailOnce::new(Fuse::new(memory, stop), fail)
}

/// The store of a disk, or why it is refused, and the disk.
pub fn opened<D: Disk + Drop>(alloc: Global, disk: D) -> Result<Store<D>, (OpenFault, D)> {
    open(alloc, HashKey::fixed(), disk)
}

fn has_listed_parts(note: &Record) -> bool
    ensures status { IsTrue result → status_of note.now ≤ 256 }
    ensures explicit { IsTrue result → SaysExplicit versions.Two note.now }
    ensures later { IsTrue result → may_stand false note.now ≡ true }
{
    match note {
        Record::Begun { .. } => true,
        Record::Done { explicit, .. } => matches!(explicit, Explicit::Known(_)),
        Record::Failed { status, .. } => *status <= 256,
        Record::Kept { .. } => false,
    }
}

/// Whether a batch that isn't a side's first may hold the record.
fn may_be_committed(note: &Record) -> bool
    ensures good { IsTrue result → IsGood versions.Two note.now }
    ensures later { IsTrue result → may_stand false note.now ≡ true }
{
    has_listed_parts(note) && note.check().is_ok()
}

fn all_may_be_committed(records: &[Record]) -> bool
    ensures good { IsTrue result → AllByRecursion (IsGood versions.Two) records.now }
    ensures later { IsTrue result → AllByRecursion (λ r. may_stand false r ≡ true) records.now }
{
    match records {
        [] => true,
        [first, rest @ ..] => may_be_committed(first) && all_may_be_committed(rest),
    }
}

/// Commits records that a later batch may hold.
fn commit_good<D: Disk + Drop>(
    alloc: Global,
    store: &mut Store<D>,
    records: &[Record],
) -> Result<(), CommitFault>
    requires good { AllByRecursion (IsGood versions.Two) records.now }
    requires later { AllByRecursion (λ r. may_stand false r ≡ true) records.now }
{
    store.commit(alloc, records)
}

fn compacted<D: Disk + Drop>(alloc: Global, store: &mut Store<D>) -> Result<(), CommitFault> {
    compact(alloc, store)
}

/// Makes a change of a store: commits records that a later batch may hold, or compacts.
pub(crate) fn changed<D: Disk + Drop>(
    alloc: Global,
    store: &mut Store<D>,
    change: &Change,
) -> Result<Result<(), CommitFault>, RowFault> {
    match change {
        Change::Compact => Ok(compacted(alloc, store)),
        Change::Commit(records) => {
            if !all_may_be_committed(records) {
                return Err(RowFault::Word);
            }
            Ok(commit_good(alloc, store, records))
        }
    }
}
