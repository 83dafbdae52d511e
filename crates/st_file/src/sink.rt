//! Where the records of a side go as they are read, one after another.

ghost use Rattle.std.specs.Prelude.{◌≡◌, List, [], ◌∷◌, OnOk};
ghost use Rattle.std.specs.FinMap as map;
ghost use Rattle.st_records.specs.declared.record.Record.{Record};
ghost use Rattle.st_state.specs.State.{replay};
ghost use Rattle.st_file.specs.Sink.{AddsRecords};

use st_packed::PackedRecord;
use st_records::Record;
use st_state::State;
use std::alloc::{AllocError, Global};

/// What takes in the records of a side: a list of them, or the state that they make.
pub trait RecordSink {
    /// It has taken in just these records, in their order.
    ghost has_taken: { Self → List Record → Type 0 };

    /// Takes room for the records of as many more names, where there is memory for it.
    fn make_room(&mut self, names: usize)
        ensures { (taken : List Record) → has_taken self.old taken → has_taken self.new taken };

    /// Takes in one more record.
    fn take(&mut self, alloc: Global, event: PackedRecord) -> Result<(), AllocError>
        ensures { OnOk result (AddsRecords has_taken self.old self.new (event ∷ [])) };
}

/// All the records.
impl RecordSink for Vec<Record> {
    ghost has_taken = { λ v rs. v.items ≡ rs };

    fn make_room(&mut self, names: usize) {
        let _ = self.reserve(names);
    }

    fn take(&mut self, alloc: Global, event: PackedRecord) -> Result<(), AllocError> {
        self.push(event.unpack(alloc)?)?;
        Ok(())
    }
}

/// The state that they make of the empty one; each record is let go at once.
impl RecordSink for State {
    ghost has_taken = { λ m rs. m ≡ replay map.empty rs };

    fn make_room(&mut self, names: usize) {
        self.reserve(names);
    }

    fn take(&mut self, alloc: Global, event: PackedRecord) -> Result<(), AllocError> {
        self.apply_owned(alloc, event)
    }
}
