//! One side, read from its first byte to its closed gate.

ghost use Rattle.std.specs.Prelude.{◌≡◌, ◌⊎◌, ℕ, List, [], IfSome, IfNone, IfOk, IfErr, IsErrOf};
ghost use Rattle.st_disk.specs.declared.which.Which.{Which};
ghost use Rattle.st_records.specs.declared.version.Form.{Form};
ghost use Rattle.st_records.specs.declared.version.Form.TheVariants as forms;
ghost use Rattle.st_records.specs.Forms.{form_of};
ghost use Rattle.st_records.specs.declared.record.Record.{Record};
ghost use Rattle.st_file.specs.Layout.{IsReadIn, HasHeaderIn};
ghost use Rattle.st_file.specs.declared.fault.OpenFault.TheVariants as faults;
ghost use Rattle.st_file.specs.Side.{IsVoid, HoldsUpTo, HoldsUpToIn, IsRefused, IsRefusedIn, Reading, ReadingIn, Reads, ReadsIn, ComesToRecords, ComesToRecordsIn};
ghost use Rattle.st_file.specs.Answer.{reading_of};

use crate::batch::{names_in, read_batch};
use crate::fault::OpenFault;
use crate::layout::{header_of, is_void};
use crate::sink::RecordSink;
use st_disk::Which;
use st_records::{Form, Record, Version};
use std::alloc::Global;

/// What a side holds.
#[derive(Debug, Drop)]
pub enum Side {
    /// Nothing yet: the side wasn't created, or its creation was cut short.
    Void,
    /// A version, a generation and the records of its batches. The closed gate behind them, where the next batch will
    /// stand, is at `end`. No batch is added to a side of version 1.
    Holding {
        version: Version,
        generation: u64,
        records: Vec<Record>,
        end: u64,
    },
}

/// What a side that isn't void has beside its records: its version, its generation, and where the closed gate behind
/// them stands.
#[derive(Clone, Copy, Debug, PartialEq, Eq)]
pub struct Extent {
    pub version: Version,
    pub generation: u64,
    pub end: u64,
}

/// The same, with the form that its records have.
#[derive(Clone, Copy, Debug, PartialEq, Eq)]
pub struct ExtentIn {
    pub form: Form,
    pub generation: u64,
    pub end: u64,
}

impl ExtentIn {
    /// The same by its version, 1 or 2.
    pub fn by_version(self) -> Extent
        requires { IsReadIn forms.Plain self.form }
        ensures form { form_of result.version ≡ self.form }
        ensures generation { result.generation ≡ self.generation }
        ensures end { result.end ≡ self.end }
    {
        Extent {
            version: version_of(self.form),
            generation: self.generation,
            end: self.end,
        }
    }
}

/// The version, 1 or 2, whose records have this form.
pub fn version_of(form: Form) -> Version
    requires { IsReadIn forms.Plain form }
    ensures { form_of result ≡ form }
{
    match form {
        Form::Old => Version::One,
        Form::Plain | Form::Marked => Version::Two,
    }
}

/// Reads the batches that stand behind the header of a side, up to the closed gate.
fn read_batches<S: RecordSink>(
    alloc: Global,
    side: Which,
    bytes: &[u8],
    form: Form,
    generation: u64,
    batches: &[u8],
    sink: &mut S,
) -> Result<ExtentIn, OpenFault>
    requires header { HasHeaderIn bytes.now form generation batches.now }
    requires fresh { S.has_taken sink.old [] }
    ensures held { IfOk result (λ extent. (held : List Record) × HoldsUpToIn bytes.now extent.form extent.generation held extent.end
        × S.has_taken sink.new held) }
    ensures form { (newest : Form) → IsReadIn newest form → IfOk result (λ extent. IsReadIn newest extent.form) }
    ensures refused { (newest : Form) → IsReadIn newest form
        → IfErr result (λ fault. (fault ≡ faults.OutOfMemory) ⊎ IsRefusedIn newest side bytes.now fault) }
    ensures memory { (newest : Form) → IsReadIn newest form → IsErrOf result faults.OutOfMemory → ComesToRecordsIn newest bytes.now }
{
    let mut rest = batches;
    let mut first = true;
    while !rest.is_empty() {
        let place = (bytes.len() - rest.len()) as u64;
        if rest[0] == 0 {
            return Ok(ExtentIn {
                form,
                generation,
                end: place,
            });
        }
        let (_gate, behind) = rest.split_at(1);
        let Some(after) = read_batch(alloc, form, first, behind, sink)? else {
            return Err(OpenFault::Damaged(side, place));
        };
        rest = after;
        first = false;
    }
    Err(OpenFault::Damaged(side, bytes.len() as u64))
}

/// Reads a side and hands its records on as they come; None of a void side, which has none. At an error the sink may
/// have taken in some of them.
pub fn read_side<S: RecordSink>(
    alloc: Global,
    side: Which,
    bytes: &[u8],
    sink: &mut S,
) -> Result<Option<Extent>, OpenFault>
    requires { S.has_taken sink.old [] }
    ensures void { IfOk result (λ found. IfNone found (IsVoid bytes.now × S.has_taken sink.new [])) }
    ensures held { IfOk result (λ found. IfSome found (λ extent. (held : List Record)
        × HoldsUpTo bytes.now extent.version extent.generation held extent.end × S.has_taken sink.new held)) }
    ensures refused { IfErr result (λ fault. (fault ≡ faults.OutOfMemory) ⊎ IsRefused side bytes.now fault) }
    ensures memory { IsErrOf result faults.OutOfMemory → ComesToRecords bytes.now }
{
    match read_side_in(alloc, Form::Plain, side, bytes, sink)? {
        None => Ok(None),
        Some(extent) => Ok(Some(extent.by_version())),
    }
}

/// The same where `newest` is the form of the newest version that is read.
pub fn read_side_in<S: RecordSink>(
    alloc: Global,
    newest: Form,
    side: Which,
    bytes: &[u8],
    sink: &mut S,
) -> Result<Option<ExtentIn>, OpenFault>
    requires { S.has_taken sink.old [] }
    ensures void { IfOk result (λ found. IfNone found (IsVoid bytes.now × S.has_taken sink.new [])) }
    ensures form { IfOk result (λ found. IfSome found (λ extent. IsReadIn newest extent.form)) }
    ensures held { IfOk result (λ found. IfSome found (λ extent. (held : List Record)
        × HoldsUpToIn bytes.now extent.form extent.generation held extent.end × S.has_taken sink.new held)) }
    ensures refused { IfErr result (λ fault. (fault ≡ faults.OutOfMemory) ⊎ IsRefusedIn newest side bytes.now fault) }
    ensures memory { IsErrOf result faults.OutOfMemory → ComesToRecordsIn newest bytes.now }
{
    if is_void(bytes) {
        return Ok(None);
    }
    let (form, generation, batches) = header_of(newest, side, bytes)?;
    sink.make_room(names_in(batches));
    Ok(Some(read_batches(alloc, side, bytes, form, generation, batches, sink)?))
}

/// What the bytes of a side hold, or the first fault in them, or that memory ran out. What stands behind the closed gate
/// isn't read, and nothing grows for a length or a count that the bytes don't bear out.
pub fn side_of(alloc: Global, side: Which, bytes: &[u8]) -> Result<Side, OpenFault>
    // What is answered is so.
    ensures found { IfSome (reading_of result) (Reads side bytes.now) }
    // What is so is answered, unless memory ran out.
    ensures only { (r : Reading) → Reads side bytes.now r → IfSome (reading_of result) (λ s. s ≡ r) }
    // Memory is wanted for records alone: neither for a header nor for a batch's frame.
    ensures memory { IsErrOf result faults.OutOfMemory → ComesToRecords bytes.now }
{
    collected(alloc, side, bytes)
}

/// What a side holds, its records in one list.
fn collected(alloc: Global, side: Which, bytes: &[u8]) -> Result<Side, OpenFault>
    ensures found { IfSome (reading_of result) (Reads side bytes.now) }
    ensures memory { IsErrOf result faults.OutOfMemory → ComesToRecords bytes.now }
{
    let mut records = Vec::new(alloc);
    match read_side(alloc, side, bytes, &mut records)? {
        None => Ok(Side::Void),
        Some(extent) => Ok(Side::Holding {
            version: extent.version,
            generation: extent.generation,
            records,
            end: extent.end,
        }),
    }
}

/// The bytes of a side are read in one way at least, so `side_of` is never without an answer.
pub fn every_side_has_a_reading(side: Which, bytes: &[u8])
    ensures { (r : Reading) × Reads side bytes.now r }
{}

/// The bytes of a side are read in one way at most.
pub fn one_reading()
    ensures { (side : Which) (x : List ℕ) (r s : Reading) → Reads side x r → Reads side x s → r ≡ s }
{}

/// Both hold whichever version is the newest that is read.
pub fn every_side_has_a_reading_in(newest: Form, side: Which, bytes: &[u8])
    ensures { (r : ReadingIn) × ReadsIn newest side bytes.now r }
{}

pub fn one_reading_in()
    ensures { (newest : Form) (side : Which) (x : List ℕ) (r s : ReadingIn) → ReadsIn newest side x r → ReadsIn newest side x s → r ≡ s }
{}
