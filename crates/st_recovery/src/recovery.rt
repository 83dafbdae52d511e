//! The state that a pair of sides recovers, or why it is refused.

ghost use Rattle.std.specs.Prelude.{◌≡◌, ◌≢◌, ◌⊎◌, ℕ, List, IfSome, IfNone, IfOk, IfErr, OnOk, IsErrOf};
ghost use Rattle.st_disk.specs.Faults.{Rises};
ghost use Rattle.st_records.specs.declared.version.Form.{Form};
ghost use Rattle.st_records.specs.declared.version.Form.TheVariants as forms;
ghost use Rattle.st_state.specs.Keepable.{AllCanBeKept};
ghost use Rattle.st_file.specs.Layout.{IsReadIn};
ghost use Rattle.st_file.specs.Side.{IsVoid};
ghost use Rattle.st_file.specs.declared.fault.OpenFault.TheVariants as faults;
ghost use Rattle.st_recovery.specs.Recovers.{Recovers, RecoversIn, WasReadIn, IsMadeOf, IsChosen, IsChosenIn, RefusesWith, RefusesWithIn, PairComesToRecords, PairComesToRecordsIn, Outcome, HasOutcome, HasOutcomeIn, outcome_of};
ghost use Rattle.st_recovery.specs.Stored.{HaveBytes};

use st_disk::{Disk, Which};
use st_file::{Extent, ExtentIn, OpenFault, read_from_in, read_side_in};
use st_records::{Form, HashKey};
use st_state::State;
use std::alloc::Global;

/// The side of a pair that counts, and the state that its records make.
#[derive(Debug, Drop)]
pub struct Chosen {
    pub side: Which,
    pub extent: Extent,
    pub state: State,
}

/// The same, with the form that the records of the side have.
#[derive(Debug, Drop)]
pub struct ChosenIn {
    pub side: Which,
    pub extent: ExtentIn,
    pub state: State,
}

impl ChosenIn {
    /// The same by its version, 1 or 2.
    fn by_version(self) -> Chosen
        requires { IsReadIn forms.Plain self.extent.form }
        ensures chosen { (a b : List ℕ)
            → IsChosenIn forms.Plain a b self.side self.extent.form self.extent.generation self.extent.end self.state
            → IsChosen a b result.side result.extent.version result.extent.generation result.extent.end result.state }
        ensures state { result.state ≡ self.state }
    {
        let ChosenIn {
            side,
            extent,
            state,
        } = self;
        Chosen {
            side,
            extent: extent.by_version(),
            state,
        }
    }
}

/// The state that the bytes of the two sides recover, or why they are refused: side A's fault, else side B's, else that
/// both hold one generation. `OpenFault::Device` is never answered, and want of memory only where reading comes to records.
/// Names are hashed under the key, which changes nothing of what is answered.
pub fn recover(alloc: Global, key: HashKey, a: &[u8], b: &[u8]) -> Result<State, OpenFault>
    // What is answered is so.
    ensures found { IfSome (outcome_of result) (HasOutcome a.now b.now) }
    // What is so is answered, unless memory ran out.
    ensures only { (o : Outcome) → HasOutcome a.now b.now o → IfSome (outcome_of result) (λ p. p ≡ o) }
    // Memory is wanted for records alone.
    ensures memory { IsErrOf result faults.OutOfMemory → PairComesToRecords a.now b.now }
    // Bytes in memory have no device.
    ensures device { IsErrOf result faults.Device → ⊥ }
{
    recover_in(alloc, key, Form::Plain, a, b)
}

/// The same where `newest` is the form of the newest version that is read.
pub fn recover_in(
    alloc: Global,
    key: HashKey,
    newest: Form,
    a: &[u8],
    b: &[u8],
) -> Result<State, OpenFault>
    ensures found { IfSome (outcome_of result) (HasOutcomeIn newest a.now b.now) }
    ensures only { (o : Outcome) → HasOutcomeIn newest a.now b.now o → IfSome (outcome_of result) (λ p. p ≡ o) }
    ensures memory { IsErrOf result faults.OutOfMemory → PairComesToRecordsIn newest a.now b.now }
    ensures device { IsErrOf result faults.Device → ⊥ }
{
    state_of(alloc, key, newest, a, b)
}

/// The state of the side that counts, the empty one where both are void.
fn state_of(
    alloc: Global,
    key: HashKey,
    newest: Form,
    a: &[u8],
    b: &[u8],
) -> Result<State, OpenFault>
    ensures found { IfSome (outcome_of result) (HasOutcomeIn newest a.now b.now) }
    ensures memory { IsErrOf result faults.OutOfMemory → PairComesToRecordsIn newest a.now b.now }
{
    match choose_in(alloc, key, newest, a, b) {
        Ok(Some(chosen)) => Ok(chosen.state),
        Ok(None) => Ok(State::with_key(alloc, key)),
        Err(fault) => Err(fault),
    }
}

/// The side that counts; None where both are void. Both sides are read whole before either wins, and refused as
/// `recover` refuses them.
pub fn choose(alloc: Global, key: HashKey, a: &[u8], b: &[u8]) -> Result<Option<Chosen>, OpenFault>
    ensures chosen { IfOk result (λ o. IfSome o (λ c. IsChosen a.now b.now c.side c.extent.version
        c.extent.generation c.extent.end c.state)) }
    ensures void { IfOk result (λ o. IfNone o (IsVoid a.now × IsVoid b.now)) }
    ensures refused { IfErr result (λ fault. (fault ≡ faults.OutOfMemory) ⊎ RefusesWith a.now b.now fault) }
    ensures memory { IsErrOf result faults.OutOfMemory → PairComesToRecords a.now b.now }
{
    match choose_in(alloc, key, Form::Plain, a, b)? {
        None => Ok(None),
        Some(chosen) => Ok(Some(chosen.by_version())),
    }
}

/// The same where `newest` is the form of the newest version that is read.
pub fn choose_in(
    alloc: Global,
    key: HashKey,
    newest: Form,
    a: &[u8],
    b: &[u8],
) -> Result<Option<ChosenIn>, OpenFault>
    ensures chosen { IfOk result (λ o. IfSome o (λ c. IsChosenIn newest a.now b.now c.side c.extent.form
        c.extent.generation c.extent.end c.state)) }
    ensures form { IfOk result (λ o. IfSome o (λ c. IsReadIn newest c.extent.form)) }
    ensures void { IfOk result (λ o. IfNone o (IsVoid a.now × IsVoid b.now)) }
    ensures refused { IfErr result (λ fault. (fault ≡ faults.OutOfMemory) ⊎ RefusesWithIn newest a.now b.now fault) }
    ensures memory { IsErrOf result faults.OutOfMemory → PairComesToRecordsIn newest a.now b.now }
{
    let mut a_state = State::with_key(alloc, key);
    let a_extent = read_side_in(alloc, newest, Which::A, a, &mut a_state)?;
    let mut b_state = State::with_key(alloc, key);
    let b_extent = read_side_in(alloc, newest, Which::B, b, &mut b_state)?;
    newer(a_extent, a_state, b_extent, b_state)
}

/// Of two sides that were read off the one that counts; None where both are void.
fn newer(
    a_extent: Option<ExtentIn>,
    a_state: State,
    b_extent: Option<ExtentIn>,
    b_state: State,
) -> Result<Option<ChosenIn>, OpenFault>
    ensures chosen { (newest : Form) (a b : List ℕ) → WasReadIn newest a a_extent a_state → WasReadIn newest b b_extent b_state
        → IfOk result (λ o. IfSome o (λ c. IsChosenIn newest a b c.side c.extent.form c.extent.generation c.extent.end c.state)) }
    ensures void { (newest : Form) (a b : List ℕ) → WasReadIn newest a a_extent a_state → WasReadIn newest b b_extent b_state
        → IfOk result (λ o. IfNone o (IsVoid a × IsVoid b)) }
    ensures refused { (newest : Form) (a b : List ℕ) → WasReadIn newest a a_extent a_state → WasReadIn newest b b_extent b_state
        → IfErr result (RefusesWithIn newest a b) }
    // What both have the one that counts has.
    ensures form { (newest : Form) → IfSome a_extent (λ e. IsReadIn newest e.form) → IfSome b_extent (λ e. IsReadIn newest e.form)
        → IfOk result (λ o. IfSome o (λ c. IsReadIn newest c.extent.form)) }
    ensures good { IfSome a_extent (λ e. IsMadeOf e.form a_state) → IfSome b_extent (λ e. IsMadeOf e.form b_state)
        → IfOk result (λ o. IfSome o (λ c. IsMadeOf c.extent.form c.state)) }
    ensures cause { IfErr result (λ fault. fault ≡ faults.SameGeneration) }
{
    match (a_extent, b_extent) {
        (None, None) => Ok(None),
        (Some(extent), None) => Ok(Some(ChosenIn {
            side: Which::A,
            extent,
            state: a_state,
        })),
        (None, Some(extent)) => Ok(Some(ChosenIn {
            side: Which::B,
            extent,
            state: b_state,
        })),
        (Some(a_extent), Some(b_extent)) => {
            if a_extent.generation == b_extent.generation {
                return Err(OpenFault::SameGeneration);
            }
            if a_extent.generation > b_extent.generation {
                Ok(Some(ChosenIn {
                    side: Which::A,
                    extent: a_extent,
                    state: a_state,
                }))
            } else {
                Ok(Some(ChosenIn {
                    side: Which::B,
                    extent: b_extent,
                    state: b_state,
                }))
            }
        }
    }
}

/// The state that the two sides of a disk recover, or why they are refused: as `recover` has it of their bytes, but for a side
/// that can't be read, which is told first.
pub fn recover_from<D: Disk>(alloc: Global, key: HashKey, disk: &mut D) -> Result<State, OpenFault>
    ensures found { D.honest → IfOk result (λ state. Recovers (D.seen disk.old Which.A) (D.seen disk.old Which.B) state) }
    ensures refused { D.honest → IfErr result (λ fault. (fault ≡ faults.Device) ⊎ ((fault ≡ faults.OutOfMemory)
        ⊎ RefusesWith (D.seen disk.old Which.A) (D.seen disk.old Which.B) fault)) }
    ensures seen { D.honest → D.seen disk.new ≡ D.seen disk.old }
    ensures moments { D.honest → D.moments disk.new ≡ D.moments disk.old }
    ensures success { OnOk result (D.faults disk.new ≡ D.faults disk.old) }
    ensures device { IsErrOf result faults.Device → Rises (D.faults disk.old) (D.faults disk.new) }
    // Memory is wanted only where a side has a byte.
    ensures memory { D.honest → IsErrOf result faults.OutOfMemory
        → HaveBytes (D.seen disk.old Which.A) (D.seen disk.old Which.B) }
{
    recover_from_in(alloc, key, Form::Plain, disk)
}

/// The same where `newest` is the form of the newest version that is read.
pub fn recover_from_in<D: Disk>(
    alloc: Global,
    key: HashKey,
    newest: Form,
    disk: &mut D,
) -> Result<State, OpenFault>
    ensures found { D.honest → IfOk result (λ state. RecoversIn newest (D.seen disk.old Which.A) (D.seen disk.old Which.B) state) }
    ensures refused { D.honest → IfErr result (λ fault. (fault ≡ faults.Device) ⊎ ((fault ≡ faults.OutOfMemory)
        ⊎ RefusesWithIn newest (D.seen disk.old Which.A) (D.seen disk.old Which.B) fault)) }
    ensures seen { D.honest → D.seen disk.new ≡ D.seen disk.old }
    ensures moments { D.honest → D.moments disk.new ≡ D.moments disk.old }
    ensures success { OnOk result (D.faults disk.new ≡ D.faults disk.old) }
    ensures device { IsErrOf result faults.Device → Rises (D.faults disk.old) (D.faults disk.new) }
    ensures memory { D.honest → IsErrOf result faults.OutOfMemory
        → HaveBytes (D.seen disk.old Which.A) (D.seen disk.old Which.B) }
{
    match choose_from_in(alloc, key, newest, disk) {
        Ok(Some(found)) => Ok(found.state),
        Ok(None) => Ok(State::with_key(alloc, key)),
        Err(fault) => Err(fault),
    }
}

/// The side of a disk that counts; None where both are void. Both are read, block after block, before either is judged, and
/// refused as `recover_from` refuses them.
pub fn choose_from<D: Disk>(
    alloc: Global,
    key: HashKey,
    disk: &mut D,
) -> Result<Option<Chosen>, OpenFault>
    ensures chosen { D.honest → IfOk result (λ o. IfSome o (λ c. IsChosen (D.seen disk.old Which.A) (D.seen disk.old Which.B)
        c.side c.extent.version c.extent.generation c.extent.end c.state)) }
    ensures keepable { IfOk result (λ o. IfSome o (λ c. AllCanBeKept c.state)) }
    ensures void { D.honest → IfOk result (λ o. IfNone o (IsVoid (D.seen disk.old Which.A) × IsVoid (D.seen disk.old Which.B))) }
    ensures refused { D.honest → IfErr result (λ fault. (fault ≡ faults.Device) ⊎ ((fault ≡ faults.OutOfMemory)
        ⊎ RefusesWith (D.seen disk.old Which.A) (D.seen disk.old Which.B) fault)) }
    ensures seen { D.honest → D.seen disk.new ≡ D.seen disk.old }
    ensures moments { D.honest → D.moments disk.new ≡ D.moments disk.old }
    ensures success { OnOk result (D.faults disk.new ≡ D.faults disk.old) }
    ensures device { IsErrOf result faults.Device → Rises (D.faults disk.old) (D.faults disk.new) }
    ensures memory { D.honest → IsErrOf result faults.OutOfMemory
        → HaveBytes (D.seen disk.old Which.A) (D.seen disk.old Which.B) }
{
    match choose_from_in(alloc, key, Form::Plain, disk)? {
        None => Ok(None),
        Some(chosen) => Ok(Some(chosen.by_version())),
    }
}

/// The same where `newest` is the form of the newest version that is read.
pub fn choose_from_in<D: Disk>(
    alloc: Global,
    key: HashKey,
    newest: Form,
    disk: &mut D,
) -> Result<Option<ChosenIn>, OpenFault>
    ensures chosen { D.honest → IfOk result (λ o. IfSome o (λ c. IsChosenIn newest (D.seen disk.old Which.A) (D.seen disk.old Which.B)
        c.side c.extent.form c.extent.generation c.extent.end c.state)) }
    ensures form { IfOk result (λ o. IfSome o (λ c. IsReadIn newest c.extent.form)) }
    // Whatever disk it is, good records of the side's form made the state.
    ensures good { IfOk result (λ o. IfSome o (λ c. IsMadeOf c.extent.form c.state)) }
    ensures void { D.honest → IfOk result (λ o. IfNone o (IsVoid (D.seen disk.old Which.A) × IsVoid (D.seen disk.old Which.B))) }
    ensures refused { D.honest → IfErr result (λ fault. (fault ≡ faults.Device) ⊎ ((fault ≡ faults.OutOfMemory)
        ⊎ RefusesWithIn newest (D.seen disk.old Which.A) (D.seen disk.old Which.B) fault)) }
    ensures seen { D.honest → D.seen disk.new ≡ D.seen disk.old }
    ensures moments { D.honest → D.moments disk.new ≡ D.moments disk.old }
    ensures success { OnOk result (D.faults disk.new ≡ D.faults disk.old) }
    ensures device { IsErrOf result faults.Device → Rises (D.faults disk.old) (D.faults disk.new) }
    ensures memory { D.honest → IsErrOf result faults.OutOfMemory
        → HaveBytes (D.seen disk.old Which.A) (D.seen disk.old Which.B) }
{
    let mut a_state = State::with_key(alloc, key);
    match read_from_in(alloc, newest, disk, Which::A, &mut a_state) {
        Ok(a_extent) => {
            let mut b_state = State::with_key(alloc, key);
            let b_extent = read_from_in(alloc, newest, disk, Which::B, &mut b_state)?;
            newer(a_extent, a_state, b_extent, b_state)
        }
        Err(fault) => Err(told_first(alloc, key, newest, disk, fault)),
    }
}

/// What is told where side A has this fault: that side B can't be read comes before a refusal of side A's bytes.
fn told_first<D: Disk>(
    alloc: Global,
    key: HashKey,
    newest: Form,
    disk: &mut D,
    fault: OpenFault,
) -> OpenFault
    ensures told { (result ≡ fault) ⊎ (result ≡ faults.Device) }
    ensures seen { D.honest → D.seen disk.new ≡ D.seen disk.old }
    ensures moments { D.honest → D.moments disk.new ≡ D.moments disk.old }
    ensures first { fault ≡ faults.Device → D.faults disk.new ≡ D.faults disk.old }
    ensures device { result ≡ faults.Device → fault ≢ faults.Device → Rises (D.faults disk.old) (D.faults disk.new) }
{
    match fault {
        OpenFault::Device | OpenFault::OutOfMemory => fault,
        _ => {
            let mut state = State::with_key(alloc, key);
            match read_from_in(alloc, newest, disk, Which::B, &mut state) {
                Err(OpenFault::Device) => OpenFault::Device,
                _ => fault,
            }
        }
    }
}
