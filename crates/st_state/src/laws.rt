//! What holds of every state, beside what a call answers. Nothing here runs: the body is empty.

ghost use Rattle.std.specs.Prelude.{List};
ghost use Rattle.std.specs.List.{AllByRecursion};
ghost use Rattle.std.specs.FinMap as map;
ghost use Rattle.st_records.specs.declared.version.Form.{Form};
ghost use Rattle.st_records.specs.declared.version.Version.{Version};
ghost use Rattle.st_records.specs.declared.record.Record.{Record};
ghost use Rattle.st_state.specs.Keepable.{AllCanBeKept, AllCanBeKeptIn, SaysAllOf};
ghost use Rattle.st_state.specs.State.{StateMap, apply_record, replay};
ghost use Rattle.st_records.specs.Limits.{IsGood, IsGoodIn};

/// Whatever good records are taken in, of either version, each entry of the state can be written as a good kept record of
/// version 2: the bytes that a kept record has more than the records that left its entry don't count.
pub fn entries_can_be_kept()
    ensures empty { AllCanBeKept map.empty }
    ensures one { (version : Version) (m : StateMap) (r : Record) → AllCanBeKept m → IsGood version r → AllCanBeKept (apply_record m r) }
    ensures all { (version : Version) (m : StateMap) (rs : List Record) → AllCanBeKept m → AllByRecursion (IsGood version) rs → AllCanBeKept (replay m rs) }
{}

/// Whatever good records of a form are taken in, each entry of the state can be written as a good kept record of that form or
/// of a later one, with its marks.
pub fn entries_can_be_kept_in()
    ensures empty { (written : Form) → AllCanBeKeptIn written map.empty }
    ensures one { (written form : Form) → SaysAllOf written form → (m : StateMap) (r : Record)
        → AllCanBeKeptIn written m → IsGoodIn form r → AllCanBeKeptIn written (apply_record m r) }
    ensures all { (written form : Form) → SaysAllOf written form → (m : StateMap) (rs : List Record)
        → AllCanBeKeptIn written m → AllByRecursion (IsGoodIn form) rs → AllCanBeKeptIn written (replay m rs) }
{}
