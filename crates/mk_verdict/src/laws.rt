//! What holds of the definitions alone. The functions do nothing: what they ensure is the law.
ghost use Rattle.std.specs.Prelude.{◌≡◌, Bool, true, Option, Some};
ghost use Rattle.st_records.specs.declared.record.Entry.{Entry};
ghost use Rattle.st_records.specs.declared.record.Phase.TheVariants as phase;
ghost use Rattle.mk_verdict.specs.declared.verdict.Target.{Target};
ghost use Rattle.mk_verdict.specs.declared.verdict.Verdict.{Verdict};
ghost use Rattle.mk_verdict.specs.declared.verdict.Verdict.TheVariants as verdict;
ghost use Rattle.mk_verdict.specs.declared.verdict.Reason.{Reason};
ghost use Rattle.mk_verdict.specs.declared.verdict.Reason.TheVariants as reason;
ghost use Rattle.mk_verdict.specs.Verdict.{Holds, IsVerdict};
ghost use Rattle.mk_verdict.specs.ByTimes.{HasNoMarks, HoldsByTimes};
ghost use Rattle.mk_verdict.specs.MadeOf.{IsAsRecorded, IsMadeOfWhatIsThere};

/// A target has one verdict.
pub fn one_verdict()
    ensures { (keeping : Bool) (entry : Option Entry) (target : Target) (a b : Verdict)
        → IsVerdict keeping entry target a → IsVerdict keeping entry target b → a ≡ b }
{}

/// A target whose recipe was begun and didn't come to an end is out of date, whatever the times of files.
pub fn begun_is_out_of_date()
    ensures { (entry : Entry) (target : Target) (a : Verdict) → entry.phase ≡ phase.Begun
        → IsVerdict true (Some entry) target a → a ≡ verdict.OutOfDate reason.WasBegun }
{}

/// Each target has a verdict.
pub fn each_judged()
    ensures { (keeping : Bool) (entry : Option Entry) (target : Target) → (a : Verdict) × IsVerdict keeping entry target a }
{}

/// The recipe that is recorded of a target that is up to date came to its end, and the files of the target and of each
/// prerequisite are those that are recorded.
pub fn up_to_date_is_as_recorded()
    ensures { (entry : Entry) (target : Target) → IsVerdict true (Some entry) target verdict.UpToDate → IsAsRecorded entry target }
{}

/// What the prerequisites of a target that is up to date hold now they have held since its recipe was begun: those whose marks are
/// looks at files from before that, where such looks and those of now tell of changes.
pub fn made_of_what_is_there()
    ensures { IsMadeOfWhatIsThere }
{}

/// Of a target of which no marks are kept the reasons are those of times, and no others.
pub fn without_marks_by_times()
    ensures { (keeping : Bool) (entry : Option Entry) (target : Target) (reason : Reason) → HasNoMarks target
        → (Holds keeping entry target reason → HoldsByTimes keeping entry target reason)
        × (HoldsByTimes keeping entry target reason → Holds keeping entry target reason) }
{}
