//! Facts about pairs of sides, whoever reads them.

ghost use Rattle.std.specs.Prelude.{◌≡◌, ℕ, List};
ghost use Rattle.st_records.specs.declared.version.Form.{Form};
ghost use Rattle.st_recovery.specs.Recovers.{Outcome, HasOutcome, HasOutcomeIn};

use st_records::Form;

/// A pair of sides recovers a state or is refused, so `recover` is never without an answer.
pub fn every_pair_has_an_outcome(a: &[u8], b: &[u8])
    ensures { (o : Outcome) × HasOutcome a.now b.now o }
{}

/// A pair of sides recovers one state at most, or is refused with one fault, and not both.
pub fn one_recovery()
    ensures { (a b : List ℕ) (o p : Outcome) → HasOutcome a b o → HasOutcome a b p → o ≡ p }
{}

/// Both hold whichever version is the newest that is read.
pub fn every_pair_has_an_outcome_in(newest: Form, a: &[u8], b: &[u8])
    ensures { (o : Outcome) × HasOutcomeIn newest a.now b.now o }
{}

pub fn one_recovery_in()
    ensures { (newest : Form) (a b : List ℕ) (o p : Outcome) → HasOutcomeIn newest a b o → HasOutcomeIn newest a b p → o ≡ p }
{}
