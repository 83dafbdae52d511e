//! What holds of the definitions alone.
ghost use Rattle.std.specs.Prelude.{◌≡◌, ◌↔◌, ℕ, Bool, true, List, ◌∷◌, Option, Some, None, Result, Ok, Err};
ghost use Rattle.mk_conditionals.specs.Define.{AreWhole, open_behind};
ghost use Rattle.mk_conditionals.specs.Lines.{Line, Why, Lines, Steps, faulty};
ghost use Rattle.mk_conditionals.specs.Machine.{placed, Answered, read_in_turn};
ghost use Rattle.mk_conditionals.specs.Nest.{active, wants_test, first_branch, turned_if, turned_last, ended};
ghost use Rattle.mk_conditionals.specs.Spelled.{Said, said};
ghost use Rattle.mk_conditionals.specs.Spelling.{Spells};
ghost use Rattle.mk_conditionals.specs.declared.branch.Branch.{Branch};
ghost use Rattle.mk_conditionals.specs.declared.directive.Directive.TheVariants.{Begins, Turns, Ends};

use crate::reading::Reading;

/// What the code reads of a line is what the line spells. So each line says one thing, and one alone.
pub fn each_line_is_as_it_is_spelled()
    ensures { (text : List ℕ) (told : Option Said) → (said text ≡ told) ↔ Spells text told }
{}

/// In the body of a `define`, lines in which each `define` has its `endef` are passed over whole.
pub fn inner_defines_are_passed_over()
    ensures { (depth : ℕ) (lines : List (List ℕ)) → AreWhole lines → open_behind depth lines ≡ Some depth }
{}

/// Lines have one outcome, where tests and statements have.
pub fn one_outcome<R: Reading>()
    ensures { ((w : R.World) (t : R.Test) (a b : Result Bool R.Fault) → R.comes_to w t a → R.comes_to w t b → a ≡ b)
        → ((w : R.World) (s : R.Statement) (a b : Result (List R.Item) R.Fault) → R.gives w s a → R.gives w s b → a ≡ b)
        → (nest : List Branch) (world : R.World) (lines : List (Line R.Test R.Statement)) (one other : Result (List R.Item) (Why R.Fault))
        → Lines R.after R.comes_to R.gives nest world lines one
        → Lines R.after R.comes_to R.gives nest world lines other
        → one ≡ other }
{}

/// Lines have an outcome, where tests and statements have.
pub fn an_outcome<R: Reading>()
    ensures { ((w : R.World) (t : R.Test) → (r : Result Bool R.Fault) × R.comes_to w t r)
        → ((w : R.World) (s : R.Statement) → (r : Result (List R.Item) R.Fault) × R.gives w s r)
        → (nest : List Branch) (world : R.World) (lines : List (Line R.Test R.Statement))
        → (outcome : Result (List R.Item) (Why R.Fault)) × Lines R.after R.comes_to R.gives nest world lines outcome }
{}

/// The calls of a nest are the steps of the lines that ask for them. A test is answered where it is wanted, and asked nowhere
/// else; one that can't be answered is the lines' fault.
pub fn calls_are_steps<R: Reading>()
    ensures begin { (world : R.World) (nest : List Branch) (line : ℕ) (test : R.Test) (holds : Option Bool)
        → Answered R.comes_to (active nest) world test holds
        → Steps R.after R.comes_to R.gives world nest line (Begins test) (Ok (first_branch line holds ∷ nest)) }
    ensures turn_if { (world : R.World) (nest : List Branch) (line : ℕ) (test : R.Test) (holds : Option Bool)
        → Answered R.comes_to (wants_test nest) world test holds
        → Steps R.after R.comes_to R.gives world nest line (Turns (Some test)) (placed (turned_if nest holds)) }
    ensures turn { (world : R.World) (nest : List Branch) (line : ℕ)
        → Steps R.after R.comes_to R.gives world nest line (Turns None) (placed (turned_last nest)) }
    ensures end { (world : R.World) (nest : List Branch) (line : ℕ)
        → Steps R.after R.comes_to R.gives world nest line Ends (placed (ended nest)) }
    ensures begin_fault { (world : R.World) (nest : List Branch) (line : ℕ) (test : R.Test) (fault : R.Fault)
        → active nest ≡ true → R.comes_to world test (Err fault)
        → Steps R.after R.comes_to R.gives world nest line (Begins test) (Err (faulty fault)) }
    ensures turn_fault { (world : R.World) (nest : List Branch) (line : ℕ) (test : R.Test) (fault : R.Fault)
        → wants_test nest ≡ true → R.comes_to world test (Err fault)
        → Steps R.after R.comes_to R.gives world nest line (Turns (Some test)) (Err (faulty fault)) }
{}

/// Lines that are read in turn by these calls, with tests and statements that are functions, give what lines give.
pub fn lines_are_read_in_turn<R: Reading>()
    ensures { (holds : R.World → R.Test → Result Bool R.Fault) (one : R.World → R.Statement → Result (List R.Item) R.Fault)
        (nest : List Branch) (world : R.World) (lines : List (Line R.Test R.Statement))
        → Lines R.after (λ w t r. r ≡ holds w t) (λ w s r. r ≡ one w s) nest world lines (read_in_turn R.after holds one nest world lines) }
{}
