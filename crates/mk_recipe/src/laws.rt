//! What holds of the definitions alone. The functions do nothing: what they ensure is the law.
ghost use Rattle.std.specs.Prelude.{◌≡◌, ℕ, Bool, not, ◌&&◌, List, ◌∷◌, Some, bytes_eq};
ghost use Rattle.std.specs.List.{IsDistinct};
ghost use Rattle.mk_profile.specs.declared.profile.Profile.{Profile};
ghost use Rattle.mk_lines.specs.Lines.{joined_lines};
ghost use Rattle.mk_recipe.specs.declared.line.Line.{Line};
ghost use Rattle.mk_recipe.specs.declared.line_status.LineStatus.{LineStatus};
ghost use Rattle.mk_recipe.specs.declared.line_status.Outcome.{Outcome};
ghost use Rattle.mk_recipe.specs.Line.{Records};
ghost use Rattle.mk_recipe.specs.Outcome.{IsOutcome};
ghost use Rattle.mk_recipe.specs.Report.{has, mentioned, AreHidden};

/// The lines of a recipe have one list of commands that the state keeps.
pub fn one_record()
    ensures { (lines : List Line) (a b : List (List ℕ)) → Records lines a → Records lines b → a ≡ b }
{}

/// The statuses of a recipe's lines have one outcome.
pub fn one_outcome()
    ensures { (ignore : Bool) (lines : List LineStatus) (a b : Outcome)
        → IsOutcome ignore lines a → IsOutcome ignore lines b → a ≡ b }
{}

/// A name is hidden just where a line of the report says it of the target, and it is neither the target nor known. None
/// is hidden twice.
pub fn hidden_as_mentioned()
    ensures each { (profile : Profile) (report target : List ℕ) (known names : List (List ℕ)) (name : List ℕ)
        → AreHidden profile report target known names
        → has name names ≡ (has name (mentioned profile target (joined_lines (Some report))) && not (has name (target ∷ known))) }
    ensures once { (profile : Profile) (report target : List ℕ) (known names : List (List ℕ))
        → AreHidden profile report target known names → IsDistinct bytes_eq names }
{}
