//! What holds of the definitions alone: those by which the code is proved come to what is told of the lines. The functions do
//! nothing: what they ensure is the law.
ghost use Rattle.std.specs.Prelude.{◌≡◌, ◌↔◌, ℕ, List};
ghost use Rattle.std.specs.Bool.{Decides};
ghost use Rattle.mk_rule_lines.specs.declared.rule_line.RuleLine.{RuleLine};
ghost use Rattle.mk_settings.specs.Goals.{AreGoals, goals_of};
ghost use Rattle.mk_settings.specs.Marks.{HasMark, marked_by, has_mark};
ghost use Rattle.mk_settings.specs.declared.marked.Mark.{Mark};

/// What the code makes are the names that are given, or else the goal of the first line that gives one.
pub fn goals_are_named_or_first()
    ensures { (lines : List RuleLine) (named goals : List (List ℕ)) → (goals_of lines named ≡ goals) ↔ AreGoals lines named goals }
{}

/// The targets that the code takes for marked are those of which some line of the mark speaks.
pub fn marks_are_of_the_lines()
    ensures { (mark : Mark) (lines : List RuleLine) (target : List ℕ) → Decides (has_mark (marked_by mark lines) target) (HasMark mark lines target) }
{}
