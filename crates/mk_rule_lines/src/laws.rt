//! What holds of the definitions alone: those by which the code is proved come to what is told of the lines. The functions do
//! nothing: what they ensure is the law.
ghost use Rattle.std.specs.Prelude.{◌≡◌, ◌↔◌, ℕ, List};
ghost use Rattle.mk_rule_lines.specs.Rules.{suffixes_of};
ghost use Rattle.mk_rule_lines.specs.Suffixes.{AreSuffixes};
ghost use Rattle.mk_rule_lines.specs.declared.rule_line.RuleLine.{RuleLine};

/// The suffixes that the code computes of lines are those of the last list.
pub fn suffixes_are_the_last_list()
    ensures { (lines : List RuleLine) (suffixes : List (List ℕ)) → (suffixes_of lines ≡ suffixes) ↔ AreSuffixes lines suffixes }
{}
