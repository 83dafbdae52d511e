//! What holds of the definitions alone: those by which the code is proved come to what is told of the lines. The functions do
//! nothing: what they ensure is the law.
ghost use Rattle.std.specs.Prelude.{◌≡◌, ◌↔◌, ◌<◌, ◌+◌, ℕ, List, [], ◌∷◌, length, Some, true, false};
ghost use Rattle.mk_rule_lines.specs.Explicit.{lines_of};
ghost use Rattle.mk_rule_lines.specs.Kinds.{IsRuleFor, IsSuffixRuleFor};
ghost use Rattle.mk_rule_lines.specs.Rules.{suffixes_of, targets_by, recipe_places};
ghost use Rattle.mk_rule_lines.specs.declared.rule_line.RuleLine.{RuleLine};
ghost use Rattle.mk_makefile.specs.ByName.{AreLines, HasRecipeAt};
ghost use Rattle.mk_makefile.specs.Forms.{forms_of};
ghost use Rattle.mk_makefile.specs.Implicit.{AreForms};
ghost use Rattle.mk_makefile.specs.Order.{has_longer_stem};
ghost use Rattle.mk_makefile.specs.Source.{stem_of};
ghost use Rattle.mk_makefile.specs.Taken.{AreTaken};
ghost use Rattle.mk_makefile.specs.declared.form.Form.{Form};

/// The lines of a name are those that have it among their targets and in which it is no suffix rule; of lines that are taken
/// the recipe of a name, and of a suffix rule, is that of the one such line which has a recipe.
pub fn rules_by_name()
    ensures lines { (lines : List RuleLine) (name : List ℕ) (found : List RuleLine)
        → (lines_of lines name ≡ found) ↔ AreLines (IsRuleFor (suffixes_of lines) name) lines found }
    ensures recipe { (lines : List RuleLine) (name : List ℕ) (k : ℕ) → AreTaken lines
        → (recipe_places (targets_by false (suffixes_of lines)) 0 lines name ≡ k ∷ [])
        ↔ HasRecipeAt (IsRuleFor (suffixes_of lines) name) lines k }
    ensures suffix_rule { (lines : List RuleLine) (name : List ℕ) (k : ℕ) → AreTaken lines
        → (recipe_places (targets_by true (suffixes_of lines)) 0 lines name ≡ k ∷ [])
        ↔ HasRecipeAt (IsSuffixRuleFor (suffixes_of lines) name) lines k }
    ensures none { (lines : List RuleLine) (name : List ℕ)
        → (recipe_places (targets_by false (suffixes_of lines)) 0 lines name ≡ [])
        ↔ ((k : ℕ) → HasRecipeAt (IsRuleFor (suffixes_of lines) name) lines k → ⊥) }
{}

/// The forms that the code computes of lines that are taken are those of their pattern rules, and then of their suffix rules.
pub fn implicit_rules_in_order()
    ensures { (lines : List RuleLine) (forms : List Form) → AreTaken lines
        → (forms_of (suffixes_of lines) lines ≡ forms) ↔ AreForms (suffixes_of lines) lines forms }
{}

/// Of a name of two forms, the one with less beside the stem has the longer stem, the folder that is left aside counted with it: so in
/// which order they are tried by their stems is told without the name.
pub fn longer_stems_by_less_beside_them()
    ensures { (form other : Form) (name : List ℕ) (s t : List ℕ × List ℕ) → stem_of form name ≡ Some s → stem_of other name ≡ Some t
        → (has_longer_stem form other ≡ true) ↔ (length s.0 + length s.1 < length t.0 + length t.1) }
{}
