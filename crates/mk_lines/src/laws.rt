//! Laws of the definitions that lines are read by. The functions do nothing: what they ensure is the law.
ghost use Rattle.std.specs.Prelude.{◌≡◌, ◌↔◌, ℕ, Bool, List, Some, flat_map};
ghost use Rattle.mk_lines.specs.Lines.{Physical, spelling, groups, lines_left, text_of};
ghost use Rattle.mk_lines.specs.Spelling.{AreLines, AreGroups, IsTextOf};

/// Each byte of a text belongs to one physical line, and each physical line to one logical line. No other lines, and no
/// other groups of them, are the text's.
pub fn text_is_its_lines()
    ensures spelled { (text : List ℕ)
        → flat_map spelling (flat_map (λ group. group) (groups (lines_left (Some text)))) ≡ text }
    ensures lines { (text : List ℕ) (lines : List Physical) → (lines_left (Some text) ≡ lines) ↔ AreLines text lines }
    ensures groups { (text : List ℕ) (parts : List (List Physical))
        → (groups (lines_left (Some text)) ≡ parts) ↔ AreGroups text parts }
{}

/// A recipe line is joined as a recipe, and any other as a rule line, but in the wide profile for what stands behind the `;` of a rule.
pub fn lines_are_joined()
    ensures { (recipe wide : Bool) (group : List Physical) (text : List ℕ)
        → (text_of recipe wide group ≡ text) ↔ IsTextOf recipe wide group text }
{}
