//! Laws of the definitions that `statements_of` meets. The functions do nothing: what they ensure is the law.
ghost use Rattle.std.specs.Prelude.{◌≡◌, ◌↔◌, ◌&&◌, ℕ, Bool, true, false, List, ◌∷◌, ◌++◌, Option, Result, Ok, map};
ghost use Rattle.mk_profile.specs.Profile.{is_wide};
ghost use Rattle.mk_profile.specs.declared.profile.Profile.{Profile};
ghost use Rattle.mk_reader.specs.Form.{form_of};
ghost use Rattle.mk_lines.specs.Text.{ends_with, is_text};
ghost use Rattle.mk_lines.specs.References.{Lacks};
ghost use Rattle.mk_reader.specs.Spelled.{HasSpecial, is_refused_with};
ghost use Rattle.mk_lines.specs.Semicolon.{OpensRecipe};
ghost use Rattle.mk_reader.specs.Grammar.{IsForm};
ghost use Rattle.mk_reader.specs.Printed.{line_of_text, IsPlainName, IsPlainValue, ArePlainTargets, ArePlainPrerequisites, definition_text, definition_on, HasSign, rule_text, rule_on, PlainItem, ArePlain, printed, items_on};
ghost use Rattle.mk_reader.specs.Statements.{AreStatements};
ghost use Rattle.mk_reader.specs.declared.fault.Refusal.{Refusal};
ghost use Rattle.mk_reader.specs.declared.form.Form.{Form};
ghost use Rattle.mk_reader.specs.declared.form.Form.TheVariants as form;
ghost use Rattle.mk_reader.specs.declared.special.SpecialName.{SpecialName};
ghost use Rattle.mk_reader.specs.declared.item.Statement.{Statement};
ghost use Rattle.mk_reader.specs.declared.item.Statement.TheVariants as statement;
ghost use Rattle.mk_lines.specs.declared.line.LogicalLine.{LogicalLine};

/// A text has just one list of statements in each profile.
pub fn one_reading()
    ensures some { (profile : Profile) (file text : List ℕ) → (statements : List Statement) × AreStatements profile file text statements }
    ensures one { (profile : Profile) (file text : List ℕ) (one other : List Statement)
        → AreStatements profile file text one → AreStatements profile file text other → one ≡ other }
{}

/// The definition of a line's form that the code follows, and the grammar, say the same of each line. So each line has
/// one form, or one refusal.
pub fn each_line_is_as_it_is_spelled()
    ensures { (profile : Profile) (file : List ℕ) (line : LogicalLine) (told : Result Form Refusal)
        → (form_of profile file line ≡ told) ↔ IsForm profile file line told }
{}

/// Plain lines that are printed are read back as what they were printed of.
pub fn printed_lines_are_read_back()
    ensures definition { (profile : Profile) (file name value : List ℕ) (number : ℕ) (append : Bool)
        → IsPlainName profile name → IsPlainValue value → is_text (definition_text name append value) ≡ true
        → IsForm profile file (line_of_text number (definition_text name append value))
        (Ok (form.Definition (definition_on file number name append value))) }
    ensures rule { (profile : Profile) (file targets prerequisites : List ℕ) (number : ℕ) (special : Option SpecialName) (is_double : Bool)
        → ArePlainTargets profile targets → ArePlainPrerequisites prerequisites → HasSpecial profile targets special
        → is_refused_with profile prerequisites special ≡ false → is_text (rule_text is_double targets prerequisites) ≡ true
        → HasSign profile is_double
        → IsForm profile file (line_of_text number (rule_text is_double targets prerequisites))
        (Ok (form.Rule (rule_on file number special is_double targets prerequisites))) }
{}

/// A makefile that is printed from plain items is read back as these.
pub fn printed_items_are_read_back()
    ensures { (profile : Profile) (file : List ℕ) (items : List PlainItem) → ArePlain profile items
        → AreStatements profile file (printed items) (map statement.Item (items_on file 1 items)) }
{}

/// A `#` and what follows it in its line change nothing, but in the wide profile for one behind a backslash, and for one in a
/// recipe that stands behind a `;`. The byte 35 is `#`, and 92 a backslash.
pub fn comments_change_nothing()
    ensures { (profile : Profile) (file text comment : List ℕ) (number : ℕ) (told : Result Form Refusal) → Lacks 35 text
        → (is_wide profile && ends_with 92 text) ≡ false
        → (is_wide profile ≡ true → OpensRecipe (text ++ 35 ∷ comment) → ⊥)
        → (IsForm profile file (line_of_text number (text ++ 35 ∷ comment)) told ↔ IsForm profile file (line_of_text number text) told) }
{}
