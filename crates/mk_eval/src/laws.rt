//! Laws of the definitions that `read_makefile` meets. The functions do nothing: what they ensure is the law.
ghost use Rattle.std.specs.Prelude.{◌≡◌, ◌≤◌, ℕ, length, List, Result, Ok, Vec};
ghost use Rattle.std.specs.declared.alloc.Global.{Global};
ghost use Rattle.mk_macros.specs.Expansion.{Meanings, gives, limit, ExpandsTo};
ghost use Rattle.mk_macros.specs.Ranks.{Defined, Listed, defined_by};
ghost use Rattle.mk_profile.specs.Profile.{is_wide};
ghost use Rattle.mk_reader.specs.Printed.{PlainItem, ArePlain, printed, items_on};
ghost use Rattle.mk_reader.specs.declared.fault.ReadFault.{ReadFault};
ghost use Rattle.mk_reader.specs.declared.item.Item.{Item};
ghost use Rattle.mk_eval.specs.Static.{doubled};
ghost use Rattle.mk_eval.specs.Output.{World};
ghost use Rattle.mk_eval.specs.Makefile.{Outcome, GivesItems, NoneFixed, TextItems};
ghost use Rattle.mk_eval.specs.PlainRules.{ArePlainRules};

/// In a world, with what is defined before it is read, a text has at most one outcome in its language.
pub fn one_outcome()
    ensures { (world : World) (levels : ℕ) (given : Defined) (file text : List ℕ) (one other : Outcome)
        → TextItems world levels given file text one
        → TextItems world levels given file text other
        → one ≡ other }
{}

/// In a world a text has an outcome, whatever is defined before it is read.
pub fn an_outcome()
    ensures { (world : World) (levels : ℕ) (listed : Listed) (file text : List ℕ)
        → (outcome : Outcome) × TextItems world levels (defined_by listed) file text outcome }
{}

/// A text that isn't expanded again is one whose dollars are doubled: whatever names stand for, it expands to what it came to.
pub fn doubled_texts_expand_to_themselves()
    ensures { (names : Meanings) (text : List ℕ) → length text ≤ limit (is_wide names.language) → ExpandsTo names (doubled text) (gives text) }
{}

/// What `read_makefile` says that it answers is that one outcome, unless memory ran out.
pub fn the_outcome_is_given()
    ensures { (world : World) (levels : ℕ) (given : Defined) (file text : List ℕ)
        (result : Result (Vec Item Global) ReadFault) (outcome : Outcome)
        → GivesItems result (TextItems world levels given file text)
        → TextItems world levels given file text outcome
        → GivesItems result (λ told. told ≡ outcome) }
{}

/// A makefile that is printed from items that are plain in its language is read back as these, whatever other files hold
/// and is defined, where no text is fixed. In the wide profile no rule has a second `:` or defines a macro, in no rule line a reference or a
/// wildcard stands, and no name there begins with `./`.
pub fn printed_items_are_read_back()
    ensures { (world : World) (levels : ℕ) (given : Defined) (file : List ℕ) (items : List PlainItem)
        → NoneFixed given → ArePlain given.language items → ArePlainRules given.language items
        → TextItems world levels given file (printed items) (Ok (items_on file 1 items)) }
{}
