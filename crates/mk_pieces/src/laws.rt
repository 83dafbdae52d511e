//! What holds of the definitions alone. The functions do nothing: what they ensure are the laws.
ghost use Rattle.std.specs.Prelude.{◌≡◌, ℕ, List, Some};
ghost use Rattle.std.specs.List.{join_with_byte};
ghost use Rattle.mk_pieces.specs.Brackets.{arguments_of};
ghost use Rattle.mk_pieces.specs.declared.function.Function.{Function};
ghost use Rattle.mk_pieces.specs.Function.{name_of, function_named};

/// Each function is known by its name, and by no other one.
pub fn names_of_functions()
    ensures known { (f : Function) → function_named (name_of f) ≡ Some f }
    ensures alone { (name : List ℕ) (f : Function) → function_named name ≡ Some f → name ≡ name_of f }
{}

/// Arguments are what a text is made of, with a comma between each two.
pub fn arguments_are_the_text()
    ensures { (opening close most : ℕ) (text : List ℕ) → join_with_byte 44 (arguments_of opening close most text) ≡ text }
{}
