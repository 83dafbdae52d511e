//! What holds of the definitions alone. The functions do nothing: what they ensure is the law.
ghost use Rattle.std.specs.Prelude.{◌≡◌, ℕ, List, Some, None, false};
ghost use Rattle.mk_nodes.specs.Look.{is_taken_as_old};
ghost use Rattle.mk_nodes.specs.Prerequisites.{Inputs, implicit_source, recipe_of, source_name};
ghost use Rattle.mk_makefile.specs.declared.form.Source.{Source};

/// A name that an implicit rule makes by the run for another one has no recipe of its own, and the other one is its source, whose
/// recipe is the rule's, unless it is taken as old: so it waits for that run, and is remade where that is.
pub fn further_targets_follow_the_run()
    ensures { (inputs : Inputs) (name leader : List ℕ) (source : Source) → implicit_source inputs name ≡ Some source
        → source.leader ≡ Some leader → (recipe_of inputs name ≡ None) × ((source_name (implicit_source inputs name) ≡ Some leader)
        × (is_taken_as_old (inputs.looks leader) ≡ false → recipe_of inputs leader ≡ Some source.rule)) }
{}
