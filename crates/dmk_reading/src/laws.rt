//! What holds of the definitions alone. The functions do nothing: what they ensure is the law.
ghost use Rattle.std.specs.Prelude.{◌≡◌, ℕ, List, Option};
ghost use Rattle.std.specs.List.{list_any};
ghost use Rattle.mk_reader.specs.declared.item.Item.{Item};
ghost use Rattle.mk_settings.specs.Goals.{is_keep_state};
ghost use Rattle.mk_rule_lines.specs.Rules.{has_special};
ghost use Rattle.mk_nodes.specs.Graph.{IsGraph};
ghost use Rattle.mk_macros.specs.Ranks.{Defined};
ghost use Rattle.mk_makefile.specs.InForce.{AreLinesInForce};
ghost use Rattle.mk_nodes.specs.Prerequisites.{Inputs};
ghost use Rattle.mk_nodes.specs.declared.graph.Graph.{Graph};
ghost use Rattle.mk_rule_lines.specs.declared.rule_line.RuleLine.{RuleLine};
ghost use Rattle.dmk_reading.specs.Keeping.{is_keep_item};
ghost use Rattle.dmk_reading.specs.Passing.{PassesEach};
ghost use Rattle.dmk_reading.specs.Planned.{AreItems};
ghost use Rattle.dmk_reading.specs.declared.makefiles.Makefiles.{Makefiles};
ghost use Rattle.mk_eval.specs.Output.{World};
ghost use Rattle.mk_nodes.specs.declared.file_look.FileLook.{FileLook};

/// State is kept by the items of a makefile just where it is by their rule lines.
pub fn one_reading_of_the_settings()
    ensures { (ranks : Defined) (items : List Item) (lines : List RuleLine) → AreLinesInForce ranks items lines
        → has_special is_keep_state lines ≡ list_any is_keep_item items }
{}

/// By the same files and looks there are the same makefiles, with one list of items.
pub fn one_makefile()
    ensures { (world : World) (looks : List ℕ → Option FileLook) (makefiles : Makefiles) (given : Defined) (a b : List Item)
        → AreItems world looks makefiles given a → AreItems world looks makefiles given b → a ≡ b }
{}

/// A plan passes each node of its graph just once, behind all that it counts.
pub fn plan_of_the_graph()
    ensures { (inputs : Inputs) (named : List (List ℕ)) (graph : Graph) → IsGraph inputs named graph → PassesEach graph }
{}
