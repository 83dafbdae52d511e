//! What holds of the definitions alone. The functions do nothing: what they ensure is the law.
ghost use Rattle.std.specs.Prelude.{◌≡◌, ◌<◌, ℕ, Bool, List, length};
ghost use Rattle.mk_names.specs.Names.{name_at};
ghost use Rattle.mk_plan.specs.Known.{IsNodeOf};
ghost use Rattle.mk_plan.specs.Passage.{Passage};
ghost use Rattle.mk_plan.specs.Passing.{Passes};
ghost use Rattle.mk_nodes.specs.Graph.{IsGraph};
ghost use Rattle.mk_nodes.specs.Prerequisites.{Inputs};
ghost use Rattle.mk_nodes.specs.declared.graph.Graph.{Graph};

/// A node is passed in one way: whether it counts as remade, and what is told of it, follow from the graph and the marks.
pub fn one_passing()
    ensures { (keeping : Bool) (graph : Graph) (marks : List Bool) (n : ℕ) (p q : Bool) (a b : List Passage)
        → Passes keeping graph marks n p a → Passes keeping graph marks n q b → (p ≡ q) × (a ≡ b) }
{}

/// A graph has of a node what the rule lines, the files and the state say of its name.
pub fn nodes_by_name()
    ensures { (inputs : Inputs) (named : List (List ℕ)) (graph : Graph) (n : ℕ) → IsGraph inputs named graph
        → n < length graph.nodes.items → IsNodeOf inputs graph n (name_at graph.names n) }
{}
