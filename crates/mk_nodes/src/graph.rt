//! The graph of a makefile's names: what each is made from, and what the state and the files say of it.
ghost use Rattle.std.proofs.Props.{props};
ghost use Rattle.std.specs.Prelude.{◌≡◌, ℕ, List, ◌<◌, drop, length, option_copied, option_map, slice_get, is_some, unwrap_or, IsTrue, IfOk, IfSome};
ghost use Rattle.mk_graph.specs.Counted.{counting, AreSets};
ghost use Rattle.mk_graph.specs.Edges.{row, has, is_closed};
ghost use Rattle.mk_macros.specs.Ranks.{defined_by};
ghost use Rattle.mk_profile.specs.Profile.{is_wide};
ghost use Rattle.mk_rule_lines.specs.Explicit.{numbers_of};
ghost use Rattle.mk_rule_lines.specs.Rules.{suffixes_of};
ghost use Rattle.mk_makefile.specs.Table.{named_at};
ghost use Rattle.mk_nodes.specs.Node.{EachHasOneNumber, source_in, explicit_in, implied_in, hidden_in};

use crate::group::Group;
use crate::hidden_numbers::HiddenNumbers;
use crate::parts::{behind, front};
use crate::rare::RareParts;
use crate::short_number::ShortNumber;
use crate::stamp::Stamp;
use byte_strings::{ByteString, ByteStrings};
use mk_graph::{Edges, counted_edges};
use mk_macros::Macros;
use mk_makefile::TargetTable;
use mk_names::Names;
use mk_rule_lines::RuleLine;
use mk_settings::Settings;
use st_state::State;
use std::alloc::{AllocError, Global};

/// A name of the graph.
pub struct Node {
    /// What a look at it tells.
    pub stamp: Stamp,
    /// What it has of an implicit rule, of order-only prerequisites, and of hidden ones that are gone.
    pub rare: RareParts,
    /// How many of its prerequisites are hard: those that come first.
    pub hard: u32,
    /// How many hidden prerequisites that aren't hard ones were recorded.
    pub hidden: u32,
    /// The number of the rule line whose recipe makes it.
    pub recipe: ShortNumber,
    /// Where the state may have it, which is tried first.
    pub place: u32,
}

impl Drop for Node {
    fn drop(self) {
        let Node {
            stamp: _,
            rare: _,
            hard: _,
            hidden: _,
            recipe: _,
            place: _,
        } = self;
    }
}

impl Node {
    /// The stem, where an implicit rule makes it.
    pub fn stem(&self) -> Option<&ByteString>
        ensures { option_copied result ≡ self.now.rare.stem }
    {
        self.rare.stem()
    }

    /// How many of the hard prerequisites that rule gives: those that come first, of which the first is the source.
    pub fn implied(&self) -> usize
        ensures { result ≡ self.now.rare.implied }
    {
        self.rare.implied()
    }

    /// What its recipe makes beside it, where it is that of an implicit rule and makes more.
    pub fn group(&self) -> Option<&Group>
        ensures { option_copied result ≡ option_map (λ g. g.value) self.now.rare.group }
    {
        self.rare.group()
    }
}

/// The names that the goals lead to, numbered by first mention, with what orders them.
pub struct Graph {
    pub names: Names,
    /// The numbers of the goals.
    pub goals: Vec<usize>,
    /// What is known of each name.
    pub nodes: Vec<Node>,
    /// The numbers of the names that aren't there and that nothing makes, in their order: there are some only where a run goes on
    /// without them.
    pub unmade: Vec<usize>,
    /// The hard prerequisites of each node, each once: the implicit source first, then those by name in their order.
    pub hard: Edges,
    /// The hard prerequisites of each node and its order-only ones, without which it isn't made; None where no line has an
    /// order-only one.
    pub required: Option<Edges>,
    /// What each node waits for beside its hard prerequisites: hidden ones that are nodes, in the order in which they were recorded,
    /// then order-only ones, and then what stands before a `.WAIT`.
    pub soft: Edges,
    /// The nodes by the edges that count: again and again the least one whose prerequisites by these all stand before it.
    pub order: Vec<usize>,
    /// Whether soft edges don't count, since they would make a cycle.
    pub soft_dropped: bool,
    pub lines: Vec<RuleLine>,
    /// Which lines make each name; None in the strict profile, where nothing asks for it.
    pub targets: Option<TargetTable>,
    /// The suffixes that count.
    pub suffixes: ByteStrings,
    pub settings: Settings,
    /// With all definitions of the makefile.
    pub macros: Macros,
    /// What is recorded of each name.
    pub state: State,
    // Each name has a node, no name has two, and each node has a row of each kind. Each number in a row is that of a node.
    pub ghost named: { length names ≡ length nodes.items },
    pub ghost distinct: { EachHasOneNumber names },
    pub ghost hard_rows: { length hard ≡ length nodes.items },
    pub ghost soft_rows: { length soft ≡ length nodes.items },
    pub ghost hard_closed: { IsTrue (is_closed hard) },
    pub ghost required_rows: { length (unwrap_or required hard) ≡ length nodes.items },
    pub ghost required_closed: { IsTrue (is_closed (unwrap_or required hard)) },
    pub ghost soft_closed: { IsTrue (is_closed soft) },
    // The suffixes are those of the lines, and the wide profile keeps the table of the lines.
    pub ghost suffixes_are: { suffixes ≡ suffixes_of lines.items },
    pub ghost kept: { is_some targets ≡ is_wide (defined_by macros).language },
    pub ghost table: { IfSome targets (λ t. (name : List ℕ) → (named_at t name).lines ≡ numbers_of lines.items name) } by { Prim.hlevel props },
}

impl Drop for Graph {
    fn drop(self) {
        let Graph {
            names: _,
            goals: _,
            nodes: _,
            unmade: _,
            hard: _,
            required: _,
            soft: _,
            order: _,
            soft_dropped: _,
            lines: _,
            targets: _,
            suffixes: _,
            settings: _,
            macros: _,
            state: _,
        } = self;
    }
}

impl Graph {
    /// The number of nodes.
    pub fn len(&self) -> usize
        ensures { result ≡ length self.now.nodes.items }
    {
        self.nodes.len()
    }

    /// Whether the node isn't there and nothing makes it, so that nothing that stands on it is made.
    pub fn is_unmade(&self, node: usize) -> bool
        ensures { result ≡ has self.now.unmade.items node }
    {
        self.unmade.iter().any(|unmade| node == *unmade)
    }

    /// The implicit source of a node; None where no implicit rule makes it, or one without prerequisites.
    pub fn source(&self, node: usize) -> Option<usize>
        requires { node < length self.now.nodes.items }
        ensures { result ≡ source_in (slice_get self.now.nodes.items node) (row self.now.hard node) }
    {
        if self.nodes[node].implied() == 0 {
            return None;
        }
        match self.hard.row(node) {
            [source, ..] => Some(*source as usize),
            [] => None,
        }
    }

    /// What each node isn't made without: its hard prerequisites and its order-only ones.
    pub fn required_edges(&self) -> &Edges
        ensures { result.now ≡ unwrap_or self.now.required self.now.hard }
    {
        match &self.required {
            Some(required) => required,
            None => &self.hard,
        }
    }

    /// The edges that order the nodes: those without which they aren't made, and soft ones unless these are dropped. Each row has
    /// a number once, and the numbers in their order.
    pub fn counted_edges(&self, alloc: Global) -> Result<Edges, AllocError>
        ensures { IfOk result (AreSets (counting (unwrap_or self.now.required self.now.hard) self.now.soft self.now.soft_dropped)) }
    {
        counted_edges(alloc, self.required_edges(), &self.soft, self.soft_dropped)
    }

    /// The order-only prerequisites of a node that are no hard ones, each once.
    pub fn order_only(&self, node: usize) -> &[u32]
        requires { node < length self.now.nodes.items }
        ensures { result.now ≡ drop (length (row self.now.hard node)) (row (unwrap_or self.now.required self.now.hard) node) }
    {
        behind(self.required_edges().row(node), self.hard.row(node).len())
    }

    /// The prerequisites of a node by name, each once, without its source: what is recorded of it.
    pub fn explicit(&self, node: usize) -> &[u32]
        requires { node < length self.now.nodes.items }
        ensures { result.now ≡ explicit_in (slice_get self.now.nodes.items node) (row self.now.hard node) }
    {
        let hard = self.hard.row(node);
        if self.nodes[node].implied() == 0 {
            return hard;
        }
        match hard {
            [_, explicit @ ..] => explicit,
            [] => hard,
        }
    }

    /// The prerequisites that an implicit rule gives a node, each once.
    pub fn implied(&self, node: usize) -> &[u32]
        requires { node < length self.now.nodes.items }
        ensures { result.now ≡ implied_in (slice_get self.now.nodes.items node) (row self.now.hard node) }
    {
        front(self.hard.row(node), self.nodes[node].implied())
    }

    /// The hidden prerequisites of a node that aren't hard ones, in the order in which they were recorded.
    pub fn hidden(&self, node: usize) -> HiddenNumbers<'_>
        requires { node < length self.now.nodes.items }
        ensures { result ≡ hidden_in (slice_get self.now.nodes.items node) (row self.now.soft node) }
    {
        let numbers = self.soft.row(node);
        let node = &self.nodes[node];
        match node.rare.marks() {
            Some(marks) => HiddenNumbers::marked(marks, numbers),
            None => HiddenNumbers::nodes(node.hidden, numbers),
        }
    }
}
