//! Names that are UTF-8. A hidden prerequisite with another name counts as gone.
ghost use Rattle.std.specs.Prelude.{◌≡◌, true};
ghost use Rattle.std.specs.List.{list_all};
ghost use Rattle.std.specs.Str.{is_utf8};
ghost use Rattle.mk_seen.specs.TextNames.{HasTextNames};

use mk_lines::is_utf8;
use mk_names::Names;
use mk_nodes::Graph;

/// Whether a name is UTF-8. Most have ASCII alone, which is found sooner.
pub(crate) fn is_text_name(name: &[u8]) -> bool
    ensures { result ≡ is_utf8 name.now }
{
    name.is_ascii() || is_utf8(name)
}

fn are_text_names(names: &Names) -> bool
    ensures { result ≡ list_all is_utf8 names.now }
{
    for number in 0..names.len() {
        if !is_text_name(names.name(number)) {
            return false;
        }
    }
    true
}

fn has_hidden(graph: &Graph) -> bool {
    graph.nodes.iter().any(|node| node.hidden > 0)
}

/// Whether it is known that all names of a graph are UTF-8, for passing its nodes. It is found out only where there are hidden
/// prerequisites, of which passing asks it.
pub fn has_text_names(graph: &Graph) -> bool
    ensures { result ≡ true → HasTextNames graph.now }
{
    has_hidden(graph) && are_text_names(&graph.names)
}
