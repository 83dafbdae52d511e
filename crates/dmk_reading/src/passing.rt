//! Whether a graph whose nodes are passed in its order lists any recipe.
ghost use Rattle.std.specs.Prelude.{◌≡◌, ◌<◌, length, IfSome};
ghost use Rattle.dmk_reading.specs.Passing.{ListsNone};

use mk_nodes::Graph;
use mk_plan::{has_text_names, pass_in};
use std::alloc::Global;

/// Which nodes count as remade where no recipe is listed, by their numbers. None where one is, where nothing makes a name, and where that
/// can't be found out.
pub fn unlisted(alloc: Global, keeping: bool, graph: &Graph) -> Option<Vec<bool>>
    ensures count { IfSome result (λ marks. length marks.items ≡ length graph.now.nodes.items) }
    ensures listing { IfSome result (λ marks. ListsNone keeping graph.now) }
{
    if !graph.unmade.is_empty() {
        return None;
    }
    let Ok(mut marks) = vec![in alloc; false; graph.len()] else {
        return None;
    };
    let texts = has_text_names(graph);
    for number in graph.order.as_slice() {
        if *number >= graph.len() {
            return None;
        }
        let Ok(passed) = pass_in(alloc, keeping, texts, graph, &marks, *number) else {
            return None;
        };
        if passed.is_listed() {
            return None;
        }
        marks[*number] = passed.is_remade();
    }
    Some(marks)
}
