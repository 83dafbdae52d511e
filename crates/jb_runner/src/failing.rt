//! What is told of a target that failed.
ghost use Rattle.std.specs.Prelude.{◌≡◌};

use crate::pending::Pending;
use crate::shift::Shift;
use bd_flusher::Receipt;
use bd_lists::Spent;
use jb_recipe::{FailedLine, News, NotDone, Ran, Say};
use mk_nodes::Graph;
use mk_plan::{LinePlace, line_place};

/// What there is to say of the end of a recipe, where its target isn't done.
#[derive(Drop)]
pub(crate) struct Over {
    pub(crate) not_done: Option<NotDone>,
    /// The line that failed, where that is told.
    pub(crate) line: Option<FailedLine>,
}

/// What the lines wrote is said.
pub(crate) fn say_block<S: Say>(say: &S, ran: Ran) -> (Spent<Receipt>, Option<FailedLine>)
    ensures { result.0 ≡ ran.spent }
{
    let Ran {
        ended,
        spent,
        failed,
    } = ran;
    say.block(&ended);
    drop(ended);
    (spent, failed)
}

fn place_of<'g>(graph: &'g Graph, node: usize, line: Option<&FailedLine>) -> Option<LinePlace<'g>> {
    match line {
        Some(line) => line_place(graph, node, line.number),
        None => None,
    }
}

fn text_of(line: Option<&FailedLine>) -> Option<&[u8]> {
    match line {
        Some(line) => match &line.text {
            Some(text) => Some(text.as_slice()),
            None => None,
        },
        None => None,
    }
}

/// A failed end is told.
pub(crate) fn tell_end<S: Say>(
    say: &S,
    graph: &Graph,
    end: &Pending,
    over: &Over,
    shift: &mut Shift,
) {
    let Some(status) = end.failed else {
        return;
    };
    shift.worsen(1);
    let number = end.node.number();
    if number < graph.names.len() {
        say.tell(News::Failed {
            target: graph.names.name(number),
            status,
            not_done: over.not_done.as_ref(),
            place: place_of(graph, number, over.line.as_ref()),
            command: text_of(over.line.as_ref()),
        });
    }
}
