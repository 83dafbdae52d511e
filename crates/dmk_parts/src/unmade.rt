//! Names that have no file and that nothing makes, where a run goes on without them.
ghost use Rattle.std.specs.Prelude.{◌≡◌, ◌≤◌};
ghost use Rattle.dmk_reading.specs.Lost.{with_unmade};

use dmk_printing::Printer;
use dmk_reading::unmade_names;
use mk_nodes::Graph;
use std::alloc::{AllocError, Global};
use std::io::Write;
use std::sync::Wait;

/// What a run over the graph comes to that came to this status: 2 where there are such names.
pub fn with_unmade(graph: &Graph, status: u8) -> u8
    ensures status { result ≡ with_unmade graph.now.unmade.items status }
    ensures small { status ≤ 2 → result ≤ 2 }
{
    match graph.unmade.as_slice() {
        [] => status,
        [_node, ..] => 2,
    }
}

/// Says of which names of a graph this is so.
pub(crate) fn tell_unmade<R: Wait, O: Write + Drop, W: Write + Drop>(
    alloc: Global,
    printer: &Printer<'_, R, O, W>,
    graph: &Graph,
) -> Result<(), AllocError> {
    let told = unmade_names(alloc, graph)?;
    for unmade in told {
        printer.unmade(alloc, unmade);
    }
    Ok(())
}
