//! The inputs that edges use without declaring them.

ghost use Rattle.std.specs.Prelude.{◌≡◌};
ghost use Rattle.nj_one_answer.specs.Cited.{AgreeIfOk, OfStatements};

use nj_deps::DepsLog;
use nj_graph::{Graph, UndeclaredInput};
use std::alloc::{AllocError, Global};

/// For a graph of statements. Free: whether memory lacks.
pub fn undeclared_inputs(
    alloc: Global,
    graph: &Graph,
    log: &DepsLog,
) -> (
    Result<Vec<UndeclaredInput>, AllocError>,
    Result<Vec<UndeclaredInput>, AllocError>,
)
    ensures { OfStatements graph.now (λ entries.
        AgreeIfOk (λ one other. one.items ≡ other.items) result.0 result.1) }
{
    let _files = graph.files();
    (
        nj_graph::undeclared_inputs(alloc, graph, log),
        nj_graph::undeclared_inputs(alloc, graph, log),
    )
}
