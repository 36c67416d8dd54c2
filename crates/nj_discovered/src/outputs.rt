//! The outputs of an edge, by their paths.

ghost use Rattle.std.specs.Prelude.{◌≡◌, ◌<◌, length, option_copied};
ghost use Rattle.nj_discovered.specs.Cited.{is_among, edge_at, first_output, outputs_of, is_first_output};

use nj_edges::{EdgeGraph, EdgeNo};

// The path of the first output of an edge.
pub(crate) fn first_output(graph: &EdgeGraph, edge: EdgeNo) -> Option<&[u8]>
    requires { edge.0 < length graph.now.edges }
    ensures { option_copied result ≡ first_output (edge_at graph.now.edges edge.0) }
{
    let output = graph.outputs(edge).first()?;
    Some(graph.path(*output))
}

// Whether a path is the first output of an edge.
pub(crate) fn is_first_output(graph: &EdgeGraph, edge: EdgeNo, path: &[u8]) -> bool
    requires { edge.0 < length graph.now.edges }
    ensures { result ≡ is_first_output (edge_at graph.now.edges edge.0) path.now }
{
    match first_output(graph, edge) {
        Some(output) => output == path,
        None => false,
    }
}

// Whether a path is an output of an edge.
pub(crate) fn is_output(graph: &EdgeGraph, edge: EdgeNo, path: &[u8]) -> bool
    requires { edge.0 < length graph.now.edges }
    ensures { result ≡ is_among (outputs_of (edge_at graph.now.edges edge.0)) path.now }
{
    'outputs: for output in graph.outputs(edge) {
        if path == graph.path(*output) {
            return true;
        }
    }
    false
}
