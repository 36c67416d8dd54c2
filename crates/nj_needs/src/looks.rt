//! A look at a place of a row: of the inputs of an edge, or of the targets.

ghost use Rattle.nj_needs.specs.Walks.{number_of};
ghost use Rattle.std.specs.Prelude.{◌≡◌, ◌+◌, ◌^◌, ◌<◌, length, All, IfSome, option_map, slice_get};
ghost use Rattle.nj_needs.specs.Cited.{ForSome, count_of, row_in};

use nj_edges::{EdgeGraph, EdgeNo, FileNo};

/// Returns the maker of the input at a place of an edge, or of the target there if no edge is
/// given. `None` past the end, and `Some(None)` at a source. It counts nothing: a walk looks by its
/// `Turns`, which alone has its graph.
pub(crate) fn look_at(
    graph: &EdgeGraph,
    targets: &[FileNo],
    edge: Option<EdgeNo>,
    place: usize,
) -> Option<Option<EdgeNo>>
    requires targets_in { All (λ f. f.0 < length graph.now.files) targets.now }
    requires edge_in { ForSome edge (λ e. e.0 < count_of graph.now) }
    ensures found { option_map number_of result
        ≡ slice_get (row_in graph.now targets.now edge) place }
    ensures fits { IfSome result (λ _. place + 1 < 2 ^ 64) }
{
    match edge {
        Some(edge) => graph.maker_at(edge, place),
        None => Some(graph.maker(*targets.get(place)?)),
    }
}
