//! An order of all edges in which makers come first.

ghost use Rattle.std.specs.Prelude.{◌≡◌, ◌++◌, IfOk, length, map, take};
ghost use Rattle.nj_stale.specs.Cited.{AreAfterNeeds, IsAcyclic, IsOrderOfAll, makers_of_inputs};

use nj_cycles::EdgeInputs;
use nj_edges::{EdgeGraph, EdgeNo};
use std::alloc::{AllocError, Global};

/// The edges of a graph, as the walk over them queries them.
#[derive(Clone, Copy)]
struct GraphMakers<'g> {
    graph: &'g EdgeGraph,
}

impl<'g> EdgeInputs for GraphMakers<'g> {
    ghost makers = { λ m. makers_of_inputs m.graph.now.edges };

    ghost count = { λ m. length m.graph.now.edges };

    fn edge_count(&self) -> usize {
        self.graph.edge_count()
    }

    fn maker_at(&self, edge: usize, index: usize) -> Option<Option<usize>> {
        match self.graph.maker_at(EdgeNo(edge), index)? {
            Some(maker) => Some(Some(maker.0)),
            None => Some(None),
        }
    }
}

/// Returns an order of all edges for `reasons_of`: each edge once, after the makers of its inputs.
/// Takes time in proportion to the edges and their inputs. Fails only if an allocation fails.
pub fn makers_first(alloc: Global, graph: &EdgeGraph) -> Result<Vec<EdgeNo>, AllocError>
    ensures { IfOk result (λ order.
        IsOrderOfAll graph.now.edges (map (λ edge. edge.0) order.items)) }
{
    let numbers = edge_numbers(alloc, graph)?;
    let mut order = Vec::with_capacity(alloc, numbers.len())?;
    'numbers: for index in 0..numbers.len() {
        order.push(EdgeNo(numbers[index]))?;
    }
    Ok(order)
}

/// Returns the numbers of the edges in that order.
pub(crate) fn edge_numbers(alloc: Global, graph: &EdgeGraph) -> Result<Vec<usize>, AllocError>
    ensures { IfOk result (λ order.
        AreAfterNeeds (makers_of_inputs graph.now.edges) (length graph.now.edges) order.items) }
{
    // no edge needs itself, directly or indirectly
    let _edge_count = graph.edge_count();
    let makers = GraphMakers { graph };
    nj_cycles::makers_first(alloc, &makers)
}
