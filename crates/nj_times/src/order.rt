//! An order of all edges in which makers come first.

ghost use Rattle.std.specs.Prelude.{IfOk, length};
ghost use Rattle.nj_times.specs.Cited.{AreAfterNeeds, makers_of_inputs};

use nj_cycles::{EdgeInputs, makers_first};
use nj_edges::{EdgeGraph, EdgeNo};
use std::alloc::{AllocError, Global};

/// The edges of a graph, as the walk over them queries them.
#[derive(Clone, Copy)]
struct GraphMakers<'g> {
    graph: &'g EdgeGraph,
}

impl<'g> EdgeInputs for GraphMakers<'g> {
    ghost makers = { λ m. makers_of_inputs m.graph.now.edges };

    ghost count = { λ m. length m.graph.now.edges };

    fn edge_count(&self) -> usize {
        self.graph.edge_count()
    }

    fn maker_at(&self, edge: usize, index: usize) -> Option<Option<usize>> {
        match self.graph.maker_at(EdgeNo(edge), index)? {
            Some(maker) => Some(Some(maker.0)),
            None => Some(None),
        }
    }
}

/// The numbers of all edges, each after the makers of its inputs.
pub(crate) fn edge_numbers(alloc: Global, graph: &EdgeGraph) -> Result<Vec<usize>, AllocError>
    ensures { IfOk result (λ order.
        AreAfterNeeds (makers_of_inputs graph.now.edges) (length graph.now.edges) order.items) }
{
    // no edge needs itself, directly or indirectly
    let _edge_count = graph.edge_count();
    makers_first(alloc, &GraphMakers { graph })
}
