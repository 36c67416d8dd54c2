//! The assignments of edges: pools and dyndep files.

ghost use Rattle.std.specs.Prelude.{◌≡◌, Some, ◌<◌, length, option_copied, option_map, slice_get};
ghost use Rattle.nj_graph.specs.Cited.{OfEdge, assigned_at, assigned_read, edge_of, edges_of};

use crate::graph::Graph;
use crate::handles::Edge;
use nj_edges::EdgeNo;

impl<'g> Edge<'g> {
    /// Its pool, by name: the value of `pool` at its build statement ("Pools" in the Ninja manual).
    /// That is the value of its block, else of its rule, else the value that the name had in its
    /// file at the statement. `None` if the value is empty.
    pub fn pool(self) -> Option<&'g [u8]>
        ensures { OfEdge (edge_of self.entry) (λ entries number.
            option_copied result ≡ (assigned_at (assigned_read entries) number).pool) }
    {
        let graph = self.graph;
        graph.built.pool(self.number)
    }

    /// Its dyndep file, by its clean path: the value of `dyndep` at its build statement ("Dynamic
    /// Dependencies" in the Ninja manual), as for `pool`. It is an input of the edge, and stays the
    /// same after the file is joined. `None` if the value is empty.
    pub fn dyndep(self) -> Option<&'g [u8]>
        ensures { OfEdge (edge_of self.entry) (λ entries number.
            option_copied result ≡ (assigned_at (assigned_read entries) number).dyndep) }
    {
        let graph = self.graph;
        graph.built.dyndep(self.number)
    }
}

impl Graph {
    /// The number of edges that are pending on dyndep files: the edges whose dyndep file is not
    /// joined.
    pub fn pending_count(&self) -> usize
        ensures { result ≡ length self.now.built.pending }
    {
        self.built.pending_count()
    }

    /// The pending edge at the given index, by number.
    pub fn pending_edge(&self, index: usize) -> EdgeNo
        requires { index < length self.now.built.pending }
        ensures edge { option_map (λ p. p.edge) (slice_get self.now.built.pending index)
            ≡ Some result.0 }
        ensures known { result.0 < length (edges_of self.now) }
    {
        self.built.pending_edge(index)
    }
}
