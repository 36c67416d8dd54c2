//! The bindings of edges' blocks.

ghost use Rattle.std.specs.Prelude.{◌≡◌, length, slice_get, option_copied};
ghost use Rattle.nj_graph.specs.Cited.{OfEdge, block_at, block_names_at, edge_of, edges_read};

use crate::handles::Edge;

impl<'g> Edge<'g> {
    /// The number of names that its block binds ("Build statements" in the Ninja manual); a name
    /// that several lines of the block bind counts once.
    pub fn block_name_count(self) -> usize
        ensures { OfEdge (edge_of self.entry) (λ entries number.
            result ≡ length (block_names_at (edges_read entries) number)) }
    {
        let graph = self.graph;
        graph.built.blocks().name_count(self.number.0)
    }

    /// The name at the given index among those that its block binds, without duplicates, in the
    /// order of their first lines; `None` past the last name.
    pub fn block_name(self, index: usize) -> Option<&'g [u8]>
        ensures { OfEdge (edge_of self.entry) (λ entries number.
            option_copied result ≡ slice_get (block_names_at (edges_read entries) number) index) }
    {
        let graph = self.graph;
        graph.built.blocks().name(self.number.0, index)
    }

    /// The value that its block binds to a name: the value of the last line of the name, expanded
    /// at the statement. `None` if no line of the block has the name.
    pub fn block_value(self, name: &[u8]) -> Option<&'g [u8]>
        ensures { OfEdge (edge_of self.entry) (λ entries number.
            option_copied result ≡ block_at (edges_read entries) number name.now) }
    {
        let graph = self.graph;
        graph.built.blocks().value(self.number.0, name)
    }
}
