//! The path of a file, and the edges that name it.

ghost use Rattle.std.specs.Prelude.{◌≡◌, ◌<◌, Some, length, option_map, slice_get};
ghost use Rattle.nj_graph.specs.Cited.{edge_in, edge_of, edges_in, edges_of, file_of, files_of, maker_of, number_of, users_of, validation_users_of};

use crate::graph::Graph;
use crate::handle_lists::Edges;
use crate::handles::{Edge, File};
use nj_edges::FileNo;

impl<'g> File<'g> {
    /// The graph.
    pub fn graph(self) -> &'g Graph
        ensures { result.now ≡ (file_of self.entry).graph }
    {
        self.graph
    }

    /// Its number, for calls that take numbers.
    pub fn number(self) -> FileNo
        ensures number { slice_get (files_of (file_of self.entry).graph) result.0
            ≡ Some (file_of self.entry).path }
        ensures place { result.0 ≡ number_of (file_of self.entry) }
        ensures known { result.0 < length (files_of (file_of self.entry).graph) }
    {
        // so that the paths of the graph are known to be distinct
        let _count = self.graph.file_count();
        self.number
    }

    /// Its path.
    pub fn path(self) -> &'g [u8]
        ensures { result.now ≡ (file_of self.entry).path }
    {
        self.graph.path(self.number)
    }

    /// The edge that makes it; `None` for a source.
    pub fn maker(self) -> Option<Edge<'g>>
        ensures { option_map edge_of result ≡ option_map (edge_in (file_of self.entry).graph)
            (maker_of (edges_of (file_of self.entry).graph) (file_of self.entry).path) }
    {
        match self.graph.maker(self.number) {
            Some(number) => Some(Edge {
                graph: self.graph,
                number,
            }),
            None => None,
        }
    }

    /// The edges that have it as an input, in reading order, without duplicates.
    pub fn users(self) -> Edges<'g>
        ensures { result ≡ edges_in (file_of self.entry).graph
            (users_of (edges_of (file_of self.entry).graph) (file_of self.entry).path) }
    {
        Edges::new(self.graph, self.graph.users(self.number))
    }

    /// The edges that name it as a validation ("Validations" in the Ninja manual), in reading order,
    /// without duplicates.
    pub fn validation_users(self) -> Edges<'g>
        ensures { result ≡ edges_in (file_of self.entry).graph
            (validation_users_of (edges_of (file_of self.entry).graph) (file_of self.entry).path) }
    {
        Edges::new(self.graph, self.graph.validation_users(self.number))
    }
}
