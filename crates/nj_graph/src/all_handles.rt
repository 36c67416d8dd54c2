//! All files and edges of a graph.

ghost use Rattle.std.specs.Prelude.{◌≡◌, bytes_eq, length};
ghost use Rattle.nj_graph.specs.Cited.{YieldsFirstBy, item_count, IsDistinct, range_with_len, edges_of, files_of, edge_of, edges_in, file_of, files_in};

use crate::graph::Graph;
use crate::handles::{Edge, File};
use nj_edges::{EdgeNo, FileNo};
use std::marker::Model;
use std::ops::Range;

/// The remaining files of a graph, by number: the value of [`Graph::files`].
#[derive(Clone, Drop)]
pub struct AllFiles<'g> {
    graph: &'g Graph,
    // numbers
    left: Range<usize>,
}

impl<'g> Model for AllFiles<'g> {
    ghost use Rattle.std.specs.Prelude.{List, ◌-◌, ◌≤◌, length, map};
    ghost use Rattle.std.specs.List.{range_with_len};
    ghost use Rattle.nj_names.specs.NameTables.{name_at};
    ghost use Rattle.nj_graph.specs.Graph.{files_of};
    ghost use Rattle.nj_graph.specs.Handles.{GraphFile, files_in};

    ghost Value = { List GraphFile };

    ghost view = { λ f. files_in f.graph.now (map (name_at (files_of f.graph.now))
        (range_with_len f.left.start (f.left.end - f.left.start))) };

    ghost invariant = { λ f. f.left.end ≤ length (files_of f.graph.now) };
}

impl<'g> Iterator for AllFiles<'g> {
    type Item = File<'g>;

    ghost next_gives = { YieldsFirstBy file_of (λ left. left) };

    ghost remaining = { item_count (λ left. left) };

    fn next(&mut self) -> Option<File<'g>> {
        match self.left.next() {
            Some(number) => Some(File {
                graph: self.graph,
                number: FileNo(number),
            }),
            None => None,
        }
    }
}

/// The remaining edges of a graph, in reading order: the value of [`Graph::edges`].
#[derive(Clone, Drop)]
pub struct AllEdges<'g> {
    graph: &'g Graph,
    // numbers
    left: Range<usize>,
}

impl<'g> Model for AllEdges<'g> {
    ghost use Rattle.std.specs.Prelude.{List, ◌-◌, ◌≤◌, length};
    ghost use Rattle.std.specs.List.{range_with_len};
    ghost use Rattle.nj_graph.specs.Graph.{edges_of};
    ghost use Rattle.nj_graph.specs.Handles.{GraphEdge, edges_in};

    ghost Value = { List GraphEdge };

    ghost view = { λ e. edges_in e.graph.now
        (range_with_len e.left.start (e.left.end - e.left.start)) };

    ghost invariant = { λ e. e.left.end ≤ length (edges_of e.graph.now) };
}

impl<'g> Iterator for AllEdges<'g> {
    type Item = Edge<'g>;

    ghost next_gives = { YieldsFirstBy edge_of (λ left. left) };

    ghost remaining = { item_count (λ left. left) };

    fn next(&mut self) -> Option<Edge<'g>> {
        match self.left.next() {
            Some(number) => Some(Edge {
                graph: self.graph,
                number: EdgeNo(number),
            }),
            None => None,
        }
    }
}

impl Graph {
    /// All files, by number.
    pub fn files(&self) -> AllFiles<'_>
        ensures files { result ≡ files_in self.now (files_of self.now) }
        ensures each_path_once { IsDistinct bytes_eq (files_of self.now) }
    {
        AllFiles {
            graph: self,
            left: 0..self.file_count(),
        }
    }

    /// All edges, in reading order.
    pub fn edges(&self) -> AllEdges<'_>
        ensures { result ≡ edges_in self.now (range_with_len 0 (length (edges_of self.now))) }
    {
        AllEdges {
            graph: self,
            left: 0..self.edge_count(),
        }
    }
}
