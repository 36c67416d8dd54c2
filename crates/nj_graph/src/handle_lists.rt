//! Lists of a graph's files and edges.

ghost use Rattle.std.specs.Prelude.{◌≡◌, ◌<◌, ℕ, List, All, drop, length, map, option_map, slice_get, take};
ghost use Rattle.nj_graph.specs.Cited.{YieldsFirstBy, item_count, is_empty, AreFiles, path_at, GraphModel, edges_of, files_of, edge_of, edges_in, file_of, files_in};

use crate::graph::Graph;
use crate::handles::{Edge, File};
use nj_edges::{EdgeNo, FileNo};
use std::marker::Model;

/// Files of a graph, one after another.
#[derive(Clone, Drop)]
pub struct Files<'g> {
    graph: &'g Graph,
    left: &'g [FileNo],
}

impl<'g> Model for Files<'g> {
    ghost use Rattle.std.specs.Prelude.{All, List, ◌<◌, length, map};
    ghost use Rattle.nj_names.specs.Files.{path_at};
    ghost use Rattle.nj_graph.specs.Graph.{files_of};
    ghost use Rattle.nj_graph.specs.Handles.{GraphFile, files_in};

    ghost Value = { List GraphFile };

    ghost view = { λ f. files_in f.graph.now (map (path_at (files_of f.graph.now)) f.left.now) };

    ghost invariant = { λ f. All (λ file. file.0 < length (files_of f.graph.now)) f.left.now };
}

impl<'g> Files<'g> {
    /// The files with the given numbers.
    pub(crate) fn new(graph: &'g Graph, numbers: &'g [FileNo]) -> Files<'g>
        requires { All (λ file. file.0 < length (files_of graph.now)) numbers.now }
        ensures numbers { result
            ≡ files_in graph.entry.now (map (path_at (files_of graph.entry.now)) numbers.entry.now) }
        ensures paths { (paths : List (List ℕ))
            → AreFiles (files_of graph.entry.now) numbers.entry.now paths
            → result ≡ files_in graph.entry.now paths }
    {
        Files {
            graph,
            left: numbers,
        }
    }

    /// Their numbers, for calls that take numbers.
    pub fn numbers(&self) -> &'g [FileNo]
        ensures paths { (graph : GraphModel) (paths : List (List ℕ))
            → self.now ≡ files_in graph paths
            → map (path_at (files_of graph)) result.now ≡ paths }
        ensures known { (graph : GraphModel) (paths : List (List ℕ))
            → self.now ≡ files_in graph paths
            → All (λ file. file.0 < length (files_of graph)) result.now }
    {
        self.left
    }

    /// The number of files.
    pub fn len(&self) -> usize
        ensures { result ≡ length self.now }
    {
        self.left.len()
    }

    /// Whether the list is empty.
    pub fn is_empty(&self) -> bool
        ensures { result ≡ is_empty self.now }
    {
        self.left.is_empty()
    }

    /// The first `count` files, and the others. If there are fewer files, the first list has all of
    /// them.
    pub fn split_at(&self, count: usize) -> (Files<'g>, Files<'g>)
        ensures first { result.0 ≡ take count self.now }
        ensures others { result.1 ≡ drop count self.now }
    {
        let (first, others) = self.left.split_at(count.min(self.left.len()));
        let graph = self.graph;
        (
            Files { graph, left: first },
            Files {
                graph,
                left: others,
            },
        )
    }

    /// The first file, if any.
    pub fn first(&self) -> Option<File<'g>>
        ensures { option_map file_of result ≡ slice_get self.now 0 }
    {
        match self.left.first() {
            Some(number) => Some(File {
                graph: self.graph,
                number: *number,
            }),
            None => None,
        }
    }
}

impl<'g> Iterator for Files<'g> {
    type Item = File<'g>;

    ghost next_gives = { YieldsFirstBy file_of (λ left. left) };

    ghost remaining = { item_count (λ left. left) };

    fn next(&mut self) -> Option<File<'g>> {
        let graph = self.graph;
        let (number, left) = self.left.split_first()?;
        *self = Files { graph, left };
        Some(File {
            graph,
            number: *number,
        })
    }
}

/// Edges of a graph, one after another.
#[derive(Clone, Drop)]
pub struct Edges<'g> {
    graph: &'g Graph,
    left: &'g [EdgeNo],
}

impl<'g> Model for Edges<'g> {
    ghost use Rattle.std.specs.Prelude.{All, List, ◌<◌, length, map};
    ghost use Rattle.nj_graph.specs.Graph.{edges_of};
    ghost use Rattle.nj_graph.specs.Handles.{GraphEdge, edges_in};

    ghost Value = { List GraphEdge };

    ghost view = { λ e. edges_in e.graph.now (map (λ edge. edge.0) e.left.now) };

    ghost invariant = { λ e. All (λ edge. edge.0 < length (edges_of e.graph.now)) e.left.now };
}

impl<'g> Edges<'g> {
    /// The edges with the given numbers.
    pub(crate) fn new(graph: &'g Graph, numbers: &'g [EdgeNo]) -> Edges<'g>
        requires { All (λ edge. edge.0 < length (edges_of graph.now)) numbers.now }
        ensures { result ≡ edges_in graph.entry.now (map (λ edge. edge.0) numbers.entry.now) }
    {
        Edges {
            graph,
            left: numbers,
        }
    }

    /// Their numbers, for calls that take numbers.
    pub fn numbers(&self) -> &'g [EdgeNo]
        ensures numbers { (graph : GraphModel) (numbers : List ℕ)
            → self.now ≡ edges_in graph numbers
            → map (λ edge. edge.0) result.now ≡ numbers }
        ensures known { (graph : GraphModel) (numbers : List ℕ)
            → self.now ≡ edges_in graph numbers
            → All (λ edge. edge.0 < length (edges_of graph)) result.now }
    {
        self.left
    }

    /// The number of edges.
    pub fn len(&self) -> usize
        ensures { result ≡ length self.now }
    {
        self.left.len()
    }

    /// Whether the list is empty.
    pub fn is_empty(&self) -> bool
        ensures { result ≡ is_empty self.now }
    {
        self.left.is_empty()
    }

    /// The first edge, if any.
    pub fn first(&self) -> Option<Edge<'g>>
        ensures { option_map edge_of result ≡ slice_get self.now 0 }
    {
        match self.left.first() {
            Some(number) => Some(Edge {
                graph: self.graph,
                number: *number,
            }),
            None => None,
        }
    }
}

impl<'g> Iterator for Edges<'g> {
    type Item = Edge<'g>;

    ghost next_gives = { YieldsFirstBy edge_of (λ left. left) };

    ghost remaining = { item_count (λ left. left) };

    fn next(&mut self) -> Option<Edge<'g>> {
        let graph = self.graph;
        let (number, left) = self.left.split_first()?;
        *self = Edges { graph, left };
        Some(Edge {
            graph,
            number: *number,
        })
    }
}
