//! Files and edges of a graph, in lists of their own.

ghost use Rattle.std.specs.Prelude.{◌≡◌, ◌<◌, All, length, map};
ghost use Rattle.nj_graph.specs.Cited.{path_at, edges_of, files_of, edges_in, files_in};

use crate::graph::Graph;
use crate::handle_lists::{Edges, Files};
use nj_edges::{EdgeNo, FileNo};
use std::marker::Model;

/// Files of a graph, in a list of their own.
#[derive(Drop)]
pub struct FileList<'g> {
    pub(crate) graph: &'g Graph,
    pub(crate) numbers: Vec<FileNo>,
}

impl<'g> Model for FileList<'g> {
    ghost use Rattle.std.specs.Prelude.{All, ◌<◌, length, map};
    ghost use Rattle.nj_names.specs.Files.{path_at};
    ghost use Rattle.nj_graph.specs.Graph.{files_of};
    ghost use Rattle.nj_graph.specs.Handles.{GraphFiles};

    ghost Value = { GraphFiles };

    ghost view = { λ f. record {
      graph = f.graph.now;
      paths = map (path_at (files_of f.graph.now)) f.numbers.items;
    } };

    ghost invariant = { λ f.
        All (λ file. file.0 < length (files_of f.graph.now)) f.numbers.items };
}

impl<'g> FileList<'g> {
    /// The graph.
    pub fn graph(&self) -> &'g Graph
        ensures { result.now ≡ self.now.graph }
    {
        self.graph
    }

    /// The files, in their order.
    pub fn files(&self) -> Files<'_>
        ensures { result ≡ files_in self.now.graph self.now.paths }
    {
        Files::new(self.graph, &self.numbers)
    }

    /// Their numbers, for calls that take numbers.
    pub fn numbers(&self) -> &[FileNo]
        ensures paths { map (path_at (files_of self.now.graph)) result.now ≡ self.now.paths }
        ensures known { All (λ file. file.0 < length (files_of self.now.graph)) result.now }
    {
        self.numbers.as_slice()
    }
}

/// Edges of a graph, in a list of their own.
#[derive(Drop)]
pub struct EdgeList<'g> {
    pub(crate) graph: &'g Graph,
    pub(crate) numbers: Vec<EdgeNo>,
}

impl<'g> Model for EdgeList<'g> {
    ghost use Rattle.std.specs.Prelude.{All, List, ◌<◌, length, map};
    ghost use Rattle.nj_graph.specs.Graph.{edges_of};
    ghost use Rattle.nj_graph.specs.Handles.{GraphEdge, edges_in};

    ghost Value = { List GraphEdge };

    ghost view = { λ e. edges_in e.graph.now (map (λ edge. edge.0) e.numbers.items) };

    ghost invariant = { λ e.
        All (λ edge. edge.0 < length (edges_of e.graph.now)) e.numbers.items };
}

impl<'g> EdgeList<'g> {
    /// The edges, in their order.
    pub fn edges(&self) -> Edges<'_>
        ensures { result ≡ self.now }
    {
        Edges::new(self.graph, &self.numbers)
    }
}
