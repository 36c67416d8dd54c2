//! Files and edges that know their graph.

ghost use Rattle.std.specs.Prelude.{◌<◌, length};
ghost use Rattle.nj_graph.specs.Graph.{edges_of, files_of};

use crate::graph::Graph;
use nj_edges::{EdgeNo, FileNo};

/// A file of a graph: a clean path that an edge names.
#[derive(Clone, Copy)]
pub struct File<'g> {
    pub(crate) graph: &'g Graph,
    pub(crate) number: FileNo,
    ghost known: { number.0 < length (files_of graph.now) },
}

/// An edge of a graph: a build statement ("Build statements" in the Ninja manual).
#[derive(Clone, Copy)]
pub struct Edge<'g> {
    pub(crate) graph: &'g Graph,
    pub(crate) number: EdgeNo,
    ghost known: { number.0 < length (edges_of graph.now) },
}
