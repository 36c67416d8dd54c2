//! The edges of a graph and the files that they name.

ghost use Rattle.std.specs.Prelude.{◌≡◌, ◌<◌, length, All};
ghost use Rattle.nj_graph.specs.Cited.{OfStatements, AreFiles, defaults_in_force, detail_at, edges_of, files_of, rule_name, rule_name_at};

use crate::graph::{Graph, rule_name};
use nj_edges::{EdgeGraph, EdgeNo, FileNo};
use nj_faults::PlaceRef;
use std::ops::Deref;

impl Deref for Graph {
    type Target = EdgeGraph;

    ghost deref_gives = { λ g edges. edges ≡ g.built.graph };

    /// Returns the edges and files of the graph, for queries about them.
    fn deref(&self) -> &EdgeGraph
        ensures { result.now ≡ self.now.built.graph }
    {
        self.built.graph()
    }
}

impl Graph {
    /// The name of the rule of an edge, which is the rule that was in force before its statement.
    pub fn rule_name(&self, edge: EdgeNo) -> &[u8]
        requires { edge.0 < length (edges_of self.now) }
        ensures held { result.now ≡ rule_name self.now.declarations.rules
            (detail_at self.now.built.details edge.0).rule }
        ensures stated { OfStatements self.now (λ entries.
            result.now ≡ rule_name_at entries edge.0) }
    {
        rule_name(self.declared.declarations.rules(), self.built.rule(edge).0)
    }

    /// The place of the build statement of an edge: its file, by the name under which it was
    /// opened, and its first byte there.
    pub fn edge_place(&self, edge: EdgeNo) -> PlaceRef<'_>
        requires { edge.0 < length (edges_of self.now) }
        ensures file { result.file.now ≡ (detail_at self.now.built.details edge.0).file }
        ensures spot { result.spot ≡ (detail_at self.now.built.details edge.0).spot }
    {
        self.built.place(edge)
    }

    /// The defaults in force: the files of the `default` lines in their order, or the roots if
    /// there is no `default` line ("Default target statements" in the Ninja manual).
    pub fn defaults(&self) -> &[FileNo]
        ensures files { AreFiles (files_of self.now) result.now
            (defaults_in_force self.now.built.defaults (edges_of self.now)) }
        ensures known { All (λ file. file.0 < length (files_of self.now)) result.now }
    {
        self.built.defaults()
    }
}
