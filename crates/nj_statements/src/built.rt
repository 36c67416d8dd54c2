//! The edges and defaults of a run, after its last statement.

ghost use Rattle.std.specs.Prelude.{◌≡◌, ◌<◌, Some, option_copied, option_map, length, slice_get, All};
ghost use Rattle.nj_statements.specs.Cited.{AreFiles, assigned_at, restat_at, defaults_in_force, detail_at, AreOfGraph, with_graph};

use crate::records::{EdgeRecords, place_of};
use crate::string_numbers::string_at;
use nj_edge_env::Blocks;
use nj_edges::{EdgeGraph, EdgeNo, FileNo};
use nj_faults::PlaceRef;
use nj_scope::{RuleNo, ScopeNo};
use std::marker::Model;

/// The edges of a run, without a dependency cycle, and its defaults.
#[derive(Drop)]
pub struct Built {
    pub(crate) graph: EdgeGraph,
    pub(crate) records: EdgeRecords,
}

impl Model for Built {
    ghost use Rattle.nj_statements.specs.Built.{BuiltModel};

    ghost Value = { BuiltModel };

    ghost use Rattle.nj_statements.specs.Records.{AreOfGraph, with_graph};

    ghost view = { λ b. with_graph b.graph b.records };

    ghost invariant = { λ b. AreOfGraph b.graph b.records };
}

impl Built {
    /// The files and the edges, and the records of the edges beside their files.
    pub fn into_parts(self) -> (EdgeGraph, EdgeRecords)
        ensures built { self ≡ with_graph result.0 result.1 }
        ensures fits { AreOfGraph result.0 result.1 }
    {
        let Built { graph, records } = self;
        (graph, records)
    }

    /// The files and the edges alone, for walks over them.
    pub fn graph(&self) -> &EdgeGraph
        ensures { result.now ≡ self.now.graph }
    {
        &self.graph
    }

    /// The values that the blocks of edges bind, by the numbers of edges.
    pub fn blocks(&self) -> &Blocks
        ensures { result.now ≡ self.now.blocks }
    {
        &self.records.blocks
    }

    /// The place of the build statement of an edge.
    pub fn place(&self, edge: EdgeNo) -> PlaceRef<'_>
        requires { edge.0 < length self.now.graph.edges }
        ensures file { result.file.now ≡ (detail_at self.now.details edge.0).file }
        ensures spot { result.spot ≡ (detail_at self.now.details edge.0).spot }
    {
        place_of(&self.records.names, self.records.details[edge.0])
    }

    /// The number of the scope that contains the build statement of an edge.
    pub fn scope(&self, edge: EdgeNo) -> ScopeNo
        requires { edge.0 < length self.now.graph.edges }
        ensures { result.0 ≡ (detail_at self.now.details edge.0).scope }
    {
        ScopeNo(self.records.details[edge.0].scope as usize)
    }

    /// The number of the rule of an edge.
    pub fn rule(&self, edge: EdgeNo) -> RuleNo
        requires { edge.0 < length self.now.graph.edges }
        ensures { result.0 ≡ (detail_at self.now.details edge.0).rule }
    {
        RuleNo(self.records.details[edge.0].rule as usize)
    }

    /// The pool of an edge, by its name: the value of `pool` at its build statement ("Pools" in the
    /// Ninja manual). `None` if the value was empty.
    pub fn pool(&self, edge: EdgeNo) -> Option<&[u8]>
        requires { edge.0 < length self.now.graph.edges }
        ensures { option_copied result ≡ (assigned_at self.now.assigned edge.0).pool }
    {
        string_at(&self.records.names, self.records.details[edge.0].pool)
    }

    /// The dyndep file of an edge, by its clean path: the value of `dyndep` at its build statement
    /// ("Dynamic Dependencies" in the Ninja manual). `None` if the value was empty.
    pub fn dyndep(&self, edge: EdgeNo) -> Option<&[u8]>
        requires { edge.0 < length self.now.graph.edges }
        ensures { option_copied result ≡ (assigned_at self.now.assigned edge.0).dyndep }
    {
        string_at(&self.records.names, self.records.details[edge.0].dyndep)
    }

    /// Whether the dyndep file of an edge binds `restat` ("Dynamic Dependencies" in the Ninja
    /// manual).
    pub fn has_dyndep_restat(&self, edge: EdgeNo) -> bool
        requires { edge.0 < length self.now.graph.edges }
        ensures { result ≡ restat_at self.now.restats edge.0 }
    {
        self.records.details[edge.0].restat
    }

    /// How many edges are pending on dyndep files.
    pub fn pending_count(&self) -> usize
        ensures { result ≡ length self.now.pending }
    {
        self.records.dyndeps.as_slice().len()
    }

    /// The edge at the given index among those that are pending on dyndep files, by number.
    pub fn pending_edge(&self, index: usize) -> EdgeNo
        requires { index < length self.now.pending }
        ensures edge { option_map (λ p. p.edge) (slice_get self.now.pending index)
            ≡ Some result.0 }
        ensures known { result.0 < length self.now.graph.edges }
    {
        self.records.dyndeps[index].edge
    }

    /// The defaults in force: the files of the `default` lines in their order, or the roots if
    /// there is no `default` line ("Default target statements" in the Ninja manual).
    pub fn defaults(&self) -> &[FileNo]
        ensures files { AreFiles self.now.graph.files result.now
            (defaults_in_force self.now.defaults self.now.graph.edges) }
        ensures known { All (λ file. file.0 < length self.now.graph.files) result.now }
    {
        let records = &self.records;
        let defaults = records.defaults.as_slice();
        if defaults.is_empty() {
            self.graph.roots()
        } else {
            defaults
        }
    }
}
