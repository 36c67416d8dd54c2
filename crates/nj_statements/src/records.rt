//! The records of a run's edges beside their files, and its defaults.

ghost use Rattle.std.specs.Prelude.{◌≡◌, ◌<◌, ℕ, List, Some, length, IfOk};
ghost use Rattle.nj_statements.specs.Cited.{EdgePaths, FinishesAs, ReadStatement, IsFault, fault_at, ComesTo, IsBuiltOf, AreOfGraph, with_graph, with_restat, name_at, spot_of};

use crate::built::Built;
use crate::edge_record::Detail;
use nj_edge_env::Blocks;
use nj_edges::{EdgeNo, FileNo, Finished};
use nj_faults::{Cause, GraphFault, Name, PlaceRef};
use nj_names::Names;
use std::alloc::Global;
use std::marker::Model;

// An edge that is bound to a dyndep file ("Dynamic Dependencies" in the Ninja manual).
#[derive(Clone, Copy)]
pub(crate) struct DyndepEdge {
    pub(crate) edge: EdgeNo,
    pub(crate) file: FileNo,
}

/// The records of a run's edges beside their files, and its defaults.
#[derive(Drop)]
pub struct EdgeRecords {
    pub(crate) blocks: Blocks,
    pub(crate) names: Names,
    pub(crate) details: Vec<Detail>,
    pub(crate) defaults: Vec<FileNo>,
    // the edges to which dyndep files are still to be joined
    pub(crate) dyndeps: Vec<DyndepEdge>,
}

impl Model for EdgeRecords {
    ghost use Rattle.nj_statements.specs.Records.{RecordsModel};

    ghost Value = { RecordsModel };

    ghost use Rattle.nj_statements.specs.Inside.RecordsFields.{records_of};

    ghost view = { records_of };
}

impl EdgeRecords {
    /// Returns the edges of a run: the finished graph, with the records of its edges.
    ///
    /// # Errors
    ///
    /// A dependency cycle: at the build statement of its edge, with the output of the edge.
    pub fn finish(self, alloc: Global, finished: Finished) -> Result<Built, GraphFault>
        requires { (files : List (List ℕ)) × (edges : List EdgePaths)
            × FinishesAs files edges finished
            × AreOfGraph (record { files = files; edges = edges }) self }
        ensures graph { (files : List (List ℕ)) (edges : List EdgePaths)
            → FinishesAs files edges finished → IfOk result (λ built.
            built ≡ with_graph (record { files = files; edges = edges }) self) }
        ensures comes { (files : List (List ℕ)) (edges : List EdgePaths)
            (entries : List ReadStatement) → FinishesAs files edges finished
            → IsBuiltOf (with_graph (record { files = files; edges = edges }) self)
            entries → ComesTo entries result }
    {
        match finished {
            Finished::Graph(graph) => Ok(Built {
                graph,
                records: self,
            }),
            Finished::Cycle(cycle) => {
                let detail = self.details[cycle.edge.0];
                let output = Name::from(cycle.output);
                Err(cycle_fault(alloc, &self.names, detail, output))
            }
        }
    }

    /// Notes whether an entry of a dyndep file binds `restat` for an edge.
    pub(crate) fn note_restat(&mut self, edge: EdgeNo, restat: bool)
        requires { edge.0 < length self.old.details }
        ensures { self.new ≡ with_restat restat edge.0 self.old }
    {
        self.details[edge.0].restat |= restat;
    }
}

// The fault of a cycle at the statement of the given edge, with the given output.
fn cycle_fault(alloc: Global, names: &Names, detail: Detail, output: Name) -> GraphFault
    requires { detail.file < length names.now }
    ensures { IsFault (Some (fault_at (name_at names.now detail.file) (spot_of detail)
        (Cause.Cycle output))) result }
{
    place_of(names, detail).fault(alloc, Cause::Cycle(output))
}

// The place of the build statement of the given edge.
pub(crate) fn place_of(names: &Names, detail: Detail) -> PlaceRef<'_>
    requires { detail.file < length names.now }
    ensures file { result.file.now ≡ name_at names.now detail.file }
    ensures spot { result.spot ≡ spot_of detail }
{
    PlaceRef {
        file: names.name(detail.file as usize),
        spot: detail.spot(),
    }
}
