//! The graph of all edges of a run.

ghost use Rattle.std.specs.Prelude.{◌≡◌, ℕ, List, ◌+◌, ◌<◌, ◌≤◌, ◌^◌, None, Some, is_some, length, slice_get, option_map, position, bytes_eq, map, IfOk, All, IfSome, if◌then◌else◌, nat_lt, not};
ghost use Rattle.nj_edges.specs.Cited.{EdgesAreHeld, HasFiles, lists_of, IsDistinct, filter, list_any, IsAcyclic, edge_at, outputs_of, inputs_of, kind_at, is_named, maker_of, roots_of, users_of, validation_users_of, AreNumbers, has_number, paths_at, HaveUsers, HaveUsersIfAny, numbers_of, using_edges, no_files, path_at, AreFiles, FinishesAs, IsFirstCycle, makers_of_inputs};

use crate::edge_lists::EdgeLists;
use crate::edges::{EdgeFiles, EdgeNo, Edges, Kind, KindEnds};
use crate::input_makers::InputMakers;
use crate::list_parts::first;
use crate::roots::roots;
use crate::users::{RowPart, Users, users_at, users_if_any, users_of_files};
use nj_cycles::{EdgeInputs, first_on_cycle};
use nj_names::{FileNo, Files};
use std::alloc::{AllocError, Global};
use std::marker::Model;
use std::mem::drop;

/// The edges of a run and the files that they name, without a dependency cycle.
#[derive(Drop)]
pub struct EdgeGraph {
    pub(crate) files: Files,
    // no edge is being read
    pub(crate) lists: EdgeLists,
    roots: Vec<FileNo>,
    users: Users,
    // `None` if no edge has validations
    validation_users: Option<Users>,
}

impl Model for EdgeGraph {
    ghost use Rattle.nj_edges.specs.Inside.EdgesHeld.{edges_of, lists_of};
    ghost use Rattle.nj_edges.specs.EdgeGraphs as spec;
    ghost use Rattle.nj_edges.specs.Inside.GraphHeld.{GraphIsHeld};

    ghost Value = { spec.EdgeGraph };

    ghost view = { λ g. record {
      files = g.files;
      edges = edges_of g.files (lists_of g.lists);
    } };

    ghost invariant = { λ g. GraphIsHeld g.files (lists_of g.lists) g.roots.items g.users
        g.validation_users };
}

/// An edge on a dependency cycle.
#[derive(Drop)]
pub struct CycleEdge {
    pub edge: EdgeNo,
    /// The path of its first explicit output, or else of its first output.
    pub output: Vec<u8>,
}

/// The result of all edges of a run.
#[derive(Drop)]
pub enum Finished {
    /// A graph.
    Graph(EdgeGraph),
    /// A dependency cycle, with the lowest-numbered edge that lies on any cycle.
    Cycle(CycleEdge),
}

impl EdgeGraph {
    /// The number of edges: one for each build statement, numbered in reading order. An edge never
    /// needs itself by a chain of inputs.
    pub fn edge_count(&self) -> usize
        ensures count { result ≡ length self.now.edges }
        ensures acyclic { IsAcyclic (makers_of_inputs self.now.edges) (length self.now.edges) }
    {
        self.lists.rows.count()
    }

    /// The number of files: of the distinct paths that edges name as outputs, inputs or
    /// validations.
    pub fn file_count(&self) -> usize
        ensures count { result ≡ length self.now.files }
        ensures each_path_once { IsDistinct bytes_eq self.now.files }
        ensures named { (path : List ℕ) → list_any (bytes_eq path) self.now.files
            ≡ is_named self.now.edges path }
    {
        self.files.count()
    }

    /// Returns the number of the file at the given path, which must be clean; `None` if no edge
    /// names it.
    pub fn file_named(&self, path: &[u8]) -> Option<FileNo>
        ensures index { option_map (λ file. file.0) result
            ≡ position (bytes_eq path.now) self.now.files }
        ensures known { IfSome result (λ file. file.0 < length self.now.files) }
        ensures named { is_some result ≡ is_named self.now.edges path.now }
    {
        self.files.number(path)
    }

    /// The path of the file with the given number.
    pub fn path(&self, file: FileNo) -> &[u8]
        requires { file.0 < length self.now.files }
        ensures { slice_get self.now.files file.0 ≡ Some result.now }
    {
        self.files.path(file)
    }

    /// Returns the edge that makes the file, or `None` for a source.
    pub fn maker(&self, file: FileNo) -> Option<EdgeNo>
        requires { file.0 < length self.now.files }
        ensures maker { option_map (λ edge. edge.0) result
            ≡ maker_of self.now.edges (path_at self.now.files file) }
        ensures known { IfSome result (λ edge. edge.0 < length self.now.edges) }
    {
        match self.lists.makers.maker(file) {
            Some(edge) => Some(EdgeNo(edge)),
            None => None,
        }
    }

    /// The files of an edge.
    pub(crate) fn edge_files(&self, edge: EdgeNo) -> EdgeFiles<'_>
        requires { edge.0 < length self.now.edges }
        ensures files { HasFiles self.now.files (edge_at self.now.edges edge.0) result.outputs.now
            result.inputs.now result.validations.now result.kinds result.is_phony }
        ensures each_path_once { IsDistinct bytes_eq self.now.files }
    {
        self.lists.edge(edge)
    }

    /// The outputs of an edge, explicit outputs first.
    pub fn outputs(&self, edge: EdgeNo) -> &[FileNo]
        requires { edge.0 < length self.now.edges }
        ensures files { AreFiles self.now.files result.now
            (outputs_of (edge_at self.now.edges edge.0)) }
        ensures known { All (λ file. file.0 < length self.now.files) result.now }
    {
        self.edge_files(edge).outputs
    }

    /// The inputs of an edge: explicit, then implicit, then order-only inputs.
    pub fn inputs(&self, edge: EdgeNo) -> &[FileNo]
        requires { edge.0 < length self.now.edges }
        ensures files { AreFiles self.now.files result.now
            (inputs_of (edge_at self.now.edges edge.0)) }
        ensures known { All (λ file. file.0 < length self.now.files) result.now }
    {
        self.edge_files(edge).inputs
    }

    /// The edge that makes the input at an index of an edge's inputs: `None` past the last input,
    /// and `Some(None)` at a source.
    pub fn maker_at(&self, edge: EdgeNo, index: usize) -> Option<Option<EdgeNo>>
        requires { edge.0 < length self.now.edges }
        ensures maker { option_map (λ maker. option_map (λ edge. edge.0) maker) result
            ≡ slice_get (makers_of_inputs self.now.edges edge.0) index }
        ensures fits { IfSome result (λ _. index + 1 < 2 ^ 64) }
    {
        let held = InputMakers { lists: &self.lists };
        match held.maker_at(edge.0, index)? {
            Some(maker) => Some(Some(EdgeNo(maker))),
            None => Some(None),
        }
    }

    /// The validations of an edge.
    pub fn validations(&self, edge: EdgeNo) -> &[FileNo]
        requires { edge.0 < length self.now.edges }
        ensures files { AreFiles self.now.files result.now
            (edge_at self.now.edges edge.0).validations }
        ensures known { All (λ file. file.0 < length self.now.files) result.now }
    {
        self.edge_files(edge).validations
    }

    /// The roots: the outputs that no edge has as an input, by edge and then by output.
    pub fn roots(&self) -> &[FileNo]
        ensures files { AreFiles self.now.files result.now (roots_of self.now.edges) }
        ensures known { All (λ file. file.0 < length self.now.files) result.now }
    {
        self.roots.as_slice()
    }

    /// The edges that have this file as an input, by number, without duplicates.
    pub fn users(&self, file: FileNo) -> &[EdgeNo]
        requires { file.0 < length self.now.files }
        ensures users { map (λ edge. edge.0) result.now
            ≡ users_of self.now.edges (path_at self.now.files file) }
        ensures known { All (λ edge. edge.0 < length self.now.edges) result.now }
    {
        users_at(&self.users.starts, &self.users.edges, file)
    }

    /// The edges that name this file as a validation ("Validations" in the Ninja manual), by
    /// number, without duplicates.
    pub fn validation_users(&self, file: FileNo) -> &[EdgeNo]
        requires { file.0 < length self.now.files }
        ensures users { map (λ edge. edge.0) result.now
            ≡ validation_users_of self.now.edges (path_at self.now.files file) }
        ensures known { All (λ edge. edge.0 < length self.now.edges) result.now }
    {
        match &self.validation_users {
            Some(users) => users_at(&users.starts, &users.edges, file),
            None => &[],
        }
    }

    /// The table of the files that the edges name; for this library's own crates.
    pub fn files(&self) -> &Files
        ensures { result.now ≡ self.now.files }
    {
        &self.files
    }

    /// The explicit inputs of an edge, which are the first of its inputs; for this library's own
    /// crates.
    pub fn explicit_input_files(&self, edge: EdgeNo) -> &[FileNo]
        requires { edge.0 < length self.now.edges }
        ensures files { AreFiles self.now.files result.now
            (edge_at self.now.edges edge.0).explicit_inputs }
        ensures known { All (λ file. file.0 < length self.now.files) result.now }
    {
        let files = self.edge_files(edge);
        first(files.inputs, files.kinds.explicit_inputs)
    }

    /// The explicit outputs of an edge, which are the first of its outputs; for this library's own
    /// crates.
    pub fn explicit_output_files(&self, edge: EdgeNo) -> &[FileNo]
        requires { edge.0 < length self.now.edges }
        ensures files { AreFiles self.now.files result.now
            (edge_at self.now.edges edge.0).explicit_outputs }
        ensures known { All (λ file. file.0 < length self.now.files) result.now }
    {
        let files = self.edge_files(edge);
        first(files.outputs, files.kinds.explicit_outputs)
    }

    /// How many outputs of an edge are explicit; explicit outputs come first.
    pub fn explicit_outputs(&self, edge: EdgeNo) -> usize
        requires { edge.0 < length self.now.edges }
        ensures { result ≡ length (edge_at self.now.edges edge.0).explicit_outputs }
    {
        self.lists.rows.row(edge.0).kinds.explicit_outputs
    }

    /// How many inputs of an edge are explicit; explicit inputs come first.
    pub fn explicit_inputs(&self, edge: EdgeNo) -> usize
        requires { edge.0 < length self.now.edges }
        ensures { result ≡ length (edge_at self.now.edges edge.0).explicit_inputs }
    {
        self.lists.rows.row(edge.0).kinds.explicit_inputs
    }

    /// The kind of the input at an index.
    pub fn input_kind(&self, edge: EdgeNo, index: usize) -> Kind
        requires { edge.0 < length self.now.edges }
        ensures { result ≡ kind_at (edge_at self.now.edges edge.0) index }
    {
        kind_before(self.lists.rows.row(edge.0).kinds, index)
    }

    /// Whether the rule of an edge is `phony`, so that it has no command.
    pub fn is_phony(&self, edge: EdgeNo) -> bool
        requires { edge.0 < length self.now.edges }
        ensures { result ≡ (edge_at self.now.edges edge.0).is_phony }
    {
        self.lists.rows.row(edge.0).is_phony
    }
}

// The kind of the input at an index, by where the kinds end.
fn kind_before(ends: KindEnds, index: usize) -> Kind
    ensures { result ≡ (if nat_lt index ends.explicit_inputs then Kind.Explicit
        else (if nat_lt index ends.implicit_inputs then Kind.Implicit
        else Kind.OrderOnly)) }
{
    if index < ends.explicit_inputs {
        Kind::Explicit
    } else if index < ends.implicit_inputs {
        Kind::Implicit
    } else {
        Kind::OrderOnly
    }
}

impl Edges {
    /// The graph of all edges, or the lowest-numbered edge on a dependency cycle. Takes time in
    /// proportion to the edges and their inputs.
    pub fn finish(self, alloc: Global) -> Result<Finished, AllocError>
        requires { self.«open» ≡ no_files }
        ensures { IfOk result (λ finished. FinishesAs self.files self.edges finished) }
    {
        match self.first_cycle(alloc) {
            Ok(None) => {}
            Ok(Some(cycle)) => {
                drop(self);
                return Ok(Finished::Cycle(cycle));
            }
            Err(error) => {
                drop(self);
                return Err(error);
            }
        }
        match found_lists(alloc, &self.files, &self.lists) {
            Ok(found) => Ok(Finished::Graph(EdgeGraph {
                files: self.files,
                lists: self.lists,
                roots: found.roots,
                users: found.users,
                validation_users: found.validation_users,
            })),
            Err(error) => {
                drop(self);
                Err(error)
            }
        }
    }

    // The lowest-numbered edge on a dependency cycle, if any.
    fn first_cycle(&self, alloc: Global) -> Result<Option<CycleEdge>, AllocError>
        requires { self.now.«open» ≡ no_files }
        ensures { IfOk result (λ cycle. IsFirstCycle self.now.edges cycle) }
    {
        let held = InputMakers { lists: &self.lists };
        match first_on_cycle(alloc, &held)? {
            Some(edge) => {
                let outputs = self.edge_files(EdgeNo(edge)).outputs;
                let cycle = cycle_edge(alloc, &self.files, outputs, EdgeNo(edge))?;
                Ok(Some(cycle))
            }
            None => Ok(None),
        }
    }
}

// The lists that a graph keeps besides its edges: its roots, and the users of files.
#[derive(Drop)]
struct FoundLists {
    roots: Vec<FileNo>,
    users: Users,
    validation_users: Option<Users>,
}

// Finds the roots and the users of the given edges.
fn found_lists(alloc: Global, files: &Files, edges: &EdgeLists) -> Result<FoundLists, AllocError>
    requires { EdgesAreHeld files.now (lists_of edges.now) }
    ensures roots { IfOk result (λ found. found.roots.items ≡ filter
        (λ file. not (has_number file.0 edges.now.inputs.items)) edges.now.outputs.items) }
    ensures users { IfOk result (λ found. HaveUsers (length files.now) found.users.starts.items
        (numbers_of found.users.edges.items)
        (using_edges edges.now.inputs.items RowPart.Inputs 0 edges.now.rows)) }
    ensures validation_users { IfOk result (λ found. HaveUsersIfAny (length files.now)
        found.validation_users
        (using_edges edges.now.validations.items RowPart.Validations 0 edges.now.rows)) }
{
    let file_count = files.count();
    let roots = roots(alloc, file_count, &edges.outputs, &edges.inputs)?;
    let users = users_of_files(
        alloc,
        file_count,
        &edges.inputs,
        &edges.rows,
        RowPart::Inputs,
    )?;
    let validation_users = users_if_any(
        alloc,
        file_count,
        &edges.validations,
        &edges.rows,
        RowPart::Validations,
    )?;
    Ok(FoundLists {
        roots,
        users,
        validation_users,
    })
}

// The edge with the given number, with the path of the first of the given outputs.
fn cycle_edge(
    alloc: Global,
    files: &Files,
    outputs: &[FileNo],
    edge: EdgeNo,
) -> Result<CycleEdge, AllocError>
    requires some { 0 < length outputs.now }
    requires files { AreNumbers (length files.now) outputs.now }
    ensures edge { IfOk result (λ cycle. cycle.edge ≡ edge) }
    ensures output { IfOk result (λ cycle.
        slice_get (paths_at files.now outputs.now) 0 ≡ Some cycle.output.items) }
{
    let output = Vec::from_slice(alloc, files.path(outputs[0]))?;
    Ok(CycleEdge { edge, output })
}
