//! The edges of a graph with the files that are added to them.

ghost use Rattle.std.specs.Prelude.{◌≡◌, ℕ, List, ◌<◌, ◌++◌, [], ◌∷◌, Some, length, slice_get, IfOk, OnOk};
ghost use Rattle.nj_edges.specs.Cited.{edge_at, EndWithin, edge_read, no_files, plus_output, AreNumbers, IsWithin, paths_at, path_at, JoinIsHeld, all_joined, joined_edge, plus_inputs, plus_outputs, plus_validations, spans_of, with_edge};

use crate::edge_lists::EdgeLists;
use crate::edges::{EdgeNo, Edges, KindEnds, Span};
use crate::list_parts::{after, first, part};
use nj_names::{FileNo, Files};
use std::alloc::{AllocError, Global};
use std::marker::Model;

// Where the files that were added to an edge are among all added files.
#[derive(Clone, Copy)]
pub(crate) struct AddedSpans {
    pub(crate) outputs: Span,
    pub(crate) inputs: Span,
}

// The edges that were made so far, by the numbers of files, and the edge that is being made.
#[derive(Drop)]
struct JoinedEdges<'a> {
    files: &'a Files,
    lists: EdgeLists,
}

impl<'a> Model for JoinedEdges<'a> {
    ghost use Rattle.nj_edges.specs.Inside.EdgesHeld.{EdgesAreHeld, lists_of, table_of};
    ghost use Rattle.nj_edges.specs.EdgeTables.{EdgeTable};

    ghost Value = { EdgeTable };

    ghost view = { λ j. table_of j.files.now (lists_of j.lists) };

    ghost invariant = { λ j. EdgesAreHeld j.files.now (lists_of j.lists) };
}

// The edges with their additions. The files of all additions are the files of the edge that is
// being read.
pub(crate) fn joined_edges(
    alloc: Global,
    edges: Edges,
    added: &[Option<AddedSpans>],
) -> Result<Edges, AllocError>
    requires { JoinIsHeld edges added.now (length edges.«open».outputs)
        (length edges.«open».inputs) }
    ensures { IfOk result (λ joined. joined ≡ all_joined edges added.now) }
{
    let mut joined = JoinedEdges::with_capacity(alloc, &edges)?;
    'rows: for edge in 0..edges.edge_count() {
        joined.push_edge(&edges, EdgeNo(edge), spans_of(added[edge]))?;
    }
    Ok(Edges {
        lists: joined.lists,
        files: edges.files,
    })
}

// Where the files that were added to an edge are; nowhere if it was not joined.
fn spans_of(found: Option<AddedSpans>) -> AddedSpans
    ensures { result ≡ spans_of found }
{
    match found {
        Some(spans) => spans,
        None => AddedSpans {
            outputs: Span { start: 0, end: 0 },
            inputs: Span { start: 0, end: 0 },
        },
    }
}

impl<'a> JoinedEdges<'a> {
    // No edges, among the files that the given edges name, with capacity for the edges and their
    // additions.
    fn with_capacity(alloc: Global, edges: &'a Edges) -> Result<JoinedEdges<'a>, AllocError>
        ensures { IfOk result (λ joined. joined
            ≡ record { files = edges.now.files; edges = []; «open» = no_files }) }
    {
        let files = edges.files();
        let lists = EdgeLists::with_capacity(alloc, files.count(), &edges.lists)?;
        Ok(JoinedEdges { files, lists })
    }

    // Appends the edge with the given number, with the additions that are there.
    fn push_edge(
        &mut self,
        edges: &Edges,
        edge: EdgeNo,
        added: AddedSpans,
    ) -> Result<(), AllocError>
        requires known { edge.0 < length edges.now.edges }
        requires files { self.old.files ≡ edges.now.files }
        requires closed { self.old.«open» ≡ no_files }
        requires outputs { IsWithin added.outputs (length edges.now.«open».outputs) }
        requires inputs { IsWithin added.inputs (length edges.now.«open».inputs) }
        ensures { OnOk result (self.new ≡ with_edge self.old
            (joined_edge edges.now.«open» added (edge_at edges.now.edges edge.0))) }
    {
        let stated = edges.edge_files(edge);
        let needed = first(stated.inputs, stated.kinds.implicit_inputs);
        let outputs = edges.open_output_files();
        let inputs = edges.open_input_files();
        let new_inputs = part(inputs, added.inputs.start, added.inputs.end);
        self.add_outputs(stated.outputs)?;
        self.add_outputs(part(outputs, added.outputs.start, added.outputs.end))?;
        self.add_inputs(needed)?;
        self.add_inputs(new_inputs)?;
        self.add_inputs(after(stated.inputs, stated.kinds.implicit_inputs))?;
        self.add_validations(stated.validations)?;
        let kinds = KindEnds {
            implicit_inputs: needed.len() + new_inputs.len(),
            ..stated.kinds
        };
        self.end_edge(kinds, stated.is_phony)
    }

    fn add_outputs(&mut self, files: &[FileNo]) -> Result<(), AllocError>
        requires { AreNumbers (length self.old.files) files.now }
        ensures { OnOk result (self.new
            ≡ plus_outputs self.old (paths_at self.old.files files.now)) }
    {
        'files: for file in files {
            self.add_output(*file)?;
        }
        Ok(())
    }

    fn add_output(&mut self, file: FileNo) -> Result<(), AllocError>
        requires { file.0 < length self.old.files }
        ensures { OnOk result (self.new ≡ plus_output self.old (path_at self.old.files file)) }
    {
        self.lists.outputs.push(file)?;
        if self.lists.makers.maker(file).is_none() {
            self.lists.makers.set(file, self.lists.rows.count());
        }
        Ok(())
    }

    fn add_inputs(&mut self, files: &[FileNo]) -> Result<(), AllocError>
        requires { AreNumbers (length self.old.files) files.now }
        ensures { OnOk result (self.new
            ≡ plus_inputs self.old (paths_at self.old.files files.now)) }
    {
        self.lists.inputs.extend_from_slice(files)?;
        Ok(())
    }

    fn add_validations(&mut self, files: &[FileNo]) -> Result<(), AllocError>
        requires { AreNumbers (length self.old.files) files.now }
        ensures { OnOk result (self.new
            ≡ plus_validations self.old (paths_at self.old.files files.now)) }
    {
        self.lists.validations.extend_from_slice(files)?;
        Ok(())
    }

    // Ends the edge that is being made, with the given ends of its kinds, and begins another.
    fn end_edge(&mut self, kinds: KindEnds, is_phony: bool) -> Result<(), AllocError>
        requires { EndWithin kinds (length self.old.«open».outputs)
            (length self.old.«open».inputs) }
        ensures { OnOk result (self.new
            ≡ with_edge self.old (edge_read self.old.«open» kinds is_phony)) }
    {
        self.lists.end_edge(kinds, is_phony)?;
        Ok(())
    }
}
