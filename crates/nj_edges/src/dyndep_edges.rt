//! Files that are added to the edges of a graph, as dyndep files discover them.

ghost use Rattle.std.specs.Prelude.{◌≡◌, ℕ, List, ◌<◌, None, Some, not, if◌then◌else◌, option_map, length, replicate, slice_get, bytes_eq, IfOk, IfSome, OnOk, OnErr, false};
ghost use Rattle.nj_edges.specs.Cited.{IsDistinct, counted_inputs_of, edge_at, outputs_of, maker_of, no_files, AreNumbers, AreFiles, FinishesAs, none_added, join_of, with_added_output, with_added_input, with_joined, is_made_so_far, is_joined};

use crate::edges::{EdgeNo, Edges, Span};
use crate::graph::{EdgeGraph, Finished};
use crate::joined_edges::{AddedSpans, joined_edges};
use crate::list_parts::first;
use nj_names::{FileNo, Files};
use std::alloc::{AllocError, Global};
use std::marker::Model;

/// The edges of a graph, and the files that are added to them. Their lists are rebuilt only once,
/// at the end.
#[derive(Drop)]
pub struct JoiningEdges {
    // the edges of the graph, and all files that are added to them, as an edge that is being read
    edges: Edges,
    // for each edge, where its additions are among the added files
    added: Vec<Option<AddedSpans>>,
    // where the files that are to be added to the next edge begin
    open_outputs: usize,
    open_inputs: usize,
}

impl Model for JoiningEdges {
    ghost use Rattle.nj_edges.specs.Joining.{JoinTable};
    ghost use Rattle.nj_edges.specs.Inside.JoiningHeld.{JoinIsHeld, join_held};

    ghost Value = { JoinTable };

    ghost view = { λ j. join_held j.edges j.added.items j.open_outputs j.open_inputs };

    ghost invariant = { λ j. JoinIsHeld j.edges j.added.items j.open_outputs j.open_inputs };
}

impl EdgeGraph {
    /// The edges of the graph, to which files can be added.
    pub fn join(self, alloc: Global) -> Result<JoiningEdges, AllocError>
        ensures { IfOk result (λ joining. joining ≡ join_of self) }
    {
        let added = nothing_added(alloc, self.edge_count())?;
        Ok(JoiningEdges {
            edges: self.into_edges(),
            added,
            open_outputs: 0,
            open_inputs: 0,
        })
    }

    // The edges, after which another can be read.
    fn into_edges(self) -> Edges
        ensures { result ≡ record { files = self.files; edges = self.edges; «open» = no_files } }
    {
        Edges {
            files: self.files,
            lists: self.lists,
        }
    }
}

impl JoiningEdges {
    /// The files of the graph, and the files that were added.
    pub fn files(&self) -> &Files
        ensures files { result.now ≡ self.now.files }
        ensures each_path_once { IsDistinct bytes_eq self.now.files }
    {
        self.edges.files()
    }

    /// Returns the edge that makes the file at the given path in the graph without the additions,
    /// or `None`.
    pub fn stated_maker(&self, path: &[u8]) -> Option<EdgeNo>
        ensures maker { option_map (λ edge. edge.0) result ≡ maker_of self.now.stated path.now }
        ensures known { IfSome result (λ edge. edge.0 < length self.now.stated) }
    {
        self.edges.maker_read(path)
    }

    /// The outputs that an edge has in the graph, explicit outputs first.
    pub fn stated_outputs(&self, edge: EdgeNo) -> &[FileNo]
        requires { edge.0 < length self.now.stated }
        ensures { AreFiles self.now.files result.now (outputs_of (edge_at self.now.stated edge.0)) }
    {
        self.edges.edge_files(edge).outputs
    }

    /// The explicit and then the implicit inputs that an edge has in the graph.
    pub(crate) fn stated_counted_inputs(&self, edge: EdgeNo) -> &[FileNo]
        requires { edge.0 < length self.now.stated }
        ensures files { AreFiles self.now.files result.now
            (counted_inputs_of (edge_at self.now.stated edge.0)) }
        ensures known { AreNumbers (length self.now.files) result.now }
    {
        let files = self.edges.edge_files(edge);
        first(files.inputs, files.kinds.implicit_inputs)
    }

    /// The number of edges.
    pub(crate) fn edge_count(&self) -> usize
        ensures { result ≡ length self.now.stated }
    {
        self.edges.edge_count()
    }

    /// Whether the edge was joined, even if nothing was added to it.
    pub fn is_joined(&self, edge: EdgeNo) -> bool
        requires { edge.0 < length self.now.stated }
        ensures { result ≡ is_joined self.now edge.0 }
    {
        self.added[edge.0].is_some()
    }

    /// Collects an output for the next edge. Returns `false`, and changes nothing, if the file has
    /// a maker already, or was collected as an output.
    pub fn add_output(&mut self, path: &[u8]) -> Result<bool, AllocError>
        ensures is_new { IfOk result (λ is_new. is_new ≡ not (is_made_so_far self.old path.now)) }
        ensures added { IfOk result (λ is_new.
            self.new ≡ (if is_new then with_added_output self.old path.now else self.old)) }
        ensures refused { OnErr result (self.new ≡ self.old) }
    {
        self.edges.add_output(path)
    }

    /// Collects an input for the next edge, and returns the number of its file.
    pub fn add_input(&mut self, path: &[u8]) -> Result<FileNo, AllocError>
        ensures added { OnOk result (self.new ≡ with_added_input self.old path.now) }
        ensures number { IfOk result (λ file. slice_get self.new.files file.0 ≡ Some path.now) }
        ensures refused { OnErr result (self.new ≡ self.old) }
    {
        self.edges.add_input_named(path)
    }

    /// Collects an input for the next edge, by the number of its file.
    pub(crate) fn add_known_input(&mut self, file: FileNo) -> Result<(), AllocError>
        requires { file.0 < length self.old.files }
        ensures added { (path : List ℕ) → slice_get self.old.files file.0 ≡ Some path
            → OnOk result (self.new ≡ with_added_input self.old path) }
        ensures refused { OnErr result (self.new ≡ self.old) }
    {
        self.edges.add_known_input(file)
    }

    /// Adds the collected files to an edge that was not joined before. Allocates nothing.
    pub fn end_join(&mut self, edge: EdgeNo)
        requires known { edge.0 < length self.old.stated }
        requires first { is_joined self.old edge.0 ≡ false }
        ensures { self.new ≡ with_joined self.old edge.0 }
    {
        let outputs = Span {
            start: self.open_outputs,
            end: self.edges.open_outputs(),
        };
        let inputs = Span {
            start: self.open_inputs,
            end: self.edges.open_inputs(),
        };
        self.added[edge.0] = Some(AddedSpans { outputs, inputs });
        self.open_outputs = outputs.end;
        self.open_inputs = inputs.end;
    }

    /// The graph of all edges with their additions, or the lowest-numbered edge on a dependency
    /// cycle. Takes time in proportion to the edges and their files.
    pub fn finish(self, alloc: Global) -> Result<Finished, AllocError>
        requires { self.«open» ≡ none_added }
        ensures { IfOk result (λ finished. FinishesAs self.files self.joined finished) }
    {
        let JoiningEdges { edges, added, .. } = self;
        let joined = joined_edges(alloc, edges, &added)?;
        joined.finish(alloc)
    }
}

// `count` edges without additions.
fn nothing_added(alloc: Global, count: usize) -> Result<Vec<Option<AddedSpans>>, AllocError>
    ensures { IfOk result (λ added. added.items ≡ replicate count None) }
{
    vec![in alloc; None; count]
}
