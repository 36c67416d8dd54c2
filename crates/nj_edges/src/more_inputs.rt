//! Inputs that are added to the edges of a graph, as deps logs name them.

ghost use Rattle.std.specs.Prelude.{◌≡◌, ℕ, List, ◌<◌, None, Some, length, replicate, slice_get, IfOk, OnOk, OnErr};
ghost use Rattle.nj_edges.specs.Cited.{FinishesAs, AreNumbers, MarksFiles, MarksInputs, is_marked, join_of, none_added, at_next_edge, with_new_input};

use crate::dyndep_edges::JoiningEdges;
use crate::edges::EdgeNo;
use crate::graph::{EdgeGraph, Finished};
use nj_names::FileNo;
use std::alloc::{AllocError, Global};
use std::marker::Model;

/// The edges of a graph, to which inputs are added: to the first edge, and after each
/// [`JoiningInputs::end_edge`] to the next edge. They become implicit inputs. A file that an edge
/// has as an explicit or implicit input is not added to it; an order-only input that is added
/// becomes implicit as well.
#[derive(Drop)]
pub struct JoiningInputs {
    edges: JoiningEdges,
    // the number of the edge to which inputs are added
    edge: usize,
    // for each file, the last edge up to `edge` that has it as an explicit or implicit input
    marks: Vec<Option<usize>>,
}

impl Model for JoiningInputs {
    ghost use Rattle.nj_edges.specs.MoreInputs.{InputTable};
    ghost use Rattle.nj_edges.specs.Inside.MarksHeld.{AreMarked};

    ghost Value = { InputTable };

    ghost view = { λ j. record { table = j.edges; edge = j.edge } };

    ghost invariant = { λ j. AreMarked (record { table = j.edges; edge = j.edge }) j.marks.items };
}

impl EdgeGraph {
    /// The edges of the graph, to which inputs can be added.
    pub fn join_inputs(self, alloc: Global) -> Result<JoiningInputs, AllocError>
        ensures { IfOk result (λ joining. joining ≡ record { table = join_of self; edge = 0 }) }
    {
        let edges = self.join(alloc)?;
        let mut marks = no_marks(alloc, edges.files().count())?;
        mark_inputs(&mut marks, &edges, 0);
        Ok(JoiningInputs {
            edges,
            edge: 0,
            marks,
        })
    }
}

impl JoiningInputs {
    /// The number of edges.
    pub fn edge_count(&self) -> usize
        ensures { result ≡ length self.now.table.stated }
    {
        self.edges.edge_count()
    }

    /// Adds an implicit input to the edge, unless the file is already an explicit or implicit
    /// input, and returns the number of the file.
    pub fn add_input(&mut self, path: &[u8]) -> Result<FileNo, AllocError>
        ensures added { OnOk result (self.new ≡ with_new_input self.old path.now) }
        ensures number { IfOk result (λ file.
            slice_get self.new.table.files file.0 ≡ Some path.now) }
        ensures refused { OnErr result (self.new ≡ self.old) }
    {
        if let Some(file) = self.edges.files().number(path) {
            self.add_known_input(file)?;
            return Ok(file);
        }
        self.marks.reserve(1)?;
        let file = self.edges.add_input(path)?;
        self.marks.push_reserved(Some(self.edge));
        Ok(file)
    }

    /// Adds the file with the given number to the edge as an implicit input, unless it is already
    /// an explicit or implicit input.
    pub fn add_known_input(&mut self, file: FileNo) -> Result<(), AllocError>
        requires { file.0 < length self.old.table.files }
        ensures added { (path : List ℕ) → slice_get self.old.table.files file.0 ≡ Some path
            → OnOk result (self.new ≡ with_new_input self.old path) }
        ensures refused { OnErr result (self.new ≡ self.old) }
    {
        if is_marked(&self.marks, file, self.edge) {
            return Ok(());
        }
        self.edges.add_known_input(file)?;
        self.marks[file.0] = Some(self.edge);
        Ok(())
    }

    /// Ends the edge; further inputs are added to the edge after it. Allocates nothing.
    pub fn end_edge(&mut self)
        requires { self.old.edge < length self.old.table.stated }
        ensures { self.new ≡ at_next_edge self.old }
    {
        let edge_count = self.edges.edge_count();
        prove!(self.edge < edge_count);
        self.edges.end_join(EdgeNo(self.edge));
        self.edge += 1;
        mark_inputs(&mut self.marks, &self.edges, self.edge);
    }

    /// The graph of all edges with their additions, or the lowest-numbered edge on a dependency
    /// cycle. Takes time in proportion to the edges and their files.
    pub fn finish(self, alloc: Global) -> Result<Finished, AllocError>
        requires { self.table.«open» ≡ none_added }
        ensures { IfOk result (λ finished.
            FinishesAs self.table.files self.table.joined finished) }
    {
        self.edges.finish(alloc)
    }
}

// `count` files without marks.
fn no_marks(alloc: Global, count: usize) -> Result<Vec<Option<usize>>, AllocError>
    ensures { IfOk result (λ marks. marks.items ≡ replicate count None) }
{
    vec![in alloc; None; count]
}

// Marks the explicit and the implicit inputs that the edge with the given number has in the graph,
// if any.
fn mark_inputs(marks: &mut Vec<Option<usize>>, edges: &JoiningEdges, edge: usize)
    requires { length marks.old.items ≡ length edges.now.files }
    ensures { MarksInputs edges.now edge marks.old.items marks.new.items }
{
    if edge < edges.edge_count() {
        mark_files(marks, edges.stated_counted_inputs(EdgeNo(edge)), edge);
    }
}

// Marks the given files with an edge.
fn mark_files(marks: &mut [Option<usize>], files: &[FileNo], edge: usize)
    requires { AreNumbers (length marks.old) files.now }
    ensures { MarksFiles files.now edge marks.old marks.new }
{
    'files: for file in files {
        marks[file.0] = Some(edge);
    }
}

// Whether a file is marked with this edge.
fn is_marked(marks: &[Option<usize>], file: FileNo, edge: usize) -> bool
    requires { file.0 < length marks.now }
    ensures { result ≡ is_marked marks.now file.0 edge }
{
    match marks[file.0] {
        Some(marked) => marked == edge,
        None => false,
    }
}
