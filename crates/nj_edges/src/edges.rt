//! Edges, which are build statements with the files that they name.

ghost use Rattle.std.specs.Prelude.{◌≡◌, ℕ, ◌<◌, List, [], ◌∷◌, ◌++◌, Some, not, if◌then◌else◌, option_map, position, slice_get, is_some, length, bytes_eq, IfOk, IfSome, OnOk, OnErr};
ghost use Rattle.nj_edges.specs.Cited.{IsDistinct, list_any, edge_at, is_among, is_named, maker_of, AreFiles, HasFiles, row_between, has_number, is_made_by, no_files, EndWithin, with_output, with_input, with_validation, is_made, is_named_so_far, edge_read};

use crate::edge_lists::EdgeLists;
use crate::list_parts::after;
use crate::makers::{Makers, name};
use nj_names::{FileNo, Files, HashKeys};
use std::alloc::{AllocError, Global};
use std::marker::Model;

/// The number of an edge in its graph. Edges are numbered in reading order.
#[derive(Clone, Copy, Debug, PartialEq, Eq)]
pub struct EdgeNo(pub usize);

/// The kinds of inputs ("Build statements" in the Ninja manual).
#[derive(Clone, Copy, Debug, PartialEq, Eq)]
pub enum Kind {
    /// An input that `$in` names.
    Explicit,
    /// An input after `|`.
    Implicit,
    /// An input after `||`.
    OrderOnly,
}

/// Where the kinds of an edge's files end: explicit outputs come first, and then implicit outputs;
/// explicit inputs come first, then implicit inputs, and then order-only inputs.
#[derive(Clone, Copy)]
pub struct KindEnds {
    pub explicit_outputs: usize,
    pub explicit_inputs: usize,
    pub implicit_inputs: usize,
}

// A part of a list.
#[derive(Clone, Copy)]
pub(crate) struct Span {
    pub(crate) start: usize,
    pub(crate) end: usize,
}

// Where the files of an edge are.
#[derive(Clone, Copy)]
pub(crate) struct EdgeRow {
    pub(crate) outputs: Span,
    pub(crate) inputs: Span,
    pub(crate) validations: Span,
    pub(crate) kinds: KindEnds,
    pub(crate) is_phony: bool,
}

// Where the files of the edge that is being read begin.
#[derive(Clone, Copy)]
pub(crate) struct OpenStarts {
    pub(crate) outputs: usize,
    pub(crate) inputs: usize,
    pub(crate) validations: usize,
}

// The files of an edge.
#[derive(Clone, Copy)]
pub(crate) struct EdgeFiles<'a> {
    pub(crate) outputs: &'a [FileNo],
    pub(crate) inputs: &'a [FileNo],
    pub(crate) validations: &'a [FileNo],
    pub(crate) kinds: KindEnds,
    pub(crate) is_phony: bool,
}

/// The edges of a graph, and the edge that is being read.
#[derive(Drop)]
pub struct Edges {
    pub(crate) files: Files,
    pub(crate) lists: EdgeLists,
}

impl Model for Edges {
    ghost use Rattle.nj_edges.specs.Inside.EdgesHeld.{TableIsHeld, lists_of, table_of};
    ghost use Rattle.nj_edges.specs.EdgeTables.{EdgeTable};

    ghost Value = { EdgeTable };

    ghost view = { λ e. table_of e.files (lists_of e.lists) };

    ghost invariant = { λ e. TableIsHeld e.files (lists_of e.lists) };
}

impl Edges {
    /// No edges. The paths of their files are hashed with the given keys. It allocates nothing.
    pub fn new(alloc: Global, keys: HashKeys) -> Edges
        ensures { result ≡ record { files = []; edges = []; «open» = no_files } }
    {
        Edges {
            files: Files::new(alloc, keys),
            lists: EdgeLists::new(alloc),
        }
    }

    /// Appends an output to the edge that is being read. Returns `false`, and changes nothing, if
    /// the file has a maker already.
    pub fn add_output(&mut self, path: &[u8]) -> Result<bool, AllocError>
        ensures is_new { IfOk result (λ is_new. is_new ≡ not (is_made self.old path.now)) }
        ensures added { IfOk result (λ is_new.
            self.new ≡ (if is_new then with_output self.old path.now else self.old)) }
        ensures refused { OnErr result (self.new ≡ self.old) }
    {
        self.lists.outputs.reserve(1)?;
        let file = name(&mut self.files, &mut self.lists.makers, path)?;
        if self.lists.makers.maker(file).is_some() {
            return Ok(false);
        }
        self.lists.makers.set(file, self.lists.rows.count());
        self.lists.outputs.push_reserved(file);
        Ok(true)
    }

    /// Appends an input to the edge that is being read.
    pub fn add_input(&mut self, path: &[u8]) -> Result<(), AllocError>
        ensures added { OnOk result (self.new ≡ with_input self.old path.now) }
        ensures refused { OnErr result (self.new ≡ self.old) }
    {
        self.add_input_named(path)?;
        Ok(())
    }

    /// The same, and returns the number of its file.
    pub(crate) fn add_input_named(&mut self, path: &[u8]) -> Result<FileNo, AllocError>
        ensures added { OnOk result (self.new ≡ with_input self.old path.now) }
        ensures number { IfOk result (λ file. slice_get self.new.files file.0 ≡ Some path.now) }
        ensures refused { OnErr result (self.new ≡ self.old) }
    {
        self.lists.inputs.reserve(1)?;
        let file = name(&mut self.files, &mut self.lists.makers, path)?;
        self.lists.inputs.push_reserved(file);
        Ok(file)
    }

    /// Appends an input to the edge that is being read, unless that edge makes the file itself.
    pub fn add_input_of_another(&mut self, path: &[u8]) -> Result<(), AllocError>
        ensures added { OnOk result (self.new
            ≡ (if is_among self.old.«open».outputs path.now then self.old
            else with_input self.old path.now)) }
        ensures refused { OnErr result (self.new ≡ self.old) }
    {
        self.lists.inputs.reserve(1)?;
        let file = name(&mut self.files, &mut self.lists.makers, path)?;
        if is_made_by(&self.lists.makers, file, self.lists.rows.count()) {
            return Ok(());
        }
        self.lists.inputs.push_reserved(file);
        Ok(())
    }

    /// Appends an input to the edge that is being read, by the number of its file.
    pub fn add_known_input(&mut self, file: FileNo) -> Result<(), AllocError>
        requires { file.0 < length self.old.files }
        ensures added { (path : List ℕ) → slice_get self.old.files file.0 ≡ Some path
            → OnOk result (self.new ≡ with_input self.old path) }
        ensures refused { OnErr result (self.new ≡ self.old) }
    {
        self.lists.inputs.push(file)?;
        Ok(())
    }

    /// Appends an input to the edge that is being read, by the number of its file, unless that edge
    /// makes the file itself.
    pub fn add_known_input_of_another(&mut self, file: FileNo) -> Result<(), AllocError>
        requires { file.0 < length self.old.files }
        ensures added { (path : List ℕ) → slice_get self.old.files file.0 ≡ Some path
            → OnOk result (self.new ≡ (if is_among self.old.«open».outputs path then self.old
            else with_input self.old path)) }
        ensures refused { OnErr result (self.new ≡ self.old) }
    {
        let edge = self.lists.rows.count();
        if is_made_by(&self.lists.makers, file, edge) {
            return Ok(());
        }
        self.lists.inputs.push(file)?;
        Ok(())
    }

    /// Appends a validation to the edge that is being read.
    pub fn add_validation(&mut self, path: &[u8]) -> Result<(), AllocError>
        ensures added { OnOk result (self.new ≡ with_validation self.old path.now) }
        ensures refused { OnErr result (self.new ≡ self.old) }
    {
        self.lists.validations.reserve(1)?;
        let file = name(&mut self.files, &mut self.lists.makers, path)?;
        self.lists.validations.push_reserved(file);
        Ok(())
    }

    /// Returns the number of the file at the given path, which must be clean; `None` if no edge
    /// names it.
    pub fn file_named(&self, path: &[u8]) -> Option<FileNo>
        ensures index { option_map (λ file. file.0) result
            ≡ position (bytes_eq path.now) self.now.files }
        ensures known { is_some result ≡ list_any (bytes_eq path.now) self.now.files }
        ensures named { self.now.«open» ≡ no_files
            → is_some result ≡ is_named self.now.edges path.now }
    {
        self.files.number(path)
    }

    /// The files that the edges name.
    pub fn files(&self) -> &Files
        ensures files { result.now ≡ self.now.files }
        ensures each_path_once { IsDistinct bytes_eq self.now.files }
        ensures named { (path : List ℕ) → list_any (bytes_eq path) self.now.files
            ≡ is_named_so_far self.now path }
    {
        &self.files
    }

    /// How many edges were read.
    pub fn edge_count(&self) -> usize
        ensures { result ≡ length self.now.edges }
    {
        self.lists.rows.count()
    }

    /// The number of the edge that is being read, which is the number after the last edge read.
    pub fn open_edge(&self) -> EdgeNo
        ensures { result.0 ≡ length self.now.edges }
    {
        EdgeNo(self.lists.rows.count())
    }

    /// Returns the edge among those already read that makes the file at the given path, or `None`.
    pub(crate) fn maker_read(&self, path: &[u8]) -> Option<EdgeNo>
        ensures maker { option_map (λ edge. edge.0) result ≡ maker_of self.now.edges path.now }
        ensures known { IfSome result (λ edge. edge.0 < length self.now.edges) }
    {
        let file = self.files.number(path)?;
        let edge = self.lists.makers.maker(file)?;
        // the next number is that of the edge that is being read
        if edge < self.lists.rows.count() {
            return Some(EdgeNo(edge));
        }
        None
    }

    /// The files of an edge that was read.
    pub(crate) fn edge_files(&self, edge: EdgeNo) -> EdgeFiles<'_>
        requires { edge.0 < length self.now.edges }
        ensures { HasFiles self.now.files (edge_at self.now.edges edge.0) result.outputs.now
            result.inputs.now result.validations.now result.kinds result.is_phony }
    {
        self.lists.edge(edge)
    }

    /// The outputs that the edge that is being read has so far.
    pub fn open_output_files(&self) -> &[FileNo]
        ensures { AreFiles self.now.files result.now self.now.«open».outputs }
    {
        after(&self.lists.outputs, self.lists.starts.outputs)
    }

    /// The inputs that the edge that is being read has so far.
    pub fn open_input_files(&self) -> &[FileNo]
        ensures { AreFiles self.now.files result.now self.now.«open».inputs }
    {
        after(&self.lists.inputs, self.lists.starts.inputs)
    }

    /// Returns the number of the file at the given path, if it is an input so far of the edge that
    /// is being read; otherwise `None`. Takes time in proportion to the inputs of that edge.
    pub fn open_input(&self, path: &[u8]) -> Option<FileNo>
        ensures input { is_some result ≡ is_among self.now.«open».inputs path.now }
        ensures file { IfSome result (λ file. slice_get self.now.files file.0 ≡ Some path.now) }
    {
        let file = self.files.number(path)?;
        if has_file(after(&self.lists.inputs, self.lists.starts.inputs), file) {
            return Some(file);
        }
        None
    }

    /// How many outputs the edge that is being read has so far.
    pub fn open_outputs(&self) -> usize
        ensures { result ≡ length self.now.«open».outputs }
    {
        self.lists.outputs.as_slice().len() - self.lists.starts.outputs
    }

    /// How many inputs the edge that is being read has so far.
    pub fn open_inputs(&self) -> usize
        ensures { result ≡ length self.now.«open».inputs }
    {
        self.lists.inputs.as_slice().len() - self.lists.starts.inputs
    }

    /// Ends the edge that is being read, with the given ends of its kinds, and begins another.
    ///
    /// # Errors
    ///
    /// If an allocation failed; the edge is then still being read.
    pub fn end_edge(&mut self, kinds: KindEnds, is_phony: bool) -> Result<(), AllocError>
        requires { EndWithin kinds (length self.old.«open».outputs)
            (length self.old.«open».inputs) }
        ensures ended { OnOk result (self.new ≡ record {
          files = self.old.files;
          edges = self.old.edges ++ edge_read self.old.«open» kinds is_phony ∷ [];
          «open» = no_files;
        }) }
        ensures refused { OnErr result (self.new ≡ self.old) }
    {
        self.lists.end_edge(kinds, is_phony)?;
        Ok(())
    }
}

// Whether this edge makes the file.
fn is_made_by(makers: &Makers, file: FileNo, edge: usize) -> bool
    requires { file.0 < length makers.now }
    ensures { result ≡ is_made_by makers.now file.0 edge }
{
    match makers.maker(file) {
        Some(maker) => maker == edge,
        None => false,
    }
}

// Whether the file is among the given files.
fn has_file(files: &[FileNo], file: FileNo) -> bool
    ensures { result ≡ has_number file.0 files.now }
{
    'files: for other in files {
        if file.0 == other.0 {
            return true;
        }
    }
    false
}

// The row of the edge that begins and ends there.
pub(crate) fn row_between(
    starts: OpenStarts,
    ends: OpenStarts,
    kinds: KindEnds,
    is_phony: bool,
) -> EdgeRow
    ensures { result ≡ row_between starts ends kinds is_phony }
{
    EdgeRow {
        outputs: Span {
            start: starts.outputs,
            end: ends.outputs,
        },
        inputs: Span {
            start: starts.inputs,
            end: ends.inputs,
        },
        validations: Span {
            start: starts.validations,
            end: ends.validations,
        },
        kinds,
        is_phony,
    }
}
