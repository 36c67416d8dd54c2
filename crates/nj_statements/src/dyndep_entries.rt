//! The additions of dyndep files to the edges of a run.

ghost use Rattle.std.specs.Prelude.{◌≡◌, ◌<◌, ◌==◌, List, [], Some, None, option_map, option_and_then, unwrap_or, length, slice_get, replicate, slice_index_or, false, bytes_eq, IfOk, IfSome, OnOk, OnErr};
ghost use Rattle.nj_statements.specs.Cited.{first_given, option_or, AllByRecursion, IsDistinct, word_model, words_model, entry_model, IsPrefix, ReadStatement, edge_at, first_output, first_edge, maker_of, path_at, join_of, none_added, IsFault, fault_at, path_given, paths_given, empty_path, outputs_fault, ComesTo, IsBuiltOf, detail_at, no_values, entry_fault, with_entry, lacking_fault, Checks, HasJoined, JoinsEntry, JoinsNothing, KeepsEdges, has_pending, still_pending, unless_joined, IsMeant, fault_of_pending, bind_all, first_edges, count_bound, AreByNumber, edges_in, is_joined, is_bound_to, if_bound, maker_fault, edge_bound, with_added_outputs, with_added_inputs};

use crate::built::Built;
use crate::records::{DyndepEdge, EdgeRecords, place_of};
use crate::scratch::Capacity;
use nj_edges::{EdgeGraph, EdgeNo, FileNo, JoiningEdges};
use nj_faults::{Cause, GraphFault, Name, PlaceRef};
use nj_manifest::{Entry, Word};
use nj_text::{Spot, TextFault};
use std::alloc::{AllocError, Global};
use std::marker::Model;
use std::mem::drop;

/// A dyndep file ("Dynamic Dependencies" in the Ninja manual).
#[derive(Clone, Copy)]
pub struct DyndepFile<'a> {
    pub number: FileNo,
    /// Its clean path.
    pub path: &'a [u8],
    /// The first edge that is bound to it.
    pub edge: EdgeNo,
}

/// The edges of a run, and the additions of dyndep files to them.
#[derive(Drop)]
pub struct Joining {
    edges: JoiningEdges,
    records: EdgeRecords,
    // the dyndep files, each with its first edge
    dyndep_files: Vec<DyndepEdge>,
    // the edges that are bound to dyndep files, each at the index of its number
    bound: Vec<Option<DyndepEdge>>,
    // for each file, how many edges are pending on it
    unjoined: Vec<usize>,
    capacity: Capacity,
}

impl Model for Joining {
    ghost use Rattle.nj_statements.specs.JoiningHeld.{JoiningModel};

    ghost Value = { JoiningModel };

    ghost use Rattle.nj_statements.specs.Inside.JoiningFields.{JoiningIsHeld, fields_of, joining_of};

    ghost view = { λ j. joining_of (fields_of j) };

    ghost invariant = { λ j. JoiningIsHeld (fields_of j) };
}

impl Built {
    /// Whether edges are pending on dyndep files.
    pub fn has_pending(&self) -> bool
        ensures { result ≡ has_pending self.now.pending }
    {
        !self.records.dyndeps.as_slice().is_empty()
    }

    /// The edges, to which dyndep files can be joined.
    pub fn join(self, alloc: Global) -> Result<Joining, AllocError>
        ensures { (stated : List ReadStatement) → IsBuiltOf self stated
            → IfOk result (λ joining. HasJoined joining stated stated) }
    {
        let Built { graph, records } = self;
        match start_of(alloc, graph, &records.dyndeps) {
            Ok(
                Start {
                    edges,
                    dyndep_files,
                    bound,
                    unjoined,
                },
            ) => Ok(Joining {
                edges,
                records,
                dyndep_files,
                bound,
                unjoined,
                capacity: Capacity::new(alloc),
            }),
            Err(error) => {
                drop(records);
                Err(error)
            }
        }
    }
}

// The edges before anything is joined to them, and the dyndep files that they wait for.
#[derive(Drop)]
struct Start {
    edges: JoiningEdges,
    dyndep_files: Vec<DyndepEdge>,
    bound: Vec<Option<DyndepEdge>>,
    unjoined: Vec<usize>,
}

// The edges of a graph, and the dyndep files of some of them. The function owns only the graph, so
// that each of its exits drops little.
fn start_of(alloc: Global, graph: EdgeGraph, dyndeps: &[DyndepEdge]) -> Result<Start, AllocError>
    requires edges { AllByRecursion (λ d. d.edge.0 < length graph.edges) dyndeps.now }
    requires files { AllByRecursion (λ d. d.file.0 < length graph.files) dyndeps.now }
    ensures edges { IfOk result (λ start. start.edges ≡ join_of graph) }
    ensures once { IfOk result (λ start. IsDistinct bytes_eq graph.files) }
    ensures bound { IfOk result (λ start. start.bound.items
        ≡ bind_all dyndeps.now (replicate (length graph.edges) None)) }
    ensures dyndep_files { IfOk result (λ start.
        start.dyndep_files.items ≡ first_edges dyndeps.now) }
    ensures count { IfOk result (λ start. length start.unjoined.items ≡ length graph.files) }
    ensures unjoined { IfOk result (λ start. (file : FileNo)
        → slice_index_or start.unjoined.items file.0 0 ≡ count_bound file dyndeps.now) }
{
    let bound = match bound_edges(alloc, graph.edge_count(), dyndeps) {
        Ok(bound) => bound,
        Err(error) => {
            drop(graph);
            return Err(error);
        }
    };
    let Awaited {
        dyndep_files,
        unjoined,
    } = match awaited_files(alloc, graph.files().count(), dyndeps) {
        Ok(awaited) => awaited,
        Err(error) => {
            drop(graph);
            return Err(error);
        }
    };
    let edges = graph.join(alloc)?;
    Ok(Start {
        edges,
        dyndep_files,
        bound,
        unjoined,
    })
}

// The edges that are bound to dyndep files, each at the index of its number.
fn bound_edges(
    alloc: Global,
    edge_count: usize,
    dyndeps: &[DyndepEdge],
) -> Result<Vec<Option<DyndepEdge>>, AllocError>
    requires { AllByRecursion (λ d. d.edge.0 < edge_count) dyndeps.now }
    ensures { IfOk result (λ bound. bound.items
        ≡ bind_all dyndeps.now (replicate edge_count None)) }
{
    let mut bound = vec![in alloc; None; edge_count]?;
    'dyndeps: for dyndep in dyndeps {
        bound[dyndep.edge.0] = Some(*dyndep);
    }
    Ok(bound)
}

// The dyndep files, each with its first edge; and for each file, how many edges are bound to it.
#[derive(Drop)]
struct Awaited {
    dyndep_files: Vec<DyndepEdge>,
    unjoined: Vec<usize>,
}

// The dyndep files of edges, in a graph with the given number of files.
fn awaited_files(
    alloc: Global,
    file_count: usize,
    dyndeps: &[DyndepEdge],
) -> Result<Awaited, AllocError>
    requires { AllByRecursion (λ d. d.file.0 < file_count) dyndeps.now }
    ensures dyndep_files { IfOk result (λ a. a.dyndep_files.items ≡ first_edges dyndeps.now) }
    ensures count { IfOk result (λ a. length a.unjoined.items ≡ file_count) }
    ensures unjoined { IfOk result (λ a. (file : FileNo)
        → slice_index_or a.unjoined.items file.0 0 ≡ count_bound file dyndeps.now) }
{
    let mut dyndep_files = Vec::new(alloc);
    let mut unjoined = vec![in alloc; 0; file_count]?;
    'dyndeps: for dyndep in dyndeps {
        let file = dyndep.file.0;
        if unjoined[file] == 0 {
            dyndep_files.push(*dyndep)?;
        }
        unjoined[file] += 1;
    }
    Ok(Awaited {
        dyndep_files,
        unjoined,
    })
}

impl Joining {
    /// The number of dyndep files.
    pub fn file_count(&self) -> usize
        ensures { result ≡ length self.now.dyndep_files }
    {
        self.dyndep_files.as_slice().len()
    }

    /// The dyndep file at the given index; the files are in the order of their first edges.
    pub fn file(&self, index: usize) -> DyndepFile<'_>
        requires { index < length self.now.dyndep_files }
        ensures is { slice_get self.now.dyndep_files index
            ≡ Some (record { edge = result.edge.0; file = result.path.now }) }
        ensures number { slice_get self.now.table.files result.number.0 ≡ Some result.path.now }
        ensures edge { result.edge.0 < length self.now.details }
    {
        let dyndep = self.dyndep_files[index];
        DyndepFile {
            number: dyndep.file,
            path: self.edges.files().path(dyndep.file),
            edge: dyndep.edge,
        }
    }

    /// The place of the build statement of an edge.
    pub fn edge_place(&self, edge: EdgeNo) -> PlaceRef<'_>
        requires { edge.0 < length self.now.details }
        ensures file { result.file.now ≡ (detail_at self.now.details edge.0).file }
        ensures spot { result.spot ≡ (detail_at self.now.details edge.0).spot }
    {
        place_of(&self.records.names, self.records.details[edge.0])
    }

    /// Joins an entry of the given dyndep file, which was opened under the given name.
    ///
    /// # Errors
    ///
    /// The first fault of the entry: an empty path, or a build statement that is not bound to the
    /// file or that an earlier entry denotes; then, from left to right, a discovered output with an
    /// empty path or with a maker already; and then an empty path among its inputs. After a fault
    /// the edges are unchanged, but nothing more may be joined.
    pub fn join_entry(
        &mut self,
        alloc: Global,
        file: FileNo,
        name: &str,
        entry: &Entry<'_>,
    ) -> Result<(), GraphFault>
        requires { slice_get self.old.table.files file.0 ≡ Some name.now }
        ensures joins { (stated joined : List ReadStatement) → HasJoined self.old stated joined
            → JoinsEntry self.new (entry_fault name.now stated joined (entry_model entry.now))
            stated (with_entry stated joined (entry_model entry.now)) result }
        ensures refused { OnErr result (JoinsNothing self.old self.new) }
        ensures files { IsPrefix self.old.table.files self.new.table.files }
        ensures dyndep_files { self.new.dyndep_files ≡ self.old.dyndep_files }
        ensures details { self.new.details ≡ self.old.details }
    {
        let line = DyndepLine { alloc, file, name };
        let edge = line.edge_meant(&mut self.capacity, &self.edges, &self.bound, &entry.out)?;
        line.add_outputs(&mut self.capacity, &mut self.edges, entry.outs.as_slice())?;
        line.add_inputs(&mut self.capacity, &mut self.edges, entry.ins.as_slice())?;
        self.edges.end_join(edge);
        self.records.note_restat(edge, entry.restat);
        self.unjoined[file.0] -= 1;
        Ok(())
    }

    /// Checks after the last entry of the given dyndep file that no edge is pending on the file.
    ///
    /// # Errors
    ///
    /// The lowest-numbered edge that is pending on the file, at its build statement; or an
    /// allocation failed.
    pub fn end_file(&self, alloc: Global, file: FileNo) -> Result<(), GraphFault>
        requires { file.0 < length self.now.table.files }
        ensures { (stated joined : List ReadStatement) → HasJoined self.now stated joined
            → Checks (lacking_fault (path_at self.now.table.files file) joined) result }
    {
        if is_zero(&self.unjoined, file.0) {
            return Ok(());
        }
        match pending_edge(&self.edges, &self.bound, file) {
            Some(edge) => Err(self.no_statement(alloc, file, edge)?),
            None => Ok(()),
        }
    }

    // The fault of an edge that its dyndep file does not mention.
    fn no_statement(
        &self,
        alloc: Global,
        file: FileNo,
        edge: EdgeNo,
    ) -> Result<GraphFault, AllocError>
        requires file { file.0 < length self.now.table.files }
        requires edge { edge.0 < length self.now.table.stated }
        ensures { IfOk result (λ fault. IsFault (Some (fault_of_pending
            (path_at self.now.table.files file) (detail_at self.now.details edge.0)
            (edge_at self.now.table.stated edge.0))) fault) }
    {
        let output = Name::new(alloc, first_output(&self.edges, edge))?;
        let path = Name::new(alloc, self.edges.files().path(file))?;
        let place = self.edge_place(edge);
        Ok(place.fault(alloc, Cause::DyndepNoStatement(output, path)))
    }

    /// Returns the edges of the run, with the dyndep files that were joined to them; other edges
    /// stay pending. Takes time in proportion to the edges and their files.
    ///
    /// # Errors
    ///
    /// A dependency cycle, as before dyndep files were joined.
    pub fn finish(self, alloc: Global) -> Result<Built, GraphFault>
        requires { self.table.«open» ≡ none_added }
        ensures { (stated joined : List ReadStatement) → HasJoined self stated joined
            → ComesTo joined result }
    {
        let dyndeps = match unjoined_edges(alloc, &self.edges, &self.bound) {
            Ok(dyndeps) => dyndeps,
            Err(error) => {
                drop(self);
                return Err(GraphFault::from(error));
            }
        };
        let Joining {
            edges,
            mut records,
            ..
        } = self;
        records.dyndeps = dyndeps;
        match edges.finish(alloc) {
            Ok(finished) => records.finish(alloc, finished),
            Err(error) => {
                drop(records);
                Err(GraphFault::from(error))
            }
        }
    }
}

// The edges that are still pending, by number.
fn unjoined_edges(
    alloc: Global,
    edges: &JoiningEdges,
    bound: &[Option<DyndepEdge>],
) -> Result<Vec<DyndepEdge>, AllocError>
    requires count { length bound.now ≡ length edges.now.stated }
    requires by_number { AreByNumber bound.now }
    ensures { IfOk result (λ unjoined. unjoined.items
        ≡ edges_in (still_pending bound.now edges.now.was_joined)) }
{
    let mut unjoined = Vec::new(alloc);
    'edges: for edge in bound {
        if let Some(dyndep) = unless_joined(edges, *edge) {
            unjoined.push(dyndep)?;
        }
    }
    Ok(unjoined)
}

// An edge that is bound to a dyndep file, unless that file was joined to it.
fn unless_joined(edges: &JoiningEdges, bound: Option<DyndepEdge>) -> Option<DyndepEdge>
    requires { IfSome bound (λ d. d.edge.0 < length edges.now.stated) }
    ensures { result
        ≡ option_and_then (λ d. unless_joined bound (is_joined edges.now d.edge.0)) bound }
{
    let dyndep = bound?;
    if edges.is_joined(dyndep.edge) {
        None
    } else {
        bound
    }
}

// The lowest-numbered edge that is pending on a dyndep file.
fn pending_edge(edges: &JoiningEdges, bound: &[Option<DyndepEdge>], file: FileNo) -> Option<EdgeNo>
    requires count { length bound.now ≡ length edges.now.stated }
    requires by_number { AreByNumber bound.now }
    ensures { option_map (λ edge. edge.0) result ≡ first_edge (λ w. is_bound_to w file)
        (still_pending bound.now edges.now.was_joined) }
{
    'edges: for edge in bound {
        if let Some(dyndep) = unless_joined(edges, *edge) {
            if dyndep.file.0 == file.0 {
                return Some(dyndep.edge);
            }
        }
    }
    None
}

// The path of the first output of an edge in the graph; empty if the edge has no output.
fn first_output(edges: &JoiningEdges, edge: EdgeNo) -> &[u8]
    requires { edge.0 < length edges.now.stated }
    ensures { result.now
        ≡ unwrap_or (first_output (edge_at edges.now.stated edge.0)) [] }
{
    match edges.stated_outputs(edge).first() {
        Some(output) => edges.files().path(*output),
        None => b"",
    }
}

// A line of the dyndep file with the given number, which was opened under the given name.
#[derive(Clone, Copy)]
struct DyndepLine<'a> {
    alloc: Global,
    file: FileNo,
    name: &'a str,
}

impl DyndepLine<'_> {
    // The path that a word expands to.
    fn path<'w>(
        self,
        capacity: &'w mut Capacity,
        word: &'w Word<'_>,
    ) -> Result<&'w [u8], GraphFault>
        ensures path { IfOk result (λ path. path.now ≡ path_given no_values (word_model word.now)) }
        ensures fault { Checks (empty_path self.entry.name.now no_values (word_model word.now))
            result }
    {
        match capacity.plain_path(word) {
            Ok(path) => Ok(path),
            Err(TextFault::EmptyPath) => Err(self.fault(word.spot, Cause::EmptyPath)),
            Err(TextFault::OutOfMemory) => Err(GraphFault::out_of_memory()),
        }
    }

    // The edge that makes a file in the graph, if the edge is bound to the dyndep file.
    fn bound_maker(
        self,
        edges: &JoiningEdges,
        bound: &[Option<DyndepEdge>],
        path: &[u8],
    ) -> Option<EdgeNo>
        requires { length bound.now ≡ length edges.now.stated }
        ensures maker { option_map (λ edge. edge.0) result
            ≡ if_bound bound.now self.entry.file (maker_of edges.now.stated path.now) }
        ensures known { IfSome result (λ edge. edge.0 < length edges.now.stated) }
    {
        let edge = edges.stated_maker(path)?;
        if is_bound_to(bound[edge.0], self.file) {
            Some(edge)
        } else {
            None
        }
    }

    // The edge that an entry denotes by its output.
    fn edge_meant(
        self,
        capacity: &mut Capacity,
        edges: &JoiningEdges,
        bound: &[Option<DyndepEdge>],
        word: &Word<'_>,
    ) -> Result<EdgeNo, GraphFault>
        requires { length bound.now ≡ length edges.now.stated }
        ensures fault { Checks (option_or
            (empty_path self.entry.name.now no_values (word_model word.now))
            (maker_fault self.entry.name.now (word_model word.now) edges.now
            (edge_bound edges.now bound.now self.entry.file (word_model word.now)))) result }
        ensures edge { IfOk result (λ edge. IsMeant edges.now bound.now self.entry.file
            (word_model word.now) edge.0) }
    {
        let path = self.path(capacity, word)?;
        let edge = match self.bound_maker(edges, bound, path) {
            Some(edge) => edge,
            None => {
                let cause = Cause::DyndepExtra(Name::new(self.alloc, path)?);
                return Err(self.fault(word.spot, cause));
            }
        };
        if edges.is_joined(edge) {
            let cause = Cause::DyndepTwice(Name::new(self.alloc, path)?);
            return Err(self.fault(word.spot, cause));
        }
        Ok(edge)
    }

    // Collects the outputs that an entry discovers.
    fn add_outputs(
        self,
        capacity: &mut Capacity,
        edges: &mut JoiningEdges,
        words: &[Word<'_>],
    ) -> Result<(), GraphFault>
        ensures fault { Checks (outputs_fault self.entry.name.now no_values edges.old.joined
            edges.old.«open».outputs (words_model words.now)) result }
        ensures added { OnOk result (edges.new
            ≡ with_added_outputs edges.old (paths_given no_values (words_model words.now))) }
        ensures keeps { KeepsEdges edges.old edges.new }
    {
        'words: for word in words {
            let path = self.path(capacity, word)?;
            if !edges.add_output(path)? {
                let cause = Cause::TwoMakers(Name::new(self.alloc, path)?);
                return Err(self.fault(word.spot, cause));
            }
        }
        Ok(())
    }

    // Collects the inputs that an entry discovers.
    fn add_inputs(
        self,
        capacity: &mut Capacity,
        edges: &mut JoiningEdges,
        words: &[Word<'_>],
    ) -> Result<(), GraphFault>
        ensures fault { Checks (first_given (empty_path self.entry.name.now no_values)
            (words_model words.now)) result }
        ensures added { OnOk result (edges.new
            ≡ with_added_inputs edges.old (paths_given no_values (words_model words.now))) }
        ensures keeps { KeepsEdges edges.old edges.new }
    {
        'words: for word in words {
            let path = self.path(capacity, word)?;
            edges.add_input(path)?;
        }
        Ok(())
    }

    // The fault with the given cause at a place in the file, or out of memory.
    fn fault(self, spot: Spot, cause: Cause) -> GraphFault
        ensures { IsFault (Some (fault_at self.entry.name.now spot cause)) result }
    {
        let file = self.name.as_bytes();
        PlaceRef { file, spot }.fault(self.alloc, cause)
    }
}

// Whether an edge is bound to the given dyndep file.
fn is_bound_to(bound: Option<DyndepEdge>, file: FileNo) -> bool
    ensures { result ≡ is_bound_to bound file }
{
    match bound {
        Some(dyndep) => dyndep.file.0 == file.0,
        None => false,
    }
}

// Whether the count at the given index is 0. An index past the end has the count 0.
fn is_zero(counts: &[usize], index: usize) -> bool
    ensures { result ≡ (slice_index_or counts.now index 0 == 0) }
{
    match counts.get(index) {
        Some(count) => *count == 0,
        None => true,
    }
}
