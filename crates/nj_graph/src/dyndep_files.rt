//! Joins dyndep files to the graph of a run.

ghost use Rattle.std.specs.Prelude.{◌≡◌, ◌<◌, List, Some, length, slice_get, IfOk, OnOk};
ghost use Rattle.std.specs.List.{AllByRecursion};
ghost use Rattle.nj_scope.specs.Readings.{EachPathOnce, IsPrefix};
ghost use Rattle.nj_scope.specs.ReadingList.{ReadStatement};
ghost use Rattle.nj_statements.specs.Built.{IsBuiltOf};
ghost use Rattle.nj_statements.specs.EdgeList.{Pending};
ghost use Rattle.nj_statements.specs.JoiningHeld.{HasJoined};
ghost use Rattle.nj_graph.specs.Graph.{IsGraphOf};
ghost use Rattle.nj_graph.specs.Joining.{ArePresent, Joins, JoinsPresent};
ghost use Rattle.nj_graph.specs.Inside.JoiningContracts.{NamesFile, JoinsText, JoinsFile, JoinsFiles, JoinsBuilt, JoinsChosen, NextEntryIs, TellsPresence, chosen_files};

use crate::file_statements::text_at;
use crate::graph::Graph;
use crate::loading::Loaded;
use nj_discovered::{FileTimes, TimeFound, time_of};
use nj_edges::FileNo;
use nj_faults::{Cause, GraphFault, PlaceRef};
use nj_manifest::{DyndepParser, Entry};
use nj_scope::{FileSource, FileTable};
use nj_statements::{Built, DyndepFile, Joining};
use std::alloc::{AllocError, Global};
use std::mem::drop;

/// Joins the dyndep files to which edges are bound ("Dynamic Dependencies" in the Ninja manual):
/// the outputs and inputs that they discover become implicit. A graph to which they are already
/// joined stays the same. Files are joined in the order of the first edges that are bound to them,
/// and read under their clean paths, unless they were read before. Takes time in proportion to the
/// graph and the dyndep files.
///
/// # Errors
///
/// The first fault, with its place: of a dyndep file, of a dyndep file that cannot be found or
/// read, or of an edge that its dyndep file does not mention; after all files, a dependency cycle;
/// or an allocation failed.
pub fn join_dyndeps<S: FileSource>(
    alloc: Global,
    loaded: Loaded,
    source: &mut S,
) -> Result<Loaded, GraphFault>
    ensures joins { (stated : List ReadStatement) → IsGraphOf loaded.graph stated
        → Joins stated loaded.files (S.state source.old) (S.state source.new) result }
    ensures origins { IfOk result (λ joined. joined.graph.origins ≡ loaded.graph.origins) }
{
    join_chosen(alloc, loaded, source, &AllFiles)
}

/// Joins the dyndep files that exist, as [`join_dyndeps`] does. The edges that are bound to others
/// stay pending on them (`Graph::pending_count`). The time of each file is asked once, before any
/// file is read; a file whose path is not UTF-8, or whose time cannot be read, is treated as
/// missing.
///
/// # Errors
///
/// The errors of [`join_dyndeps`]: a file that existed may be gone once it is read.
pub fn join_present_dyndeps<S: FileSource, T: FileTimes>(
    alloc: Global,
    loaded: Loaded,
    source: &mut S,
    times: &T,
) -> Result<Loaded, GraphFault>
    ensures joins { (stated : List ReadStatement) → IsGraphOf loaded.graph stated
        → JoinsPresent (T.times times.now) stated loaded.files
        (S.state source.old) (S.state source.new) result }
    ensures origins { IfOk result (λ joined. joined.graph.origins ≡ loaded.graph.origins) }
{
    join_chosen(alloc, loaded, source, &PresentFiles { times })
}

// Which of the dyndep files are joined.
trait DyndepChoice {
    ghost use Rattle.std.specs.Prelude.{◌<◌, List, length, IfOk};
    ghost use Rattle.std.specs.List.{AllByRecursion};
    ghost use Rattle.nj_statements.specs.EdgeList.{Pending};
    ghost use Rattle.nj_graph.specs.Inside.JoiningContracts.{chosen_files};

    // The chosen files, among the given files.
    ghost chooses: { Self → (files chosen : List Pending) → Type 0 };

    // The indices of the files that are joined.
    fn choose(&self, alloc: Global, joining: &Joining) -> Result<Vec<usize>, AllocError>
        ensures chosen { IfOk result (λ indices. chooses self.now joining.now.dyndep_files
            (chosen_files joining.now.dyndep_files indices.items)) }
        ensures known { IfOk result (λ indices.
            AllByRecursion (λ index. index < length joining.now.dyndep_files) indices.items) };
}

// All dyndep files.
#[derive(Clone, Copy)]
struct AllFiles;

impl DyndepChoice for AllFiles {
    ghost use Rattle.std.specs.Prelude.{◌≡◌};

    ghost chooses = { λ choice files chosen. chosen ≡ files };

    fn choose(&self, alloc: Global, joining: &Joining) -> Result<Vec<usize>, AllocError> {
        all_files(alloc, joining)
    }
}

// The dyndep files that exist.
#[derive(Drop)]
struct PresentFiles<'a, T: FileTimes> {
    times: &'a T,
}

impl<'a, T: FileTimes> DyndepChoice for PresentFiles<'a, T> {
    ghost use Rattle.nj_graph.specs.Joining.{ArePresent};

    ghost chooses = { λ choice. ArePresent (T.times choice.times.now) };

    fn choose(&self, alloc: Global, joining: &Joining) -> Result<Vec<usize>, AllocError> {
        present_files(alloc, joining, self.times)
    }
}

// The indices of all dyndep files.
fn all_files(alloc: Global, joining: &Joining) -> Result<Vec<usize>, AllocError>
    ensures all { IfOk result (λ indices.
        chosen_files joining.now.dyndep_files indices.items ≡ joining.now.dyndep_files) }
    ensures known { IfOk result (λ indices.
        AllByRecursion (λ index. index < length joining.now.dyndep_files) indices.items) }
{
    let mut indices = Vec::new(alloc);
    'files: for index in 0..joining.file_count() {
        indices.push(index)?;
    }
    Ok(indices)
}

// The indices of the dyndep files that exist.
fn present_files<T: FileTimes>(
    alloc: Global,
    joining: &Joining,
    times: &T,
) -> Result<Vec<usize>, AllocError>
    ensures present { IfOk result (λ indices. ArePresent (T.times times.now)
        joining.now.dyndep_files (chosen_files joining.now.dyndep_files indices.items)) }
    ensures known { IfOk result (λ indices.
        AllByRecursion (λ index. index < length joining.now.dyndep_files) indices.items) }
{
    let mut indices = Vec::new(alloc);
    'files: for index in 0..joining.file_count() {
        if is_there(times, joining.file(index).path)? {
            indices.push(index)?;
        }
    }
    Ok(indices)
}

// Whether a file is known to exist at a path.
fn is_there<T: FileTimes>(times: &T, path: &[u8]) -> Result<bool, AllocError>
    ensures { IfOk result (TellsPresence (T.times times.now) path.now) }
{
    match time_of(times, path)? {
        TimeFound::Time(time) => Ok(time.is_some()),
        TimeFound::NoAnswer => Ok(false),
    }
}

// Joins the dyndep files that are chosen.
fn join_chosen<S: FileSource, C: DyndepChoice>(
    alloc: Global,
    loaded: Loaded,
    source: &mut S,
    choice: &C,
) -> Result<Loaded, GraphFault>
    ensures joins { (stated : List ReadStatement) → IsGraphOf loaded.graph stated
        → JoinsChosen (C.chooses choice.now) stated loaded.files
        (S.state source.old) (S.state source.new) result }
    ensures origins { IfOk result (λ joined. joined.graph.origins ≡ loaded.graph.origins) }
{
    let Loaded { mut files, graph } = loaded;
    if !graph.built.has_pending() {
        return Ok(Loaded { files, graph });
    }
    let Graph { built, declared } = graph;
    let built = join_built(alloc, source, &mut files, built, choice)?;
    let graph = Graph { built, declared };
    Ok(Loaded { files, graph })
}

// The edges of a run, with the chosen dyndep files joined to them. The function owns only the
// edges, so that each of its exits drops little.
fn join_built<S: FileSource, C: DyndepChoice>(
    alloc: Global,
    source: &mut S,
    files: &mut FileTable,
    built: Built,
    choice: &C,
) -> Result<Built, GraphFault>
    requires once { EachPathOnce files.old }
    requires built { (stated : List ReadStatement) × IsBuiltOf built stated }
    ensures { (stated : List ReadStatement) → IsBuiltOf built stated
        → JoinsBuilt (C.chooses choice.now) stated (S.state source.old) (S.state source.new)
        files.old files.new result }
{
    let mut joining = built.join(alloc)?;
    let chosen = match choice.choose(alloc, &joining) {
        Ok(chosen) => chosen,
        Err(error) => {
            drop(joining);
            return Err(GraphFault::from(error));
        }
    };
    match join_files(alloc, source, files, &mut joining, &chosen) {
        Ok(()) => joining.finish(alloc),
        Err(fault) => {
            drop(joining);
            Err(fault)
        }
    }
}

// Joins the dyndep files at the given indices.
fn join_files<S: FileSource>(
    alloc: Global,
    source: &mut S,
    files: &mut FileTable,
    joining: &mut Joining,
    chosen: &[usize],
) -> Result<(), GraphFault>
    requires once { EachPathOnce files.old }
    requires there { AllByRecursion (λ index. index < length joining.old.dyndep_files) chosen.now }
    ensures joins { (stated : List ReadStatement) → HasJoined joining.old stated stated
        → JoinsFiles (chosen_files joining.old.dyndep_files chosen.now) stated
        (S.state source.old) (S.state source.new) files.old files.new joining.new result }
{
    'files: for index in chosen {
        join_file(alloc, source, files, joining, *index)?;
    }
    Ok(())
}

// Joins the dyndep file at the given index.
fn join_file<S: FileSource>(
    alloc: Global,
    source: &mut S,
    files: &mut FileTable,
    joining: &mut Joining,
    index: usize,
) -> Result<(), GraphFault>
    requires there { index < length joining.old.dyndep_files }
    requires once { EachPathOnce files.old }
    ensures joins { (stated joined : List ReadStatement) (p : Pending)
        → HasJoined joining.old stated joined
        → slice_get joining.old.dyndep_files index ≡ Some p
        → JoinsFile stated joined p (S.state source.old) (S.state source.new)
        files.old files.new joining.new result }
    ensures dyndeps { OnOk result (joining.new.dyndep_files ≡ joining.old.dyndep_files) }
    ensures once { OnOk result (EachPathOnce files.new) }
{
    let DyndepFile { number, path, edge } = joining.file(index);
    let place = joining.edge_place(edge);
    let path = file_name(alloc, place, path)?;
    let text = text_at(alloc, source, files, place, &path)?;
    join_text(alloc, joining, number, &path, &text)?;
    joining.end_file(alloc, number)
}

// The path of a dyndep file, which must be UTF-8; a fault is placed at the first edge of the file.
fn file_name(alloc: Global, place: PlaceRef<'_>, path: &[u8]) -> Result<String, GraphFault>
    ensures { NamesFile (record { file = place.entry.file.now; spot = place.entry.spot })
        path.now result }
{
    let bytes = Vec::from_slice(alloc, path)?;
    match String::from_utf8(bytes) {
        Ok(path) => Ok(path),
        Err(_) => Err(place.fault(alloc, Cause::PathNotText)),
    }
}

// Joins the entries of a dyndep file with the given text.
fn join_text(
    alloc: Global,
    joining: &mut Joining,
    file: FileNo,
    name: &str,
    text: &[u8],
) -> Result<(), GraphFault>
    requires { slice_get joining.old.table.files file.0 ≡ Some name.now }
    ensures joins { (stated joined : List ReadStatement) → HasJoined joining.old stated joined
        → JoinsText name.now stated text.now joined joining.new result }
    ensures files { OnOk result (IsPrefix joining.old.table.files joining.new.table.files) }
    ensures dyndeps { OnOk result (joining.new.dyndep_files ≡ joining.old.dyndep_files) }
{
    let mut parser = DyndepParser::new(text);
    'entries: while let Some(entry) = next_entry(alloc, &mut parser, name)? {
        joining.join_entry(alloc, file, name, &entry)?;
        drop(entry);
    }
    Ok(())
}

// The next entry of a dyndep file with the given name.
fn next_entry<'a>(
    alloc: Global,
    parser: &mut DyndepParser<'a>,
    name: &str,
) -> Result<Option<Entry<'a>>, GraphFault>
    ensures { NextEntryIs name.now parser.old parser.new result }
{
    match parser.next_entry(alloc) {
        Ok(found) => Ok(found),
        Err(fault) => Err(GraphFault::of_text(alloc, name, fault)?),
    }
}
