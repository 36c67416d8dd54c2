//! The missing sources at which a build stops.

ghost use Rattle.std.specs.Prelude.{◌≡◌, ◌<◌, All, Bool, IfOk, List, ℕ, bytes_eq, false, find, length, map, option_map, slice_index_or};
ghost use Rattle.nj_stale.specs.Cited.{AreFlags, AreStated, EdgeFacts, HasReasons, IsDistinct, IsFirstInput, IsFirstMissing, LineModel, State, evidence_of, has_both, lost_held, path_at, stop_path};

use crate::reason::Reason;
use crate::work::{flag_at, work_flags};
use nj_edges::{EdgeGraph, EdgeNo, FileNo};
use std::alloc::{AllocError, Global};

/// A missing source at which a build stops.
#[derive(Clone, Copy, Debug, PartialEq, Eq)]
pub enum MissingSource {
    /// A target is missing, and no edge makes it.
    Target(FileNo),
    /// An input of this edge is missing, and no edge makes it.
    Input(EdgeNo, FileNo),
}

/// Returns the missing source at which a build of the targets stops, if any: the first target that
/// is one, or the first such input of the needed edge of the lowest number that has something to
/// do and has such an input. All kinds of inputs count alike.
///
/// `times` has the time on the disk of each file, 0 if it is missing, `reasons` why each edge is
/// stale, and `stated` whether the manifest itself names a file: sources that builds discovered do
/// not stop a build. Takes time in proportion to the edges and their inputs. Fails only if an
/// allocation fails.
pub fn missing_source(
    alloc: Global,
    graph: &EdgeGraph,
    times: &[u64],
    reasons: &[Option<Reason>],
    stated: &[bool],
    targets: &[FileNo],
) -> Result<Option<MissingSource>, AllocError>
    requires times { length times.now ≡ length graph.now.files }
    requires targets { All (λ file. file.0 < length graph.now.files) targets.now }
    ensures { IfOk result (λ found. (facts : List EdgeFacts) (lines : List LineModel)
        (is_stated : List ℕ → Bool) (s : State) → HasReasons graph.now.edges s reasons.now
        → AreStated graph.now.files is_stated stated.now
        → IsFirstMissing graph.now.files (evidence_of graph.now facts times.now lines) is_stated s
        (map (path_at graph.now.files) targets.now) found) }
{
    // no path has two files
    let _file_count = graph.file_count();
    if let Some(file) = first_lost(graph, times, stated, targets) {
        return Ok(Some(MissingSource::Target(file)));
    }
    let works = work_flags(alloc, graph, reasons)?;
    let needed = graph.needed_by(alloc, targets)?;
    let needed = edge_flags(alloc, graph.edge_count(), &needed)?;
    Ok(first_input(graph, times, stated, &works, &needed))
}

// Returns the first missing source among the inputs of the first edge with both flags that has one.
fn first_input(
    graph: &EdgeGraph,
    times: &[u64],
    stated: &[bool],
    works: &[bool],
    needed: &[bool],
) -> Option<MissingSource>
    requires times { length times.now ≡ length graph.now.files }
    requires distinct { IsDistinct bytes_eq graph.now.files }
    ensures { (facts : List EdgeFacts) (lines : List LineModel) (is_stated : List ℕ → Bool)
        → AreStated graph.now.files is_stated stated.now → IsFirstInput graph.now.files
        (stop_path (evidence_of graph.now facts times.now lines) is_stated works.now needed.now)
        (length graph.now.edges) result }
{
    'edges: for number in 0..graph.edge_count() {
        let edge = EdgeNo(number);
        if let Some(file) = input_of(graph, times, stated, works, needed, edge) {
            return Some(MissingSource::Input(edge, file));
        }
    }
    None
}

// Returns the first missing source among the inputs of an edge with both flags.
fn input_of(
    graph: &EdgeGraph,
    times: &[u64],
    stated: &[bool],
    works: &[bool],
    needed: &[bool],
    edge: EdgeNo,
) -> Option<FileNo>
    requires times { length times.now ≡ length graph.now.files }
    requires distinct { IsDistinct bytes_eq graph.now.files }
    requires edge { edge.0 < length graph.now.edges }
    ensures { (facts : List EdgeFacts) (lines : List LineModel) (is_stated : List ℕ → Bool)
        → AreStated graph.now.files is_stated stated.now
        → option_map (path_at graph.now.files) result
        ≡ stop_path (evidence_of graph.now facts times.now lines) is_stated works.now needed.now
        edge.0 }
{
    if has_both(works, needed, edge) {
        first_lost(graph, times, stated, graph.inputs(edge))
    } else {
        None
    }
}

// Whether an edge has both flags.
fn has_both(works: &[bool], needed: &[bool], edge: EdgeNo) -> bool
    ensures { result ≡ has_both works.now needed.now edge.0 }
{
    let works = flag_at(works, edge);
    let needed = flag_at(needed, edge);
    works && needed
}

// Returns the first missing source among the given files.
fn first_lost(graph: &EdgeGraph, times: &[u64], stated: &[bool], files: &[FileNo]) -> Option<FileNo>
    requires times { length times.now ≡ length graph.now.files }
    requires files { All (λ file. file.0 < length graph.now.files) files.now }
    ensures { result ≡ find (lost_held graph.now times.now stated.now) files.now }
{
    'files: for index in 0..files.len() {
        if is_lost(graph, times, stated, files[index]) {
            return Some(files[index]);
        }
    }
    None
}

// Whether a file is a missing source that the manifest itself names.
fn is_lost(graph: &EdgeGraph, times: &[u64], stated: &[bool], file: FileNo) -> bool
    requires times { length times.now ≡ length graph.now.files }
    requires file { file.0 < length graph.now.files }
    ensures { result ≡ lost_held graph.now times.now stated.now file }
{
    let maker = graph.maker(file);
    let is_stated = stated_at(stated, file);
    maker.is_none() && (times[file.0] == 0 && is_stated)
}

// Whether the manifest itself names a file.
fn stated_at(stated: &[bool], file: FileNo) -> bool
    ensures { result ≡ slice_index_or stated.now file.0 false }
{
    match stated.get(file.0) {
        Some(is_stated) => *is_stated,
        None => false,
    }
}

// Returns for each of `count` edges whether it is among the given edges.
fn edge_flags(alloc: Global, count: usize, edges: &[EdgeNo]) -> Result<Vec<bool>, AllocError>
    requires { All (λ edge. edge.0 < count) edges.now }
    ensures { IfOk result (λ flags.
        AreFlags count (map (λ edge. edge.0) edges.now) flags.items) }
{
    let mut flags = vec![in alloc; false; count]?;
    'edges: for edge in edges {
        flags[edge.0] = true;
    }
    Ok(flags)
}
