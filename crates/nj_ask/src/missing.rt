//! The missing sources at which a build stops.

ghost use Rattle.std.specs.Prelude.{◌≡◌, ◌<◌, ◌++◌, ◌∷◌, [], All, IfErr, IfOk, List, None, OnOk, codes, filter, is_some, length, map, slice_get, ℕ};
ghost use Rattle.nj_scope.specs.ReadingList.{ReadStatement};
ghost use Rattle.nj_ask.specs.Cited.{AreFiles, BuildLogModel, DeclaredTimes, FailsBy, Fault, IsJudgedBuild, IsJudgedGraph, IsStop, StopsAt, edge_at, files_of, maker_of, missing_line, name_at, outputs_of, path_at, program_line, required_files};

use crate::discovered::DiscoveredGraph;
use crate::failure::Failure;
use crate::judged::JudgedGraph;
use crate::status::Status;
use nj_graph::{EdgeGraph, EdgeNo, FileNo};
use nj_needs::grow_targets;
use nj_stale::{MissingSource, missing_source};
use std::alloc::{AllocError, Global};

/// Refuses targets whose build stops at a missing source.
///
/// # Errors
///
/// `Refused` with the source and the edge that needs it, and `OutOfMemory` if an allocation failed.
pub(crate) fn check_sources(
    alloc: Global,
    known: &DiscoveredGraph,
    judged: &JudgedGraph,
    targets: &[FileNo],
) -> Result<(), Failure>
    requires judged { IsJudgedGraph known.now judged.now }
    requires targets { All (λ file. file.0 < length (files_of known.now.graph)) targets.now }
    ensures none { (entries : List ReadStatement) (log : BuildLogModel) (times : DeclaredTimes)
        → IsJudgedBuild known.now entries log times judged.now.build → IfOk result (λ _.
        IsStop known.now entries log times
        (map (path_at (files_of known.now.graph)) targets.now) None) }
    ensures refused { (entries : List ReadStatement) (log : BuildLogModel) (times : DeclaredTimes)
        → IsJudgedBuild known.now entries log times judged.now.build
        → IfErr result (FailsBy Fault (StopsAt known.now entries log times
        (map (path_at (files_of known.now.graph)) targets.now))) }
{
    let found = first_source(alloc, known, judged, targets)?;
    match found {
        Some(source) => Err(of_source(alloc, &known.graph, source)),
        None => Ok(()),
    }
}

/// The missing source at which a build of the targets stops, if any.
fn first_source(
    alloc: Global,
    known: &DiscoveredGraph,
    judged: &JudgedGraph,
    targets: &[FileNo],
) -> Result<Option<MissingSource>, AllocError>
    requires judged { IsJudgedGraph known.now judged.now }
    requires targets { All (λ file. file.0 < length (files_of known.now.graph)) targets.now }
    ensures { (entries : List ReadStatement) (log : BuildLogModel) (times : DeclaredTimes)
        → IsJudgedBuild known.now entries log times judged.now.build → IfOk result
        (IsStop known.now entries log times
        (map (path_at (files_of known.now.graph)) targets.now)) }
{
    let files = required_files(alloc, &known.graph, targets)?;
    let build = &judged.build;
    missing_source(
        alloc,
        &known.graph,
        &build.times,
        &build.reasons,
        &judged.stated,
        &files,
    )
}

/// The targets, and the validations of needed edges, without validations that no edge makes.
fn required_files(
    alloc: Global,
    graph: &EdgeGraph,
    targets: &[FileNo],
) -> Result<Vec<FileNo>, AllocError>
    requires { All (λ file. file.0 < length graph.now.files) targets.now }
    ensures paths { IfOk result (λ files. map (path_at graph.now.files) files.items
        ≡ required_files graph.now.edges (map (path_at graph.now.files) targets.now)) }
    ensures known { IfOk result (λ files.
        All (λ file. file.0 < length graph.now.files) files.items) }
{
    let grown = grow_targets(alloc, graph, targets)?;
    let made = made_files(alloc, graph, &grown)?;
    let mut files = Vec::from_slice(alloc, targets)?;
    files.extend_from_slice(&made)?;
    Ok(files)
}

/// The files of a list that edges make.
fn made_files(alloc: Global, graph: &EdgeGraph, files: &[FileNo]) -> Result<Vec<FileNo>, AllocError>
    requires { All (λ file. file.0 < length graph.now.files) files.now }
    ensures paths { IfOk result (λ made. map (path_at graph.now.files) made.items
        ≡ filter (λ path. is_some (maker_of graph.now.edges path))
        (map (path_at graph.now.files) files.now)) }
    ensures known { IfOk result (λ made.
        All (λ file. file.0 < length graph.now.files) made.items) }
{
    let mut made = Vec::new(alloc);
    'files: for file in files {
        push_if_made(&mut made, graph, *file)?;
    }
    Ok(made)
}

/// Appends a file if an edge makes it.
fn push_if_made(files: &mut Vec<FileNo>, graph: &EdgeGraph, file: FileNo) -> Result<(), AllocError>
    requires files { All (λ file. file.0 < length graph.now.files) files.old.items }
    requires file { file.0 < length graph.now.files }
    ensures paths { OnOk result (map (path_at graph.now.files) files.new.items
        ≡ map (path_at graph.now.files) files.old.items
        ++ filter (λ path. is_some (maker_of graph.now.edges path))
        (path_at graph.now.files file ∷ [])) }
    ensures known { OnOk result (All (λ file. file.0 < length graph.now.files) files.new.items) }
{
    if graph.maker(file).is_some() {
        files.push(file)?;
    }
    Ok(())
}

/// The failure that reports a missing source.
fn of_source(alloc: Global, graph: &EdgeGraph, source: MissingSource) -> Failure
    ensures { FailsBy Fault (λ line. line ≡ missing_line graph.now source) result }
{
    match source {
        MissingSource::Target(file) => {
            let rule = b"' missing and no known rule to make it";
            Failure::in_words(alloc, b"'", path_or_none(graph, file), rule, Status::Fault)
        }
        MissingSource::Input(edge, file) => of_input(alloc, graph, edge, file),
    }
}

/// The failure that reports a missing input of an edge.
fn of_input(alloc: Global, graph: &EdgeGraph, edge: EdgeNo, file: FileNo) -> Failure
    ensures { FailsBy Fault (λ line. line ≡ program_line (codes "'"
        ++ path_at graph.now.files file ++ codes "', needed by '"
        ++ name_at (outputs_of (edge_at graph.now.edges edge.0)) 0
        ++ codes "', missing and no known rule to make it")) result }
{
    of_paths(alloc, path_or_none(graph, file), first_output(graph, edge))
}

/// The failure that reports a missing input by its path, and its edge by an output.
fn of_paths(alloc: Global, path: &[u8], output: &[u8]) -> Failure
    ensures { FailsBy Fault (λ line. line ≡ program_line (codes "'" ++ path.now
        ++ codes "', needed by '" ++ output.now
        ++ codes "', missing and no known rule to make it")) result }
{
    match needed_by(alloc, output) {
        Ok(words) => Failure::in_words(alloc, b"'", path, &words, Status::Fault),
        Err(_) => Failure::OutOfMemory,
    }
}

/// What follows the path of a missing input in its report; the edge that needs it has this output.
fn needed_by(alloc: Global, output: &[u8]) -> Result<Vec<u8>, AllocError>
    ensures { IfOk result (λ words. words.items ≡ codes "', needed by '" ++ output.now
        ++ codes "', missing and no known rule to make it") }
{
    let mut words = Vec::from_slice(alloc, b"', needed by '")?;
    words.extend_from_slice(output)?;
    words.extend_from_slice(b"', missing and no known rule to make it")?;
    Ok(words)
}

/// The path of a file; past the last file it is empty.
fn path_or_none(graph: &EdgeGraph, file: FileNo) -> &[u8]
    ensures { result.now ≡ path_at graph.now.files file }
{
    if file.0 < graph.file_count() {
        graph.path(file)
    } else {
        b""
    }
}

/// The first output of an edge; past the last edge it is empty.
pub(crate) fn first_output(graph: &EdgeGraph, edge: EdgeNo) -> &[u8]
    ensures { result.now ≡ name_at (outputs_of (edge_at graph.now.edges edge.0)) 0 }
{
    if edge.0 < graph.edge_count() {
        first_path(graph, graph.outputs(edge))
    } else {
        b""
    }
}

/// The path of the first of some files; without files it is empty.
fn first_path<'g>(graph: &'g EdgeGraph, files: &[FileNo]) -> &'g [u8]
    requires { All (λ file. file.0 < length graph.now.files) files.now }
    ensures { (paths : List (List ℕ)) → AreFiles graph.entry.now.files files.now paths
        → result.now ≡ name_at paths 0 }
{
    match number_at(files, 0) {
        Some(file) => graph.path(file),
        None => b"",
    }
}

/// The number at a place in a list, or `None` past its end.
pub(crate) fn number_at(files: &[FileNo], place: usize) -> Option<FileNo>
    ensures { result ≡ slice_get files.now place }
{
    files.get(place).copied()
}
