//! The answer to `stale`.

ghost use Rattle.std.specs.Prelude.{◌≡◌, ◌<◌, ◌++◌, ◌==◌, ℕ, List, [], All, codes, IfErr, IfOk, IfSome, length, map, not, option_map, if◌then◌else◌, Some, None};
ghost use Rattle.nj_scope.specs.ReadingList.{ReadStatement};
ghost use Rattle.nj_ask.specs.Cited.{Fault, AnswersBuild, AnswersManifest, AnswersStale, AreFiles, AreStaleFor, BuildLogModel, DeclaredTimes, FailsBy, Gives, HasCounts, HasEdges, IsCurrent, IsJudgedBuild, IsJudgedGraph, ListsStale, OfStatements, StopsAt, Usage, WritesStale, cons_option, edges_of, files_asked, files_of, grown_targets, if_named, is_empty, is_stale_maker, line, list_any, main_path, manifest_asked, manifest_targets, manifest_text, path_at, program_line, stale_misuse, stale_model};

use crate::answer::Answer;
use crate::depfiles::check_depfiles;
use crate::discovered::DiscoveredGraph;
use crate::failure::Failure;
use crate::judged::{JudgedGraph, judged_graph};
use crate::keys::targets_asked;
use crate::missing::check_sources;
use crate::opened::opened_path;
use crate::shape::{caveat_lines_of, push_changing};
use crate::stale_objects::stale_objects;
use crate::status::Status;
use nj_build_log::BuildLog;
use nj_graph::{EdgeGraph, EdgeNo, FileNo, FileTimes, Graph};
use nj_needs::grow_targets;
use nj_questions::StaleOptions;
use nj_state::{JudgedBuild, StaleEdge, stale_in, stale_lines};
use std::alloc::{AllocError, Global};

/// Refuses options that exclude each other.
pub(crate) fn check_stale(alloc: Global, options: &StaleOptions) -> Result<(), Failure>
    ensures allowed { IfOk result (λ _. stale_misuse (stale_model options.now) ≡ None) }
    ensures refused { IfErr result (FailsBy Usage (λ line.
        stale_misuse (stale_model options.now) ≡ Some line)) }
{
    if options.json && options.why {
        let text = b"--json excludes --why";
        return Err(Failure::in_words(alloc, b"", text, b"", Status::Usage));
    }
    Ok(())
}

/// The stale edges that the manifest and the targets need, in the order of their commands. Where the
/// manifest itself is stale, those that it needs alone.
///
/// # Errors
///
/// `Refused` if a word names no file, if a needed depfile has a fault, if the time of a file cannot
/// be read, or if a missing source stops the build; and `OutOfMemory` if an allocation failed.
pub(crate) fn answer_stale<T: FileTimes>(
    alloc: Global,
    known: &DiscoveredGraph,
    log: &BuildLog,
    times: &T,
    options: &StaleOptions,
) -> Result<Answer, Failure>
    requires { HasEdges known.now }
    ensures { OfStatements known.now.graph (λ entries. Gives (AnswersStale known.now entries
        log.now (T.times times.now) (stale_model options.now)) result) }
{
    let targets = match targets_asked(alloc, known, &options.targets) {
        Ok(targets) => targets,
        Err(failure) => return Err(failure),
    };
    let manifest = manifest_asked(alloc, &known.graph, options.no_manifest)?;
    let files = files_asked(alloc, &known.graph, manifest, targets.numbers())?;
    match check_depfiles(alloc, known, &files) {
        Ok(()) => {}
        Err(failure) => return Err(failure),
    }
    let judged = match judged_graph(alloc, known, log, times) {
        Ok(judged) => judged,
        Err(failure) => return Err(failure),
    };
    let targets = targets.numbers();
    answer_of(
        alloc, known, log, &judged, options, manifest, targets, &files,
    )
}

/// The answer by a judged build: about the manifest, if it is stale or its build stops, and else about
/// all files.
fn answer_of(
    alloc: Global,
    known: &DiscoveredGraph,
    log: &BuildLog,
    judged: &JudgedGraph,
    options: &StaleOptions,
    manifest: Option<FileNo>,
    targets: &[FileNo],
    files: &[FileNo],
) -> Result<Answer, Failure>
    requires judged { IsJudgedGraph known.now judged.now }
    requires manifest { IfSome manifest (λ file.
        file.0 < length (files_of known.now.graph)) }
    requires asked { option_map (path_at (files_of known.now.graph)) manifest
        ≡ manifest_asked known.now.graph (stale_model options.now) }
    requires targets { All (λ file. file.0 < length (files_of known.now.graph)) targets.now }
    requires files { AreFiles (files_of known.now.graph) files.now
        (files_asked known.now.graph (stale_model options.now)
        (map (path_at (files_of known.now.graph)) targets.now)) }
    requires known { All (λ file. file.0 < length (files_of known.now.graph)) files.now }
    ensures { OfStatements known.now.graph (λ entries. (times : DeclaredTimes)
        → IsJudgedBuild known.now entries log.now times judged.now.build
        → Gives (AnswersBuild known.now entries log.now times (stale_model options.now)
        (map (path_at (files_of known.now.graph)) targets.now)) result) }
{
    let found = match answer_of_manifest(alloc, known, log, judged, options, manifest) {
        Ok(found) => found,
        Err(failure) => return Err(failure),
    };
    match found {
        Some(answer) => Ok(answer),
        None => answer_of_targets(alloc, known, log, judged, options, targets, files),
    }
}

/// The answer about the manifest, if it is stale.
fn answer_of_manifest(
    alloc: Global,
    known: &DiscoveredGraph,
    log: &BuildLog,
    judged: &JudgedGraph,
    options: &StaleOptions,
    manifest: Option<FileNo>,
) -> Result<Option<Answer>, Failure>
    requires judged { IsJudgedGraph known.now judged.now }
    requires manifest { IfSome manifest (λ file.
        file.0 < length (files_of known.now.graph)) }
    requires asked { option_map (path_at (files_of known.now.graph)) manifest
        ≡ manifest_asked known.now.graph (stale_model options.now) }
    ensures answer { OfStatements known.now.graph (λ entries. (times : DeclaredTimes)
        → IsJudgedBuild known.now entries log.now times judged.now.build → IfOk result
        (AnswersManifest known.now entries log.now times (stale_model options.now))) }
    ensures refused { OfStatements known.now.graph (λ entries. (times : DeclaredTimes)
        → IsJudgedBuild known.now entries log.now times judged.now.build → IfErr result
        (FailsBy Fault (StopsAt known.now entries log.now times
        (manifest_targets known.now.graph (stale_model options.now))))) }
{
    let targets = file_list(alloc, manifest)?;
    match check_sources(alloc, known, judged, &targets) {
        Ok(()) => {}
        Err(failure) => return Err(failure),
    }
    let files = manifest_needs(alloc, &known.graph, manifest)?;
    let stale = stale_of(alloc, known, &judged.build, &files)?;
    let line = manifest_line(alloc, &known.graph, &stale, manifest)?;
    if line.is_empty() {
        return Ok(None);
    }
    let answer = listed(alloc, known, log, &judged.build, &stale, options)?;
    Ok(Some(with_warning(answer, &line)?))
}

/// The answer about the manifest and the targets.
fn answer_of_targets(
    alloc: Global,
    known: &DiscoveredGraph,
    log: &BuildLog,
    judged: &JudgedGraph,
    options: &StaleOptions,
    targets: &[FileNo],
    files: &[FileNo],
) -> Result<Answer, Failure>
    requires judged { IsJudgedGraph known.now judged.now }
    requires targets { All (λ file. file.0 < length (files_of known.now.graph)) targets.now }
    requires files { AreFiles (files_of known.now.graph) files.now
        (files_asked known.now.graph (stale_model options.now)
        (map (path_at (files_of known.now.graph)) targets.now)) }
    requires known { All (λ file. file.0 < length (files_of known.now.graph)) files.now }
    ensures { OfStatements known.now.graph (λ entries. (times : DeclaredTimes)
        → IsJudgedBuild known.now entries log.now times judged.now.build
        → IsCurrent known.now entries log.now times (stale_model options.now)
        → Gives (AnswersBuild known.now entries log.now times (stale_model options.now)
        (map (path_at (files_of known.now.graph)) targets.now)) result) }
{
    match check_sources(alloc, known, judged, targets) {
        Ok(()) => {}
        Err(failure) => return Err(failure),
    }
    let stale = stale_of(alloc, known, &judged.build, files)?;
    Ok(listed(alloc, known, log, &judged.build, &stale, options)?)
}

// ---- the files that are asked about

/// The manifest, unless it is left out.
fn manifest_asked(
    alloc: Global,
    graph: &Graph,
    left_out: bool,
) -> Result<Option<FileNo>, AllocError>
    ensures path { IfOk result (λ file. option_map (path_at (files_of graph.now)) file
        ≡ (if left_out then None else main_path graph.now)) }
    ensures known { IfOk result (λ file.
        IfSome file (λ file. file.0 < length (files_of graph.now))) }
{
    if left_out {
        return Ok(None);
    }
    main_file(alloc, graph)
}

/// The main file, if an edge names it.
fn main_file(alloc: Global, graph: &Graph) -> Result<Option<FileNo>, AllocError>
    ensures path { IfOk result (λ file.
        option_map (path_at (files_of graph.now)) file ≡ main_path graph.now) }
    ensures known { IfOk result (λ file.
        IfSome file (λ file. file.0 < length (files_of graph.now))) }
{
    if graph.opening_count() == 0 {
        return Ok(None);
    }
    let path = opened_path(alloc, graph, b"", 0)?;
    Ok(named_file(graph, &path))
}

/// The file at a path, if an edge names it.
fn named_file(graph: &Graph, path: &[u8]) -> Option<FileNo>
    ensures path { option_map (path_at (files_of graph.now)) result ≡ if_named graph.now path.now }
    ensures known { IfSome result (λ file. file.0 < length (files_of graph.now)) }
{
    graph.file_named(path)
}

/// The manifest with the validations of the edges that it needs.
fn manifest_needs(
    alloc: Global,
    graph: &EdgeGraph,
    manifest: Option<FileNo>,
) -> Result<Vec<FileNo>, AllocError>
    requires { IfSome manifest (λ file. file.0 < length graph.now.files) }
    ensures files { IfOk result (λ files. AreFiles graph.now.files files.items
        (grown_targets graph.now.edges
        (cons_option (option_map (path_at graph.now.files) manifest) []))) }
    ensures known { IfOk result (λ files.
        All (λ file. file.0 < length graph.now.files) files.items) }
{
    let targets = file_list(alloc, manifest)?;
    grow_targets(alloc, graph, &targets)
}

/// A file as a list, if any.
fn file_list(alloc: Global, file: Option<FileNo>) -> Result<Vec<FileNo>, AllocError>
    ensures { IfOk result (λ files. files.items ≡ cons_option file []) }
{
    let mut files = Vec::new(alloc);
    match file {
        Some(file) => files.push(file)?,
        None => {}
    }
    Ok(files)
}

/// The same, and then the targets with the validations of the edges that they need.
fn files_asked(
    alloc: Global,
    graph: &EdgeGraph,
    manifest: Option<FileNo>,
    targets: &[FileNo],
) -> Result<Vec<FileNo>, AllocError>
    requires manifest { IfSome manifest (λ file. file.0 < length graph.now.files) }
    requires targets { All (λ file. file.0 < length graph.now.files) targets.now }
    ensures files { IfOk result (λ files. AreFiles graph.now.files files.items
        (grown_targets graph.now.edges
        (cons_option (option_map (path_at graph.now.files) manifest) [])
        ++ grown_targets graph.now.edges (map (path_at graph.now.files) targets.now))) }
    ensures known { IfOk result (λ files.
        All (λ file. file.0 < length graph.now.files) files.items) }
{
    let mut files = manifest_needs(alloc, graph, manifest)?;
    files.extend_from_slice(&grow_targets(alloc, graph, targets)?)?;
    Ok(files)
}

// ---- what is stale

/// The stale edges among those whose commands the files need.
fn stale_of(
    alloc: Global,
    known: &DiscoveredGraph,
    build: &JudgedBuild,
    files: &[FileNo],
) -> Result<Vec<StaleEdge>, AllocError>
    requires counts { HasCounts known.now.graph.built.graph build.now }
    requires files { All (λ file. file.0 < length (files_of known.now.graph)) files.now }
    ensures stale { (entries : List ReadStatement) (log : BuildLogModel) (times : DeclaredTimes)
        (paths : List (List ℕ)) → IsJudgedBuild known.now entries log times build.now
        → AreFiles (files_of known.now.graph) files.now paths → IfOk result (λ stale.
        AreStaleFor known.now entries log times paths stale.items) }
    ensures known { IfOk result (λ stale.
        All (λ item. item.edge.0 < length (edges_of known.now.graph)) stale.items) }
{
    stale_in(alloc, &known.graph, build, files)
}

/// The line about the manifest, if a stale edge makes it.
fn manifest_line(
    alloc: Global,
    graph: &Graph,
    stale: &[StaleEdge],
    manifest: Option<FileNo>,
) -> Result<Vec<u8>, AllocError>
    requires { IfSome manifest (λ file. file.0 < length (files_of graph.now)) }
    ensures { IfOk result (λ line. line.items ≡ manifest_text graph.now stale.now
        (option_map (path_at (files_of graph.now)) manifest)) }
{
    match manifest {
        Some(file) => line_if_stale(alloc, graph, stale, file),
        None => Ok(Vec::new(alloc)),
    }
}

/// The line about the manifest at a file, if a stale edge makes it.
fn line_if_stale(
    alloc: Global,
    graph: &Graph,
    stale: &[StaleEdge],
    manifest: FileNo,
) -> Result<Vec<u8>, AllocError>
    requires { manifest.0 < length (files_of graph.now) }
    ensures { IfOk result (λ line. line.items ≡ manifest_text graph.now stale.now
        (Some (path_at (files_of graph.now) manifest))) }
{
    if is_stale_maker(stale, graph.maker(manifest)) {
        return line_about(alloc, graph.path(manifest));
    }
    Ok(Vec::new(alloc))
}

/// The line about the manifest at a path, which is stale.
fn line_about(alloc: Global, path: &[u8]) -> Result<Vec<u8>, AllocError>
    ensures { IfOk result (λ text. text.items ≡ line (path.now
        ++ codes ": the manifest is stale, so what else is stale is not known")) }
{
    let said = b": the manifest is stale, so what else is stale is not known";
    let mut text = Vec::new(alloc);
    push_changing(&mut text, path, said)?;
    Ok(text)
}

/// Whether the maker is among the stale edges.
fn is_stale_maker(stale: &[StaleEdge], maker: Option<EdgeNo>) -> bool
    ensures { result ≡ is_stale_maker stale.now (option_map (λ edge. edge.0) maker) }
{
    match maker {
        Some(edge) => has_edge(stale, edge),
        None => false,
    }
}

/// Whether an edge is among the stale edges.
fn has_edge(stale: &[StaleEdge], edge: EdgeNo) -> bool
    ensures { result ≡ list_any (λ item. edge.0 == item.edge.0) stale.now }
{
    stale.iter().any(|item| edge.0 == item.edge.0)
}

// ---- the answer

/// The answer that lists the stale edges.
fn listed(
    alloc: Global,
    known: &DiscoveredGraph,
    log: &BuildLog,
    build: &JudgedBuild,
    stale: &[StaleEdge],
    options: &StaleOptions,
) -> Result<Answer, AllocError>
    requires counts { HasCounts known.now.graph.built.graph build.now }
    requires stale { All (λ item. item.edge.0 < length (edges_of known.now.graph)) stale.now }
    ensures { OfStatements known.now.graph (λ entries. (times : DeclaredTimes)
        → IsJudgedBuild known.now entries log.now times build.now → IfOk result (ListsStale
        known.now entries log.now times (stale_model options.now) stale.now)) }
{
    let output = written(alloc, known, log, build, stale, options)?;
    let edges = numbers_of(alloc, stale)?;
    let warnings = caveat_lines_of(alloc, known, &edges)?;
    Ok(Answer {
        output,
        warnings,
        looks: !stale.is_empty(),
    })
}

/// An answer with one more warning.
fn with_warning(answer: Answer, line: &[u8]) -> Result<Answer, AllocError>
    ensures output { IfOk result (λ said. said.output ≡ answer.output) }
    ensures warnings { IfOk result (λ said.
        said.warnings.items ≡ answer.warnings.items ++ line.now) }
    ensures looks { IfOk result (λ said. said.looks ≡ answer.looks) }
{
    let mut said = answer;
    said.warnings.extend_from_slice(line)?;
    Ok(said)
}

/// The stale edges, a line each.
fn written(
    alloc: Global,
    known: &DiscoveredGraph,
    log: &BuildLog,
    build: &JudgedBuild,
    stale: &[StaleEdge],
    options: &StaleOptions,
) -> Result<Vec<u8>, AllocError>
    requires counts { HasCounts known.now.graph.built.graph build.now }
    requires stale { All (λ item. item.edge.0 < length (edges_of known.now.graph)) stale.now }
    ensures { (entries : List ReadStatement) (times : DeclaredTimes)
        → IsJudgedBuild known.now entries log.now times build.now → IfOk result (λ text.
        WritesStale known.now entries log.now times (stale_model options.now) stale.now
        text.items) }
{
    if options.json {
        stale_objects(alloc, &known.graph, build, log, stale)
    } else {
        stale_lines(alloc, &known.graph, stale, options.why)
    }
}

/// The numbers of stale edges.
fn numbers_of(alloc: Global, stale: &[StaleEdge]) -> Result<Vec<EdgeNo>, AllocError>
    ensures { IfOk result (λ edges. edges.items ≡ map (λ item. item.edge) stale.now) }
{
    let mut edges = Vec::new(alloc);
    'edges: for item in stale {
        edges.push(item.edge)?;
    }
    Ok(edges)
}
