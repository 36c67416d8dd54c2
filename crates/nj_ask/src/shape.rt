//! The files that shape the graph, where they may change.

ghost use Rattle.std.specs.Prelude.{◌≡◌, ◌++◌, ◌<◌, ℕ, List, [], All, IfOk, IfSome, OnOk, length, map, option_map};
ghost use Rattle.nj_ask.specs.Cited.{AreFilesOf, numbers_of, OfEdge, edge_of, OfStatements, flat_map, range_with_len, edges_of, files_of, line, caveat_text, dyndep_files, dyndep_of, dyndep_text, line_if_changes, lines_of_changing, may_change, remade_text, shape_text, unjoined_files, is_made_flag, AreMarks};

use crate::discovered::DiscoveredGraph;
use crate::listing::push_line;
use crate::manifest::{edge_flags, file_flags, is_set};
use nj_graph::{Edge, EdgeNo, FileNo, Graph};
use std::alloc::{AllocError, Global};

/// What may change of files and edges.
#[derive(Drop)]
struct Marks {
    /// For each file, whether it is in question.
    is_some: Vec<bool>,
    /// For each file, whether it changed.
    has_changed: Vec<bool>,
    /// For each edge, whether the change touches it.
    is_touched: Vec<bool>,
}

/// Why an answer about a graph may lack discovered inputs, a line each: what is not known of them,
/// and the dyndep files that were not joined. It is empty if discovered inputs were not requested.
pub fn caveat_lines(alloc: Global, known: &DiscoveredGraph) -> Result<Vec<u8>, AllocError>
    ensures { OfStatements known.now.graph (λ entries.
        IfOk result (λ lines. lines.items ≡ caveat_text known.now entries)) }
{
    let mut lines = Vec::from_slice(alloc, &known.caveats)?;
    if known.has_discovered {
        lines.extend_from_slice(&dyndep_lines(alloc, &known.graph, &[], &[])?)?;
    }
    Ok(lines)
}

/// What may be missing from an answer about the given stale edges, a line each: what is not known of
/// discovered inputs, and dyndep files that a stale edge makes, or that were not joined.
pub fn caveat_lines_of(
    alloc: Global,
    known: &DiscoveredGraph,
    edges: &[EdgeNo],
) -> Result<Vec<u8>, AllocError>
    requires { All (λ edge. edge.0 < length (edges_of known.now.graph)) edges.now }
    ensures { OfStatements known.now.graph (λ entries. IfOk result (λ lines.
        lines.items ≡ known.now.caveats.items ++ dyndep_text known.now.graph entries []
        (map (λ edge. edge.0) edges.now))) }
{
    let mut lines = Vec::from_slice(alloc, &known.caveats)?;
    lines.extend_from_slice(&dyndep_lines(alloc, &known.graph, &[], edges)?)?;
    Ok(lines)
}

/// Why the graph may have another shape, a line each: dyndep files that changed, that a touched
/// edge makes, or that were not joined; and, with discovered inputs, manifests that a touched edge
/// makes. `opened` and `changed` are files, and `touched` are the edges that their change touches.
pub fn shape_lines(
    alloc: Global,
    known: &DiscoveredGraph,
    opened: &[FileNo],
    changed: &[FileNo],
    touched: &[EdgeNo],
) -> Result<Vec<u8>, AllocError>
    requires opened { AreFilesOf known.now.graph opened.now }
    requires changed { AreFilesOf known.now.graph changed.now }
    requires touched { All (λ edge. edge.0 < length (edges_of known.now.graph)) touched.now }
    ensures { OfStatements known.now.graph (λ entries.
        IfOk result (λ lines. lines.items ≡ shape_text known.now entries
        (numbers_of opened.now) (numbers_of changed.now)
        (map (λ edge. edge.0) touched.now))) }
{
    let mut lines = dyndep_lines(alloc, &known.graph, changed, touched)?;
    lines.extend_from_slice(&remade_lines(alloc, known, opened, touched)?)?;
    Ok(lines)
}

/// A line for each dyndep file that may change.
fn dyndep_lines(
    alloc: Global,
    graph: &Graph,
    changed: &[FileNo],
    touched: &[EdgeNo],
) -> Result<Vec<u8>, AllocError>
    requires changed { All (λ file. file.0 < length (files_of graph.now)) changed.now }
    requires touched { All (λ edge. edge.0 < length (edges_of graph.now)) touched.now }
    ensures { OfStatements graph.now (λ entries.
        IfOk result (λ lines. lines.items ≡ dyndep_text graph.now entries
        (map (λ file. file.0) changed.now) (map (λ edge. edge.0) touched.now))) }
{
    let files = dyndep_files(alloc, graph)?;
    let uncertain = uncertain_files(alloc, graph, changed)?;
    let marks = marks_of(alloc, graph, &files, &uncertain, touched)?;
    marked_lines(alloc, graph, b": a dyndep file, may change", &marks)
}

/// With discovered inputs, a line for each opened file that a touched edge makes: without them, the
/// warnings about changed paths say that.
fn remade_lines(
    alloc: Global,
    known: &DiscoveredGraph,
    opened: &[FileNo],
    touched: &[EdgeNo],
) -> Result<Vec<u8>, AllocError>
    requires opened { AreFilesOf known.now.graph opened.now }
    requires touched { All (λ edge. edge.0 < length (edges_of known.now.graph)) touched.now }
    ensures { IfOk result (λ lines. lines.items ≡ remade_text known.now.graph
        (numbers_of opened.now) known.now.has_discovered (map (λ edge. edge.0) touched.now)) }
{
    if !known.has_discovered {
        return Ok(Vec::new(alloc));
    }
    let graph = &known.graph;
    let marks = marks_of(alloc, graph, opened, &[], touched)?;
    marked_lines(alloc, graph, b": a manifest, may change", &marks)
}

/// The marks of the given files, changed files and touched edges.
fn marks_of(
    alloc: Global,
    graph: &Graph,
    files: &[FileNo],
    changed: &[FileNo],
    touched: &[EdgeNo],
) -> Result<Marks, AllocError>
    requires files { All (λ file. file.0 < length (files_of graph.now)) files.now }
    requires changed { All (λ file. file.0 < length (files_of graph.now)) changed.now }
    requires touched { All (λ edge. edge.0 < length (edges_of graph.now)) touched.now }
    ensures { IfOk result (AreMarks graph.now (map (λ file. file.0) files.now)
        (map (λ file. file.0) changed.now) (map (λ edge. edge.0) touched.now)) }
{
    let is_some = file_flags(alloc, graph.file_count(), files)?;
    let has_changed = file_flags(alloc, graph.file_count(), changed)?;
    let is_touched = edge_flags(alloc, graph.edge_count(), touched)?;
    Ok(Marks {
        is_some,
        has_changed,
        is_touched,
    })
}

/// The dyndep files of all edges, as often as edges are bound to them.
fn dyndep_files(alloc: Global, graph: &Graph) -> Result<Vec<FileNo>, AllocError>
    ensures files { OfStatements graph.now (λ entries.
        IfOk result (λ files. map (λ file. file.0) files.items ≡ dyndep_files graph.now entries)) }
    ensures known { IfOk result (λ files.
        All (λ file. file.0 < length (files_of graph.now)) files.items) }
{
    let mut files = Vec::new(alloc);
    'edges: for edge in graph.edges() {
        match dyndep_file(edge) {
            Some(file) => files.push(file)?,
            None => {}
        }
    }
    Ok(files)
}

/// The dyndep files that were not joined, as often as edges are pending on them, and then the
/// changed files.
fn uncertain_files(
    alloc: Global,
    graph: &Graph,
    changed: &[FileNo],
) -> Result<Vec<FileNo>, AllocError>
    requires { All (λ file. file.0 < length (files_of graph.now)) changed.now }
    ensures files { OfStatements graph.now (λ entries.
        IfOk result (λ files. map (λ file. file.0) files.items
        ≡ unjoined_files graph.now entries ++ map (λ file. file.0) changed.now)) }
    ensures known { IfOk result (λ files.
        All (λ file. file.0 < length (files_of graph.now)) files.items) }
{
    let mut files = unjoined_files(alloc, graph)?;
    files.extend_from_slice(changed)?;
    Ok(files)
}

/// The dyndep files that were not joined, as often as edges are pending on them.
fn unjoined_files(alloc: Global, graph: &Graph) -> Result<Vec<FileNo>, AllocError>
    ensures files { OfStatements graph.now (λ entries.
        IfOk result (λ files. map (λ file. file.0) files.items
        ≡ unjoined_files graph.now entries)) }
    ensures known { IfOk result (λ files.
        All (λ file. file.0 < length (files_of graph.now)) files.items) }
{
    let mut files = Vec::new(alloc);
    'pending: for index in 0..graph.pending_count() {
        let found = dyndep_file(graph.edge_at(graph.pending_edge(index)));
        match found {
            Some(file) => files.push(file)?,
            None => {}
        }
    }
    Ok(files)
}

/// The dyndep file of an edge, if any.
fn dyndep_file(edge: Edge<'_>) -> Option<FileNo>
    ensures file { OfEdge (edge_of edge.entry) (λ entries number.
        option_map (λ file. file.0) result
        ≡ dyndep_of (edge_of edge.entry).graph entries number) }
    ensures known { IfSome result (λ file.
        file.0 < length (files_of (edge_of edge.entry).graph)) }
{
    match edge.dyndep() {
        Some(path) => edge.graph().file_named(path),
        None => None,
    }
}

/// A line for each marked file that may change, with what it is.
fn marked_lines(
    alloc: Global,
    graph: &Graph,
    what: &[u8],
    marks: &Marks,
) -> Result<Vec<u8>, AllocError>
    ensures { (files changed edges : List ℕ) → AreMarks graph.now files changed edges marks.now
        → IfOk result (λ lines. lines.items
        ≡ lines_of_changing graph.now what.now files changed edges) }
{
    let mut lines = Vec::new(alloc);
    'files: for number in 0..graph.file_count() {
        push_if_changes(&mut lines, graph, what, marks, FileNo(number))?;
    }
    Ok(lines)
}

/// Appends the line of a file if it is marked and may change.
fn push_if_changes(
    lines: &mut Vec<u8>,
    graph: &Graph,
    what: &[u8],
    marks: &Marks,
    file: FileNo,
) -> Result<(), AllocError>
    requires { file.0 < length (files_of graph.now) }
    ensures { (files changed edges : List ℕ) → AreMarks graph.now files changed edges marks.now
        → OnOk result (lines.new.items ≡ lines.old.items
        ++ line_if_changes graph.now what.now files changed edges file.0) }
{
    if is_set(&marks.is_some, file.0) && may_change(graph, marks, file) {
        return push_changing(lines, graph.path(file), what);
    }
    Ok(())
}

/// Whether a marked file may change.
fn may_change(graph: &Graph, marks: &Marks, file: FileNo) -> bool
    requires { file.0 < length (files_of graph.now) }
    ensures { (files changed edges : List ℕ) → AreMarks graph.now files changed edges marks.now
        → result ≡ may_change graph.now changed edges file.0 }
{
    is_set(&marks.has_changed, file.0) || is_made_by(&marks.is_touched, graph.maker(file))
}

/// Whether the maker, if any, has a flag.
fn is_made_by(flags: &[bool], maker: Option<EdgeNo>) -> bool
    ensures { result ≡ is_made_flag flags.now (option_map (λ edge. edge.0) maker) }
{
    match maker {
        Some(edge) => is_set(flags, edge.0),
        None => false,
    }
}

/// Appends a path, with what is at it, as a line.
pub(crate) fn push_changing(lines: &mut Vec<u8>, path: &[u8], what: &[u8]) -> Result<(), AllocError>
    ensures { OnOk result (lines.new.items ≡ lines.old.items ++ line (path.now ++ what.now)) }
{
    lines.extend_from_slice(path)?;
    push_line(lines, what)
}
