//! Which changed files the manifest itself is made from.

ghost use Rattle.std.specs.Prelude.{◌≡◌, ◌↔◌, ◌<◌, ℕ, List, All, IfOk, false, length, map, true, slice_index_or};
ghost use Rattle.std.specs.List.{filter};
ghost use Rattle.nj_ask.specs.Cited.{AreFilesOf, AreFeeding, CanTellAll, OfEdge, edge_of, OfStatements, filter_map, flat_map, list_any, edge_at, inputs_of, maker_of, numbers_of, path_at, edges_of, files_of, makers_of_opened, makes_manifest, FeedsManifest, AreFeeds, AreFlags};

use nj_audit::has_generator;
use nj_graph::{Edge, EdgeNo, FileNo, Graph};
use std::alloc::{AllocError, Global};

/// How the manifest is made, as far as the edges show that all changed files affect.
#[derive(Drop)]
pub struct Manifest {
    /// For each file, whether it was opened.
    pub opened: Vec<bool>,
    /// For each edge, whether an affected edge that makes the manifest is it or needs it.
    pub feeds: Vec<bool>,
}

impl Manifest {
    ghost use Rattle.nj_graph.specs.ReadingList.{ReadStatement};
    ghost use Rattle.nj_graph.specs.Graph.{IsGraphOf};
    ghost use Rattle.nj_ask.specs.Inside.Reached.{CanTell, IsReached};

    /// The manifest of a graph with the given opened files and affected edges.
    pub fn new(
        alloc: Global,
        graph: &Graph,
        opened: &[FileNo],
        edges: &[EdgeNo],
    ) -> Result<Manifest, AllocError>
        requires opened { AreFilesOf graph.now opened.now }
        requires edges { All (λ edge. edge.0 < length (edges_of graph.now)) edges.now }
        ensures { OfStatements graph.now (λ entries.
            IfOk result (IsReached graph.now (numbers_of opened.now) entries
            (map (λ edge. edge.0) edges.now))) }
    {
        let flags = maker_flags(alloc, graph, opened)?;
        let makers = makers_among(alloc, graph, &flags, edges)?;
        let feeds = feeding_edges(alloc, graph, &makers)?;
        let opened = file_flags(alloc, graph.file_count(), opened)?;
        Ok(Manifest { opened, feeds })
    }

    /// Whether a changed file feeds the manifest: whether it was opened, or is an input of an edge
    /// that feeds it.
    pub fn is_made_from(&self, graph: &Graph, file: FileNo) -> bool
        requires { file.0 < length (files_of graph.now) }
        ensures { (opened : List ℕ) (entries : List ReadStatement) → IsGraphOf graph.now entries
            → CanTell graph.now opened entries file.0 self.now
            → (result ≡ true) ↔ FeedsManifest graph.now opened entries file.0 }
    {
        is_set(&self.opened, file.0) || has_flag(&self.feeds, graph.users(file))
    }
}

/// The given files that feed the manifest.
pub fn feeding_files(
    alloc: Global,
    graph: &Graph,
    manifest: &Manifest,
    files: &[FileNo],
) -> Result<Vec<FileNo>, AllocError>
    requires { AreFilesOf graph.now files.now }
    ensures feeding { (opened : List ℕ) → OfStatements graph.now (λ entries.
        CanTellAll graph.now opened entries (numbers_of files.now) manifest.now
        → IfOk result (λ feeding. AreFeeding graph.now opened entries (numbers_of files.now)
        (numbers_of feeding.items))) }
    ensures known { IfOk result (λ feeding. AreFilesOf graph.now feeding.items) }
{
    let mut feeding = Vec::new(alloc);
    'files: for file in files {
        if manifest.is_made_from(graph, *file) {
            feeding.push(*file)?;
        }
    }
    Ok(feeding)
}

/// For each of `count` files, whether it is among the given ones.
pub fn file_flags(alloc: Global, count: usize, files: &[FileNo]) -> Result<Vec<bool>, AllocError>
    requires { All (λ file. file.0 < count) files.now }
    ensures { IfOk result (λ flags.
        AreFlags count (map (λ file. file.0) files.now) flags.items) }
{
    let mut flags = vec![in alloc; false; count]?;
    'files: for file in files {
        flags[file.0] = true;
    }
    Ok(flags)
}

/// For each edge, whether it makes one of the given files.
fn maker_flags(alloc: Global, graph: &Graph, files: &[FileNo]) -> Result<Vec<bool>, AllocError>
    requires { All (λ file. file.0 < length (files_of graph.now)) files.now }
    ensures { IfOk result (λ flags. AreFlags (length (edges_of graph.now))
        (filter_map (λ file. maker_of (edges_of graph.now) (path_at (files_of graph.now) file))
        files.now) flags.items) }
{
    let mut flags = vec![in alloc; false; graph.edge_count()]?;
    'files: for file in files {
        match graph.maker(*file) {
            Some(edge) => flags[edge.0] = true,
            None => {}
        }
    }
    Ok(flags)
}

/// The given edges that make the manifest, where the flags mark the edges that make an opened file.
fn makers_among(
    alloc: Global,
    graph: &Graph,
    flags: &[bool],
    edges: &[EdgeNo],
) -> Result<Vec<EdgeNo>, AllocError>
    requires { All (λ edge. edge.0 < length (edges_of graph.now)) edges.now }
    ensures makers { (opened : List ℕ) → AreFlags (length (edges_of graph.now))
        (makers_of_opened graph.now opened) flags.now
        → OfStatements graph.now (λ entries.
        IfOk result (λ makers. map (λ edge. edge.0) makers.items
        ≡ filter (makes_manifest graph.now opened entries) (map (λ edge. edge.0) edges.now))) }
    ensures known { IfOk result (λ makers.
        All (λ edge. edge.0 < length (edges_of graph.now)) makers.items) }
{
    let mut makers = Vec::new(alloc);
    'edges: for edge in edges {
        if makes_manifest(alloc, flags, graph.edge_at(*edge))? {
            makers.push(*edge)?;
        }
    }
    Ok(makers)
}

/// Whether an edge makes the manifest, where the flags mark the edges that make an opened file.
fn makes_manifest(alloc: Global, flags: &[bool], edge: Edge<'_>) -> Result<bool, AllocError>
    ensures { (opened : List ℕ) → AreFlags (length (edges_of (edge_of edge.entry).graph))
        (makers_of_opened (edge_of edge.entry).graph opened) flags.now
        → OfEdge (edge_of edge.entry) (λ entries number. IfOk result (λ makes.
        makes ≡ makes_manifest (edge_of edge.entry).graph opened entries number)) }
{
    if is_set(flags, edge.number().0) {
        return Ok(true);
    }
    has_generator(alloc, edge)
}

/// For each edge, whether one of the makers is it or needs it, through any chain of inputs.
fn feeding_edges(alloc: Global, graph: &Graph, makers: &[EdgeNo]) -> Result<Vec<bool>, AllocError>
    requires { All (λ edge. edge.0 < length (edges_of graph.now)) makers.now }
    ensures { IfOk result (λ flags.
        AreFeeds (edges_of graph.now) (map (λ edge. edge.0) makers.now) flags.items) }
{
    let inputs = inputs_of_all(alloc, graph, makers)?;
    let mut edges = graph.needed_by(alloc, &inputs)?;
    edges.extend_from_slice(makers)?;
    edge_flags(alloc, graph.edge_count(), &edges)
}

/// The inputs of all given edges.
fn inputs_of_all(alloc: Global, graph: &Graph, edges: &[EdgeNo]) -> Result<Vec<FileNo>, AllocError>
    requires { All (λ edge. edge.0 < length (edges_of graph.now)) edges.now }
    ensures paths { IfOk result (λ files. map (path_at (files_of graph.now)) files.items
        ≡ flat_map (λ edge. inputs_of (edge_at (edges_of graph.now) edge.0)) edges.now) }
    ensures known { IfOk result (λ files.
        All (λ file. file.0 < length (files_of graph.now)) files.items) }
{
    let mut files = Vec::new(alloc);
    'edges: for edge in edges {
        files.extend_from_slice(graph.inputs(*edge))?;
    }
    Ok(files)
}

/// For each of `count` edges, whether it is among the given ones.
pub fn edge_flags(alloc: Global, count: usize, edges: &[EdgeNo]) -> Result<Vec<bool>, AllocError>
    requires { All (λ edge. edge.0 < count) edges.now }
    ensures { IfOk result (λ flags.
        AreFlags count (map (λ edge. edge.0) edges.now) flags.items) }
{
    let mut flags = vec![in alloc; false; count]?;
    'edges: for edge in edges {
        flags[edge.0] = true;
    }
    Ok(flags)
}

/// Whether any of the edges has a flag.
fn has_flag(flags: &[bool], edges: &[EdgeNo]) -> bool
    ensures { result ≡ list_any (λ edge. slice_index_or flags.now edge false)
        (map (λ edge. edge.0) edges.now) }
{
    edges.iter().any(|edge| is_set(flags, edge.0))
}

/// Whether the flag at an index is set; past the last flag it is not.
pub fn is_set(flags: &[bool], index: usize) -> bool
    ensures { result ≡ slice_index_or flags.now index false }
{
    match flags.get(index) {
        Some(flag) => *flag,
        None => false,
    }
}
