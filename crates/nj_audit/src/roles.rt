//! What edges are for: which are run by hand, and which make the manifest.

ghost use Rattle.std.specs.Prelude.{◌≡◌, ◌<◌, IfOk, IfSome, bytes_eq, codes, length, map, option_and_then, option_map, slice_get};
ghost use Rattle.nj_audit.specs.Cited.{OfEdge, edge_of, edges_of, has, built_by_default, defaults_of, is_run_by_hand, maker_of_opened, makers_of_opened, HasNumbers, HasRoles};

use crate::named_paths::path_named;
use nj_graph::{Edge, EdgeNo, FileList, Graph};
use nj_names::NumberSet;
use std::alloc::{AllocError, Global};

/// The roles of a graph's edges.
#[derive(Drop)]
pub struct Roles {
    /// The edges whose commands the defaults need.
    pub built: NumberSet,
    /// The edges that make files of the manifest.
    pub opened: NumberSet,
}

impl Roles {
    /// Returns the roles of a graph's edges.
    pub fn new(alloc: Global, graph: &Graph) -> Result<Roles, AllocError>
        ensures { IfOk result (HasRoles graph.now) }
    {
        let built = built_by_default(alloc, graph)?;
        let opened = makers_of_opened(alloc, graph)?;
        Ok(Roles { built, opened })
    }

    /// Whether an edge is in the pool `console` and no default needs it, so that it is run by hand.
    pub fn is_run_by_hand(&self, edge: Edge<'_>) -> bool
        requires { HasRoles (edge_of edge).graph self.now }
        ensures { OfEdge (edge_of edge.entry) (λ entries number.
            result ≡ is_run_by_hand (edge_of edge.entry).graph entries number) }
    {
        match edge.pool() {
            Some(pool) => is_console(pool) && !self.built.contains(edge.number().0),
            None => false,
        }
    }

    /// Whether an edge makes a file of the manifest.
    pub fn makes_opened(&self, edge: Edge<'_>) -> bool
        requires { HasRoles (edge_of edge).graph self.now }
        ensures { result
            ≡ has (makers_of_opened (edge_of edge.entry).graph) (edge_of edge.entry).number }
    {
        self.opened.contains(edge.number().0)
    }
}

/// Whether a pool is `console`.
fn is_console(pool: &[u8]) -> bool
    ensures { result ≡ bytes_eq pool.now (codes "console") }
{
    pool == b"console".as_slice()
}

/// Returns the edges whose commands the defaults need.
fn built_by_default(alloc: Global, graph: &Graph) -> Result<NumberSet, AllocError>
    ensures { IfOk result (HasNumbers (length (edges_of graph.now)) (built_by_default graph.now)) }
{
    let mut built = NumberSet::none_below(alloc, graph.edge_count())?;
    let targets = default_files(alloc, graph)?;
    'edges: for edge in targets.needed_commands(alloc)? {
        built.insert(edge.number().0)?;
    }
    Ok(built)
}

/// Returns the defaults.
fn default_files(alloc: Global, graph: &Graph) -> Result<FileList<'_>, AllocError>
    ensures { IfOk result (λ files. files
        ≡ record { graph = graph.entry.now; paths = defaults_of graph.entry.now }) }
{
    let words: Vec<&str> = Vec::new(alloc);
    match graph.targets(alloc, &words) {
        Ok(files) => Ok(files),
        // without words no word can have a fault
        Err(_) => Err(AllocError),
    }
}

/// Returns the edges that make files that were opened.
fn makers_of_opened(alloc: Global, graph: &Graph) -> Result<NumberSet, AllocError>
    ensures { IfOk result (HasNumbers (length (edges_of graph.now)) (makers_of_opened graph.now)) }
{
    let mut makers = NumberSet::none_below(alloc, graph.edge_count())?;
    let mut buffer = Vec::new(alloc);
    'openings: for index in 0..graph.opening_count() {
        let found = maker_of_opened(&mut buffer, graph, index)?;
        match found {
            Some(maker) => {
                makers.insert(maker.0)?;
            }
            None => {}
        }
    }
    Ok(makers)
}

/// Returns the edge that makes the file that was opened at an index, if any. The buffer is for
/// paths.
fn maker_of_opened(
    buffer: &mut Vec<u8>,
    graph: &Graph,
    index: usize,
) -> Result<Option<EdgeNo>, AllocError>
    ensures maker { IfOk result (λ maker. option_map (λ edge. edge.0) maker
        ≡ option_and_then (maker_of_opened graph.now)
        (slice_get graph.now.origins.openings index)) }
    ensures known { IfOk result (λ maker.
        IfSome maker (λ edge. edge.0 < length (edges_of graph.now))) }
{
    let Some(opening) = graph.opening(index) else {
        return Ok(None);
    };
    let Some(path) = path_named(buffer, b"", opening.path)? else {
        return Ok(None);
    };
    match graph.file_named(path) {
        Some(file) => Ok(graph.maker(file)),
        None => Ok(None),
    }
}
