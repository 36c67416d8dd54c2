//! The edges with new commands, in what a change touches.

ghost use Rattle.std.specs.Prelude.{◌≡◌, ◌<◌, ◌++◌, ℕ, List, All, IfOk, length, map};
ghost use Rattle.nj_ask.specs.Cited.{AreAllTouched, AreEdgesOf, AreTouched, IsTouched, edge_numbers, edges_of, files_of, flagged_numbers, outputs_at, path_at};

use crate::discovered::DiscoveredGraph;
use crate::manifest::edge_flags;
use nj_graph::{EdgeNo, FileNo, Graph};
use std::alloc::{AllocError, Global};

/// The given files, and the outputs of the given edges.
pub(crate) fn with_outputs(
    alloc: Global,
    graph: &Graph,
    files: &[FileNo],
    edges: &[EdgeNo],
) -> Result<Vec<FileNo>, AllocError>
    requires files { All (λ file. file.0 < length (files_of graph.now)) files.now }
    requires edges { AreEdgesOf graph.now edges.now }
    ensures paths { IfOk result (λ all. map (path_at (files_of graph.now)) all.items
        ≡ map (path_at (files_of graph.now)) files.now
        ++ outputs_at (edges_of graph.now) (edge_numbers edges.now)) }
    ensures known { IfOk result (λ all.
        All (λ file. file.0 < length (files_of graph.now)) all.items) }
{
    let mut all = Vec::from_slice(alloc, files)?;
    'edges: for edge in edges {
        all.extend_from_slice(graph.outputs(*edge))?;
    }
    Ok(all)
}

/// The given edges and those with new commands, in reading order.
pub(crate) fn with_commands(
    alloc: Global,
    known: &DiscoveredGraph,
    edges: &[EdgeNo],
    commands: &[EdgeNo],
) -> Result<Vec<EdgeNo>, AllocError>
    requires edges { AreEdgesOf known.now.graph edges.now }
    requires commands { AreEdgesOf known.now.graph commands.now }
    ensures { (paths : List (List ℕ)) → AreTouched known.now (IsTouched known.now paths) edges.now
        → IfOk result (λ all. AreAllTouched known.now paths commands.now all.items) }
{
    let mut all = Vec::from_slice(alloc, edges)?;
    all.extend_from_slice(commands)?;
    let flags = edge_flags(alloc, known.graph.edge_count(), &all)?;
    flagged(alloc, &flags)
}

/// The edges with a flag, in reading order.
fn flagged(alloc: Global, flags: &[bool]) -> Result<Vec<EdgeNo>, AllocError>
    ensures { IfOk result (λ edges. edge_numbers edges.items ≡ flagged_numbers flags.now) }
{
    let mut edges = Vec::new(alloc);
    'numbers: for number in 0..flags.len() {
        if flags[number] {
            edges.push(EdgeNo(number))?;
        }
    }
    Ok(edges)
}
