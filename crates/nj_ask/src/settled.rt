//! Whether a manifest is up to date with all that it is made from.

ghost use Rattle.std.specs.Prelude.{◌≡◌, ◌<◌, ◌==◌, ◌||◌, All, IfOk, false, length, map, nat_lt, slice_index_or, true};
ghost use Rattle.nj_ask.specs.Cited.{AreEdgesOf, AreFiles, AreSettled, AreTimesAt, HasCurrentOutputs, IsSettledEdge, OfEdge, OfStatements, Settles, are_current, are_current_if, counted_inputs_of, edge_at, edge_numbers, edge_of, edges_of, fold, hides_inputs, is_one_of, later, list_any, opened_files, path_at, range_with_len, runs_anew};

use crate::discovered::DiscoveredGraph;
use crate::manifest::{Manifest, is_set};
use crate::opened::opened_files;
use nj_audit::has_generator;
use nj_discovered::time_of;
use nj_graph::{Edge, EdgeGraph, EdgeNo, FileNo, FileTimes, Graph, TimeFound};
use std::alloc::{AllocError, Global};

/// Whether a manifest is up to date with all that it is made from, where these commands are new: Ninja
/// has nothing to do for an edge that makes it, or that such an edge needs.
pub(crate) fn settles<T: FileTimes>(
    alloc: Global,
    known: &DiscoveredGraph,
    times: &T,
    folder: &[u8],
    commands: &[EdgeNo],
) -> Result<bool, AllocError>
    ensures { OfStatements known.now.graph (λ entries. IfOk result (Settles known.now
        (opened_files known.now.graph folder.now) entries (T.times times.now)
        (edge_numbers commands.now))) }
{
    let graph = &known.graph;
    let opened = opened_files(alloc, graph, known.keys, folder)?;
    let edges = all_edges(alloc, graph)?;
    let Manifest { feeds, .. } = Manifest::new(alloc, graph, &opened, &edges)?;
    are_settled(alloc, known, times, commands, &feeds)
}

/// All edges.
fn all_edges(alloc: Global, graph: &Graph) -> Result<Vec<EdgeNo>, AllocError>
    ensures all { IfOk result (λ edges. edge_numbers edges.items
        ≡ range_with_len 0 (length (edges_of graph.now))) }
    ensures known { IfOk result (λ edges. AreEdgesOf graph.now edges.items) }
{
    let mut edges = Vec::new(alloc);
    'edges: for number in 0..graph.edge_count() {
        edges.push(EdgeNo(number))?;
    }
    Ok(edges)
}

/// Whether Ninja has nothing to do for any of the edges with a flag, where these commands are new.
fn are_settled<T: FileTimes>(
    alloc: Global,
    known: &DiscoveredGraph,
    times: &T,
    commands: &[EdgeNo],
    flags: &[bool],
) -> Result<bool, AllocError>
    ensures { OfStatements known.now.graph (λ entries. IfOk result (AreSettled known.now entries
        (T.times times.now) (edge_numbers commands.now)
        (λ edge. (edge < length (edges_of known.now.graph))
        × (slice_index_or flags.now edge false ≡ true)))) }
{
    'edges: for number in 0..known.graph.edge_count() {
        if is_set(flags, number) && !is_settled(alloc, known, times, commands, EdgeNo(number))? {
            return Ok(false);
        }
    }
    Ok(true)
}

/// Whether Ninja has nothing to do for an edge, where these commands are new.
fn is_settled<T: FileTimes>(
    alloc: Global,
    known: &DiscoveredGraph,
    times: &T,
    commands: &[EdgeNo],
    edge: EdgeNo,
) -> Result<bool, AllocError>
    requires { edge.0 < length (edges_of known.now.graph) }
    ensures { OfStatements known.now.graph (λ entries. IfOk result (IsSettledEdge known.now entries
        (T.times times.now) (edge_numbers commands.now) edge.0)) }
{
    if known.graph.is_phony(edge) {
        return Ok(true);
    }
    if is_unclear(alloc, known, commands, known.graph.edge_at(edge))? {
        return Ok(false);
    }
    has_current_outputs(alloc, &known.graph, times, edge)
}

/// Whether an edge runs by itself, or has inputs that are not known.
fn is_unclear(
    alloc: Global,
    known: &DiscoveredGraph,
    commands: &[EdgeNo],
    edge: Edge<'_>,
) -> Result<bool, AllocError>
    ensures { OfEdge (edge_of edge.entry) (λ entries number. IfOk result (λ is. is
        ≡ (runs_anew entries (edge_numbers commands.now) number
        || hides_inputs known.now entries number))) }
{
    if runs_anew(alloc, commands, edge)? {
        return Ok(true);
    }
    hides_inputs(alloc, known, edge)
}

/// Whether the command of an edge is among the new ones, and Ninja would run it for that.
fn runs_anew(alloc: Global, commands: &[EdgeNo], edge: Edge<'_>) -> Result<bool, AllocError>
    ensures { OfEdge (edge_of edge.entry) (λ entries number. IfOk result (λ is. is
        ≡ runs_anew entries (edge_numbers commands.now) number)) }
{
    if !is_among(commands, edge.number()) {
        return Ok(false);
    }
    Ok(!has_generator(alloc, edge)?)
}

/// Whether the inputs that builds discovered for an edge are not all known.
fn hides_inputs(alloc: Global, known: &DiscoveredGraph, edge: Edge<'_>) -> Result<bool, AllocError>
    ensures { OfEdge (edge_of edge.entry) (λ entries number. IfOk result (λ hides. hides
        ≡ hides_inputs known.now entries number)) }
{
    if known.has_discovered {
        return Ok(is_among(&known.unknown, edge.number()));
    }
    let depfile = edge.variable(alloc, b"depfile")?;
    let deps = edge.variable(alloc, b"deps")?;
    Ok(!depfile.is_empty() || !deps.is_empty())
}

/// Whether an edge is among others.
fn is_among(edges: &[EdgeNo], edge: EdgeNo) -> bool
    ensures { result ≡ is_one_of (edge_numbers edges.now) edge.0 }
{
    edges.iter().any(|other| edge.0 == other.0)
}

// ---- by times

/// Whether the outputs of an edge are up to date with its inputs, but for order-only inputs. Where a
/// time cannot be read they are not known to be.
fn has_current_outputs<T: FileTimes>(
    alloc: Global,
    graph: &EdgeGraph,
    times: &T,
    edge: EdgeNo,
) -> Result<bool, AllocError>
    requires { edge.0 < length graph.now.edges }
    ensures { IfOk result (HasCurrentOutputs (T.times times.now) (edge_at graph.now.edges edge.0)) }
{
    let files = counted_files(alloc, graph, edge)?;
    let outputs = times_at(alloc, graph, times, graph.outputs(edge))?;
    let inputs = times_at(alloc, graph, times, &files)?;
    Ok(are_current_if(&outputs, &inputs))
}

/// The inputs of an edge, but for order-only inputs.
fn counted_files(alloc: Global, graph: &EdgeGraph, edge: EdgeNo) -> Result<Vec<FileNo>, AllocError>
    requires { edge.0 < length graph.now.edges }
    ensures files { IfOk result (λ files. AreFiles graph.now.files files.items
        (counted_inputs_of (edge_at graph.now.edges edge.0))) }
    ensures known { IfOk result (λ files.
        All (λ file. file.0 < length graph.now.files) files.items) }
{
    let mut files = Vec::from_slice(alloc, graph.explicit_input_files(edge))?;
    files.extend_from_slice(graph.implicit_input_files(edge))?;
    Ok(files)
}

/// The times of files, 0 for a missing file. None if one cannot be read.
fn times_at<T: FileTimes>(
    alloc: Global,
    graph: &EdgeGraph,
    times: &T,
    files: &[FileNo],
) -> Result<Option<Vec<u64>>, AllocError>
    requires { All (λ file. file.0 < length graph.now.files) files.now }
    ensures { IfOk result (AreTimesAt (T.times times.now)
        (map (path_at graph.now.files) files.now)) }
{
    let mut found = Vec::new(alloc);
    'files: for file in files {
        match time_of(times, graph.path(*file))? {
            TimeFound::Time(time) => found.push(time.unwrap_or(0))?,
            TimeFound::NoAnswer => return Ok(None),
        }
    }
    Ok(Some(found))
}

/// Whether outputs are up to date with inputs, by their times, if these are known.
fn are_current_if(outputs: &Option<Vec<u64>>, inputs: &Option<Vec<u64>>) -> bool
    ensures { result ≡ are_current_if outputs.now inputs.now }
{
    match outputs {
        Some(outputs) => match inputs {
            Some(inputs) => are_current(outputs, inputs),
            None => false,
        },
        None => false,
    }
}

/// Whether outputs are up to date with inputs, by their times, 0 for a missing file.
fn are_current(outputs: &[u64], inputs: &[u64]) -> bool
    ensures { result ≡ are_current outputs.now inputs.now }
{
    !(has_missing(inputs) || has_missing(outputs) || has_older(outputs, newest_of(inputs)))
}

/// Whether one of some times is that of a missing file.
fn has_missing(times: &[u64]) -> bool
    ensures { result ≡ list_any (λ time. time == 0) times.now }
{
    times.iter().any(|time| *time == 0)
}

/// Whether one of some times is before another.
fn has_older(times: &[u64], newest: u64) -> bool
    ensures { result ≡ list_any (λ time. nat_lt time newest) times.now }
{
    times.iter().any(|time| *time < newest)
}

/// The newest of some times, 0 if there are none.
fn newest_of(times: &[u64]) -> u64
    ensures { result ≡ fold later 0 times.now }
{
    let mut newest = 0;
    'times: for time in times {
        if newest < *time {
            newest = *time;
        }
    }
    newest
}
