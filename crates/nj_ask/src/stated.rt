//! Which files the manifest itself names.

ghost use Rattle.std.specs.Prelude.{◌≡◌, ◌<◌, ◌++◌, All, IfOk, OnOk, length, map, slice_get, take, unwrap_or};
ghost use Rattle.nj_ask.specs.Cited.{AreStated, flat_map, is_named, named_paths, path_at, range_with_len, stated_edge, stated_edges};

use crate::manifest::file_flags;
use nj_graph::{EdgeGraph, EdgeNo, FileNo};
use std::alloc::{AllocError, Global};

/// For each source of a graph, whether the manifest itself names it: not a dyndep file alone, nor a
/// build that discovered it. `stated` has, by edge number, how many implicit inputs the manifest has
/// for each edge. Takes time in proportion to the edges and their files.
pub(crate) fn stated_flags(
    alloc: Global,
    graph: &EdgeGraph,
    stated: &[usize],
) -> Result<Vec<bool>, AllocError>
    ensures { IfOk result (λ flags. AreStated graph.now.files
        (is_named (stated_edges graph.now.edges stated.now)) flags.items) }
{
    let files = stated_files(alloc, graph, stated)?;
    file_flags(alloc, graph.file_count(), &files)
}

/// The files that the manifest itself names, as often as it names them.
fn stated_files(
    alloc: Global,
    graph: &EdgeGraph,
    stated: &[usize],
) -> Result<Vec<FileNo>, AllocError>
    ensures paths { IfOk result (λ files. map (path_at graph.now.files) files.items
        ≡ flat_map named_paths (stated_edges graph.now.edges stated.now)) }
    ensures known { IfOk result (λ files.
        All (λ file. file.0 < length graph.now.files) files.items) }
{
    let mut files = Vec::new(alloc);
    'edges: for number in 0..graph.edge_count() {
        push_stated(&mut files, graph, stated, EdgeNo(number))?;
    }
    Ok(files)
}

/// Appends the files that the manifest itself names for an edge.
fn push_stated(
    files: &mut Vec<FileNo>,
    graph: &EdgeGraph,
    stated: &[usize],
    edge: EdgeNo,
) -> Result<(), AllocError>
    requires edge { edge.0 < length graph.now.edges }
    requires files { All (λ file. file.0 < length graph.now.files) files.old.items }
    ensures paths { OnOk result (map (path_at graph.now.files) files.new.items
        ≡ map (path_at graph.now.files) files.old.items
        ++ named_paths (stated_edge graph.now.edges stated.now edge.0)) }
    ensures known { OnOk result (All (λ file. file.0 < length graph.now.files) files.new.items) }
{
    files.extend_from_slice(graph.outputs(edge))?;
    files.extend_from_slice(graph.explicit_input_files(edge))?;
    files.extend_from_slice(stated_inputs(graph, stated, edge))?;
    files.extend_from_slice(graph.order_only_input_files(edge))?;
    files.extend_from_slice(graph.validations(edge))?;
    Ok(())
}

/// The implicit inputs that the manifest itself has for an edge.
pub(crate) fn stated_inputs<'g>(
    graph: &'g EdgeGraph,
    stated: &[usize],
    edge: EdgeNo,
) -> &'g [FileNo]
    requires { edge.0 < length graph.now.edges }
    ensures paths { map (path_at graph.entry.now.files) result.now
        ≡ (stated_edge graph.entry.now.edges stated.now edge.0).implicit_inputs }
    ensures known { All (λ file. file.0 < length graph.entry.now.files) result.now }
{
    let inputs = graph.implicit_input_files(edge);
    first_files(inputs, stated_count(stated, edge, inputs.len()))
}

/// How many of the given number of implicit inputs the manifest itself has for an edge.
fn stated_count(stated: &[usize], edge: EdgeNo, count: usize) -> usize
    ensures { result ≡ unwrap_or (slice_get stated.now edge.0) count }
{
    match stated.get(edge.0) {
        Some(stated) => *stated,
        None => count,
    }
}

/// The first `count` of the given files, or all if there are fewer.
fn first_files(files: &[FileNo], count: usize) -> &[FileNo]
    ensures { result.now ≡ take count files.now }
{
    match files.get(..count) {
        Some(first) => first,
        None => files,
    }
}
