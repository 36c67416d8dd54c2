//! Tables of the full paths of files.

ghost use Rattle.std.specs.Prelude.{◌∷◌, [], OnOk, map};
ghost use Rattle.nj_reached.specs.Cited.{HasMore, edge_of, edges_of, flat_map, full_outputs, full_path, full_paths, full_paths_in, outputs_made, outputs_of, paths_of};

use nj_changes::full_path;
use nj_graph::{Edge, Edges, Files, Graph};
use nj_names::Names;
use std::alloc::{AllocError, Global};

/// Adds the full path of a path to a table.
pub(crate) fn add_path(
    alloc: Global,
    names: &mut Names,
    folder: &[u8],
    path: &[u8],
) -> Result<(), AllocError>
    ensures { OnOk result (HasMore names.old (full_path folder.now path.now ∷ []) names.new) }
{
    let full = full_path(alloc, folder, path)?;
    names.add(&full)?;
    Ok(())
}

/// Adds the full paths of files.
pub(crate) fn add_files(
    alloc: Global,
    names: &mut Names,
    folder: &[u8],
    files: Files<'_>,
) -> Result<(), AllocError>
    ensures { OnOk result (HasMore names.old (full_paths_in folder.now files.entry) names.new) }
{
    'files: for file in files {
        add_path(alloc, names, folder, file.path())?;
    }
    Ok(())
}

/// Adds the full paths of the outputs of an edge.
fn add_outputs(
    alloc: Global,
    names: &mut Names,
    folder: &[u8],
    edge: Edge<'_>,
) -> Result<(), AllocError>
    ensures { OnOk result (HasMore names.old
        (full_paths folder.now (outputs_of (paths_of (edge_of edge.entry)))) names.new) }
{
    add_files(alloc, names, folder, edge.outputs())
}

/// Adds the full paths of the outputs that the command of an edge makes.
fn add_made(
    alloc: Global,
    names: &mut Names,
    folder: &[u8],
    edge: Edge<'_>,
) -> Result<(), AllocError>
    ensures { OnOk result (HasMore names.old
        (full_paths folder.now (outputs_made (paths_of (edge_of edge.entry)))) names.new) }
{
    if edge.is_phony() {
        return Ok(());
    }
    add_outputs(alloc, names, folder, edge)
}

/// Adds the full paths of the outputs of edges.
pub(crate) fn add_outputs_of(
    alloc: Global,
    names: &mut Names,
    folder: &[u8],
    edges: Edges<'_>,
) -> Result<(), AllocError>
    ensures { OnOk result (HasMore names.old (full_outputs folder.now edges.entry) names.new) }
{
    'edges: for edge in edges {
        add_outputs(alloc, names, folder, edge)?;
    }
    Ok(())
}

/// Adds the full paths of the outputs of all edges.
pub(crate) fn add_all_outputs(
    alloc: Global,
    names: &mut Names,
    folder: &[u8],
    graph: &Graph,
) -> Result<(), AllocError>
    ensures { OnOk result (HasMore names.old
        (full_paths folder.now (flat_map outputs_of (edges_of graph.now))) names.new) }
{
    'edges: for edge in graph.edges() {
        add_outputs(alloc, names, folder, edge)?;
    }
    Ok(())
}

/// Adds the full paths of the outputs that commands make.
pub(crate) fn add_all_made(
    alloc: Global,
    names: &mut Names,
    folder: &[u8],
    graph: &Graph,
) -> Result<(), AllocError>
    ensures { OnOk result (HasMore names.old
        (full_paths folder.now (flat_map outputs_made (edges_of graph.now))) names.new) }
{
    'edges: for edge in graph.edges() {
        add_made(alloc, names, folder, edge)?;
    }
    Ok(())
}
