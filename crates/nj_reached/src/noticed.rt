//! What counts in a directory: changed files and affected outputs that a test may find there.

ghost use Rattle.std.specs.Prelude.{◌≡◌, ◌<◌, ◌++◌, ◌∷◌, [], All, IfOk, OnOk, length, map};
ghost use Rattle.nj_reached.specs.Cited.{HasMore, OfEdge, OfStatements, edge_of, edges_of, file_of, files_of, filter, flat_map, full_paths, full_unused, has_deps, is_compiled, noticed_outputs, path_at, without};

use crate::full_names::{add_files, add_path};
use nj_graph::{Edge, EdgeNo, File, FileNo, Files, Graph};
use nj_names::{HashKeys, Names};
use std::alloc::{AllocError, Global};

/// Adds the affected outputs and the changed files that count in a directory to a table.
pub(crate) fn add_noticed(
    alloc: Global,
    keys: HashKeys,
    names: &mut Names,
    folder: &[u8],
    graph: &Graph,
    changed: &Names,
    files: &[FileNo],
    touched: &[EdgeNo],
) -> Result<(), AllocError>
    requires files { All (λ file. file.0 < length (files_of graph.now)) files.now }
    requires touched { All (λ edge. edge.0 < length (edges_of graph.now)) touched.now }
    ensures { OfStatements graph.now (λ entries. OnOk result (HasMore names.old
        (full_paths folder.now (flat_map (noticed_outputs entries (edges_of graph.now))
        (map (λ edge. edge.0) touched.now))
        ++ without (full_paths folder.now (filter (is_compiled entries (edges_of graph.now))
        (map (path_at (files_of graph.now)) files.now))) changed.now) names.new)) }
{
    let mut compiled = Names::new(alloc, keys);
    add_compiled(alloc, &mut compiled, folder, graph, files)?;
    add_noticed_outputs(alloc, names, folder, graph, touched)?;
    add_others(names, changed, &compiled)
}

/// Adds the full paths of the outputs of the given edges that count in a directory.
fn add_noticed_outputs(
    alloc: Global,
    names: &mut Names,
    folder: &[u8],
    graph: &Graph,
    touched: &[EdgeNo],
) -> Result<(), AllocError>
    requires { All (λ edge. edge.0 < length (edges_of graph.now)) touched.now }
    ensures { OfStatements graph.now (λ entries. OnOk result (HasMore names.old
        (full_paths folder.now (flat_map (noticed_outputs entries (edges_of graph.now))
        (map (λ edge. edge.0) touched.now))) names.new)) }
{
    'edges: for edge in graph.edges_at(touched) {
        add_noticed_of(alloc, names, folder, edge)?;
    }
    Ok(())
}

/// Adds the full paths of the outputs of an edge that count in a directory.
fn add_noticed_of(
    alloc: Global,
    names: &mut Names,
    folder: &[u8],
    edge: Edge<'_>,
) -> Result<(), AllocError>
    ensures { OfEdge (edge_of edge.entry) (λ entries number. OnOk result (HasMore names.old
        (full_paths folder.now (noticed_outputs entries (edges_of (edge_of edge.entry).graph)
        number)) names.new)) }
{
    if edge.is_phony() {
        return Ok(());
    }
    let has_deps = has_deps(alloc, edge)?;
    if has_deps {
        return add_unused(alloc, names, folder, edge.outputs());
    }
    add_files(alloc, names, folder, edge.outputs())
}

/// Whether an edge has a value of `deps`.
fn has_deps(alloc: Global, edge: Edge<'_>) -> Result<bool, AllocError>
    ensures { OfEdge (edge_of edge.entry) (λ entries number.
        IfOk result (λ has. has ≡ has_deps entries number)) }
{
    let deps = edge.variable(alloc, b"deps")?;
    Ok(!deps.is_empty())
}

/// Adds the full paths of the files that no edge has as an input.
fn add_unused(
    alloc: Global,
    names: &mut Names,
    folder: &[u8],
    files: Files<'_>,
) -> Result<(), AllocError>
    ensures { OnOk result (HasMore names.old (full_unused folder.now files.entry) names.new) }
{
    'files: for file in files {
        add_if_unused(alloc, names, folder, file)?;
    }
    Ok(())
}

/// Adds the full path of a file if no edge has it as an input.
fn add_if_unused(
    alloc: Global,
    names: &mut Names,
    folder: &[u8],
    file: File<'_>,
) -> Result<(), AllocError>
    ensures { OnOk result (HasMore names.old
        (full_unused folder.now (file_of file.entry ∷ [])) names.new) }
{
    let is_unused = file.users().is_empty();
    if is_unused {
        return add_path(alloc, names, folder, file.path());
    }
    Ok(())
}

/// Adds the full paths of the given files that are compiled.
fn add_compiled(
    alloc: Global,
    names: &mut Names,
    folder: &[u8],
    graph: &Graph,
    files: &[FileNo],
) -> Result<(), AllocError>
    requires { All (λ file. file.0 < length (files_of graph.now)) files.now }
    ensures { OfStatements graph.now (λ entries. OnOk result (HasMore names.old
        (full_paths folder.now (filter (is_compiled entries (edges_of graph.now))
        (map (path_at (files_of graph.now)) files.now))) names.new)) }
{
    'files: for file in graph.files_at(files) {
        add_if_compiled(alloc, names, folder, file)?;
    }
    Ok(())
}

/// Adds the full path of a file if it is compiled.
fn add_if_compiled(
    alloc: Global,
    names: &mut Names,
    folder: &[u8],
    file: File<'_>,
) -> Result<(), AllocError>
    ensures { OfStatements (file_of file.entry).graph (λ entries. OnOk result (HasMore names.old
        (full_paths folder.now (filter (is_compiled entries (edges_of (file_of file.entry).graph))
        ((file_of file.entry).path ∷ []))) names.new)) }
{
    let is_compiled = is_compiled(alloc, file)?;
    if is_compiled {
        return add_path(alloc, names, folder, file.path());
    }
    Ok(())
}

/// Whether an edge with a value of `deps` has a file as an input.
fn is_compiled(alloc: Global, file: File<'_>) -> Result<bool, AllocError>
    ensures { OfStatements (file_of file.entry).graph (λ entries. IfOk result (λ is.
        is ≡ is_compiled entries (edges_of (file_of file.entry).graph) (file_of file.entry).path)) }
{
    'users: for user in file.users() {
        let has_deps = has_deps(alloc, user)?;
        if has_deps {
            return Ok(true);
        }
    }
    Ok(false)
}

/// Adds the names of a table that are not in another table.
fn add_others(names: &mut Names, table: &Names, others: &Names) -> Result<(), AllocError>
    ensures { OnOk result (HasMore names.old (without others.now table.now) names.new) }
{
    'names: for number in 0..table.count() {
        add_unless(names, others, table.name(number))?;
    }
    Ok(())
}

/// Adds a name unless it is in another table.
fn add_unless(names: &mut Names, others: &Names, name: &[u8]) -> Result<(), AllocError>
    ensures { OnOk result (HasMore names.old (without others.now (name.now ∷ [])) names.new) }
{
    let is_known = others.number(name).is_some();
    if is_known {
        return Ok(());
    }
    names.add(name)?;
    Ok(())
}
