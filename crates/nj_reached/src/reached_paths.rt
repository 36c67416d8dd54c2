//! The full paths of a change, by the graph of a build.

ghost use Rattle.std.specs.Prelude.{◌≡◌, ◌↔◌, ◌<◌, ◌++◌, ℕ, List, All, Contains, IfOk, OnOk, length, map};
ghost use Rattle.nj_reached.specs.Cited.{Fills, HasMore, IsAffected, IsChangeOf, IsUnfilled, OfStatements, change_by, edges_of, files_of, full_paths, outputs_at, path_at};

use crate::full_names::{add_all_made, add_all_outputs, add_outputs_of};
use crate::noticed::add_noticed;
use nj_chosen::ChangedPaths;
use nj_graph::{EdgeNo, FileNo, Graph};
use nj_names::{HashKeys, Names};
use std::alloc::{AllocError, Global};

/// Returns the full paths of a change of files, for [`nj_chosen::choose`]. `folder` is the build
/// directory; `roots` are the build directory and the source directories. `changed` are the full
/// paths of the changed files, `files` the changed files that edges name, and `touched` the edges
/// that the change touches. The tables that are made have the given keys.
///
/// Takes time in proportion to the graph, and to the paths. Fails only if an allocation fails.
pub fn changed_paths(
    alloc: Global,
    keys: HashKeys,
    graph: &Graph,
    folder: &[u8],
    roots: Vec<Vec<u8>>,
    changed: Names,
    files: &[FileNo],
    touched: &[EdgeNo],
) -> Result<ChangedPaths, AllocError>
    requires files { All (λ file. file.0 < length (files_of graph.now)) files.now }
    requires touched { All (λ edge. edge.0 < length (edges_of graph.now)) touched.now }
    ensures { OfStatements graph.now (λ entries. IfOk result (λ paths. IsChangeOf graph.now entries
        (record {
          folder = folder.now;
          roots = map (λ root. root.items) roots.items;
          changed = changed;
          files = map (path_at (files_of graph.now)) files.now;
          touched = map (λ edge. edge.0) touched.now;
        }) (change_by folder.now paths))) }
{
    let mut paths = without_outputs(alloc, keys, roots, changed);
    fill(alloc, keys, &mut paths, folder, graph, files, touched)?;
    Ok(paths)
}

/// Returns the paths of a change, before any paths of outputs are known.
fn without_outputs(
    alloc: Global,
    keys: HashKeys,
    roots: Vec<Vec<u8>>,
    changed: Names,
) -> ChangedPaths
    ensures { IsUnfilled roots changed result }
{
    ChangedPaths {
        roots,
        outputs: Names::new(alloc, keys),
        made: Names::new(alloc, keys),
        affected: Names::new(alloc, keys),
        needing: Names::new(alloc, keys),
        changed,
        noticed: Names::new(alloc, keys),
    }
}

/// Adds the paths of outputs, and the paths that count in a directory.
fn fill(
    alloc: Global,
    keys: HashKeys,
    paths: &mut ChangedPaths,
    folder: &[u8],
    graph: &Graph,
    files: &[FileNo],
    touched: &[EdgeNo],
) -> Result<(), AllocError>
    requires files { All (λ file. file.0 < length (files_of graph.now)) files.now }
    requires touched { All (λ edge. edge.0 < length (edges_of graph.now)) touched.now }
    ensures { OfStatements graph.now (λ entries. OnOk result (Fills graph.now entries folder.now
        (map (path_at (files_of graph.now)) files.now) (map (λ edge. edge.0) touched.now)
        paths.old paths.new)) }
{
    add_all_outputs(alloc, &mut paths.outputs, folder, graph)?;
    add_all_made(alloc, &mut paths.made, folder, graph)?;
    let edges = graph.edges_at(touched);
    add_outputs_of(alloc, &mut paths.affected, folder, edges)?;
    add_needing(alloc, &mut paths.needing, folder, graph, files, touched)?;
    add_noticed(
        alloc,
        keys,
        &mut paths.noticed,
        folder,
        graph,
        &paths.changed,
        files,
        touched,
    )
}

/// Adds the full paths of the outputs of edges that need one of the given files, or an output of
/// one of the given edges, by inputs of any kind.
fn add_needing(
    alloc: Global,
    names: &mut Names,
    folder: &[u8],
    graph: &Graph,
    files: &[FileNo],
    touched: &[EdgeNo],
) -> Result<(), AllocError>
    requires files { All (λ file. file.0 < length (files_of graph.now)) files.now }
    requires touched { All (λ edge. edge.0 < length (edges_of graph.now)) touched.now }
    ensures { OnOk result ((needers : List ℕ) × ((edge : ℕ) → Contains needers edge
        ↔ IsAffected (edges_of graph.now) (map (path_at (files_of graph.now)) files.now
        ++ outputs_at (edges_of graph.now) (map (λ edge. edge.0) touched.now)) edge)
        × HasMore names.old (full_paths folder.now (outputs_at (edges_of graph.now) needers))
        names.new) }
{
    let needed = with_outputs(alloc, graph, files, touched)?;
    let needers = graph.affected_by(alloc, &needed)?;
    add_outputs_of(alloc, names, folder, graph.edges_at(&needers))
}

/// Returns the given files, and the outputs of the given edges.
fn with_outputs(
    alloc: Global,
    graph: &Graph,
    files: &[FileNo],
    touched: &[EdgeNo],
) -> Result<Vec<FileNo>, AllocError>
    requires files { All (λ file. file.0 < length (files_of graph.now)) files.now }
    requires touched { All (λ edge. edge.0 < length (edges_of graph.now)) touched.now }
    ensures paths { IfOk result (λ all. map (path_at (files_of graph.now)) all.items
        ≡ map (path_at (files_of graph.now)) files.now
        ++ outputs_at (edges_of graph.now) (map (λ edge. edge.0) touched.now)) }
    ensures known { IfOk result (λ all.
        All (λ file. file.0 < length (files_of graph.now)) all.items) }
{
    let mut all = Vec::from_slice(alloc, files)?;
    'edges: for edge in graph.edges_at(touched) {
        all.extend_from_slice(edge.outputs().numbers())?;
    }
    Ok(all)
}
