//! The files that a load wants.

ghost use Rattle.std.specs.Prelude.{◌≡◌, List, map, bytes_eq, if◌then◌else◌, IfOk, OnOk};
ghost use Rattle.nj_c.specs.Cited.{OfStatements, filter, with_name, each_once, ReadStatement, wanted_paths, ReadsAsSupplied, dyndeps_of, is_lacking, lacking_dyndeps, paths_or, paths_to_load, AreStatements};

use crate::supplied_files::SuppliedFiles;
use nj_edges::{FileNo, Files};
use nj_graph::{Cause, EdgeNo, Graph, GraphFault, Loaded};
use nj_scope::FileSource;
use std::alloc::{AllocError, Global};

/// The paths that are wanted after the main file was loaded, with all that it includes.
pub(crate) fn wanted_after(
    alloc: Global,
    files: &SuppliedFiles,
    loaded: &Result<Loaded, GraphFault>,
    joins: bool,
) -> Result<Vec<Vec<u8>>, AllocError>
    ensures wanted { (entries : List ReadStatement) → AreStatements loaded.now entries
        → IfOk result (λ paths. map (λ p. p.items) paths.items
        ≡ paths_to_load files.now joins loaded.now) }
    ensures found { ReadsAsSupplied files.now }
{
    match loaded {
        Ok(loaded) => wanted_with(alloc, files, loaded.graph(), joins),
        Err(fault) => wanted_with_fault(alloc, files, fault),
    }
}

// Where a fault ended the load: the paths that were read and not supplied.
fn wanted_with_fault(
    alloc: Global,
    files: &SuppliedFiles,
    fault: &GraphFault,
) -> Result<Vec<Vec<u8>>, AllocError>
    ensures wanted { IfOk result (λ paths. map (λ p. p.items) paths.items
        ≡ wanted_paths files.now) }
    ensures found { ReadsAsSupplied files.now }
{
    let wanted = files.wanted(alloc)?;
    if matches!(fault.cause, Cause::OutOfMemory) {
        return Err(AllocError);
    }
    Ok(wanted)
}

// Where the load has a graph: the same paths, or without any, the dyndep files.
fn wanted_with(
    alloc: Global,
    files: &SuppliedFiles,
    graph: &Graph,
    joins: bool,
) -> Result<Vec<Vec<u8>>, AllocError>
    ensures wanted { OfStatements graph.now (λ entries.
        IfOk result (λ paths. map (λ p. p.items) paths.items
        ≡ paths_or (wanted_paths files.now) (lacking_dyndeps files.now joins graph.now))) }
    ensures found { ReadsAsSupplied files.now }
{
    let wanted = files.wanted(alloc)?;
    if joins && wanted.as_slice().is_empty() {
        drop(wanted);
        return dyndeps_to_load(alloc, files, graph);
    }
    Ok(wanted)
}

// The dyndep files to which edges are bound and that were not supplied, without duplicates.
fn dyndeps_to_load(
    alloc: Global,
    files: &SuppliedFiles,
    graph: &Graph,
) -> Result<Vec<Vec<u8>>, AllocError>
    ensures { OfStatements graph.now (λ entries.
        IfOk result (λ paths. map (λ p. p.items) paths.items
        ≡ each_once bytes_eq (filter (is_lacking files.now) (dyndeps_of graph.now)))) }
{
    let lacking = lacking_dyndeps(alloc, files, graph)?;
    let paths = copied_paths(alloc, &lacking);
    drop(lacking);
    paths
}

// The same, in a table.
fn lacking_dyndeps(alloc: Global, files: &SuppliedFiles, graph: &Graph) -> Result<Files, AllocError>
    ensures { OfStatements graph.now (λ entries. IfOk result (λ lacking. lacking
        ≡ each_once bytes_eq (filter (is_lacking files.now) (dyndeps_of graph.now)))) }
{
    let mut lacking = Files::new(alloc, files.hash_keys());
    'edges: for number in 0..graph.edge_count() {
        if let Some(path) = graph.edge_at(EdgeNo(number)).dyndep() {
            name_if_lacking(files, path, &mut lacking)?;
        }
    }
    Ok(lacking)
}

/// Adds a path to a table if it was not supplied.
pub(crate) fn name_if_lacking(
    files: &SuppliedFiles,
    path: &[u8],
    lacking: &mut Files,
) -> Result<(), AllocError>
    ensures { OnOk result (lacking.new
        ≡ (if is_lacking files.now path.now then with_name lacking.old path.now
        else lacking.old)) }
{
    if is_lacking(files, path) {
        lacking.name(path)?;
    }
    Ok(())
}

// Whether nothing was supplied for a path; a path that is not UTF-8 is never read.
fn is_lacking(files: &SuppliedFiles, path: &[u8]) -> bool
    ensures { result ≡ is_lacking files.now path.now }
{
    match str::from_utf8(path) {
        Ok(_) => !files.has(path),
        Err(_) => false,
    }
}

/// The paths of a table, in its order.
pub(crate) fn copied_paths(alloc: Global, files: &Files) -> Result<Vec<Vec<u8>>, AllocError>
    ensures { IfOk result (λ paths. map (λ p. p.items) paths.items ≡ files.now) }
{
    let mut paths = Vec::new(alloc);
    'files: for number in 0..files.count() {
        let path = Vec::from_slice(alloc, files.path(FileNo(number)))?;
        paths.push(path)?;
    }
    Ok(paths)
}
