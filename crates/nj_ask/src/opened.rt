//! The files that were opened.

ghost use Rattle.std.specs.Prelude.{◌≡◌, ◌<◌, IfOk, Some, length, slice_get};
ghost use Rattle.nj_ask.specs.Cited.{opened_paths, AreAt, SameNames};

use crate::changes::{FilesAt, files_at};
use nj_changes::full_path;
use nj_graph::{FileNo, Graph, HashKeys};
use nj_names::Names;
use std::alloc::{AllocError, Global};

/// The files of a graph that were opened, by the working directory.
pub fn opened_files(
    alloc: Global,
    graph: &Graph,
    keys: HashKeys,
    working: &[u8],
) -> Result<Vec<FileNo>, AllocError>
    ensures { IfOk result (λ files.
        AreAt graph.now working.now (opened_paths graph.now working.now) files.items) }
{
    let paths = opened_paths(alloc, graph, keys, working)?;
    let none = Names::new(alloc, keys);
    let FilesAt { opened, .. } = files_at(alloc, graph, working, &none, &paths)?;
    Ok(opened)
}

/// A table of the full paths of the main file and of all files that it includes, with the given
/// keys.
pub fn opened_paths(
    alloc: Global,
    graph: &Graph,
    keys: HashKeys,
    working: &[u8],
) -> Result<Names, AllocError>
    ensures { IfOk result (λ paths. SameNames paths (opened_paths graph.now working.now)) }
{
    let mut paths = Names::new(alloc, keys);
    'openings: for index in 0..graph.opening_count() {
        let full = opened_path(alloc, graph, working, index)?;
        paths.add(&full)?;
    }
    Ok(paths)
}

/// The full path of the file that was opened at an index.
pub(crate) fn opened_path(
    alloc: Global,
    graph: &Graph,
    working: &[u8],
    index: usize,
) -> Result<Vec<u8>, AllocError>
    requires { index < length graph.now.origins.openings }
    ensures { IfOk result (λ path. slice_get (opened_paths graph.now working.now) index
        ≡ Some path.items) }
{
    match graph.opening(index) {
        Some(opening) => full_path(alloc, working, opening.path),
        None => unreachable!(),
    }
}
