//! Which of the given files the manifest is made from.

ghost use Rattle.std.specs.Prelude.{◌<◌, length, map, All, IfOk};
ghost use Rattle.nj_ask.specs.Cited.{files_of, TellMadeFrom};

use crate::manifest::Manifest;
use crate::opened::opened_files;
use nj_graph::{FileNo, Graph, HashKeys};
use std::alloc::{AllocError, Global};

/// Returns for each file whether the manifest is made from it: whether it was opened, or is an
/// input of an edge that makes an opened file or has a value of `generator`, or that such an edge
/// needs through any chain of inputs. A change of the file may change everything. `keys` are for a
/// table of paths.
///
/// Takes time in proportion to the graph. Fails only if an allocation fails.
pub fn made_from(
    alloc: Global,
    graph: &Graph,
    keys: HashKeys,
    files: &[FileNo],
) -> Result<Vec<bool>, AllocError>
    requires { All (λ file. file.0 < length (files_of graph.now)) files.now }
    ensures { IfOk result (λ made.
        TellMadeFrom graph.now (map (λ file. file.0) files.now) made.items) }
{
    let opened = opened_files(alloc, graph, keys, &[])?;
    let affected = graph.affected_by(alloc, files)?;
    let manifest = Manifest::new(alloc, graph, &opened, &affected)?;
    let mut made = Vec::new(alloc);
    'files: for file in files {
        made.push(manifest.is_made_from(graph, *file))?;
    }
    Ok(made)
}
