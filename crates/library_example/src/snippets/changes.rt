//! The edges that a change affects.

use crate::snippets::lines::append_line;
use ninja::{Edges, Error, File, Graph, clean_path};
use std::alloc::{AllocError, Global};

/// Appends the outputs that are made again when the file at a path changes.
pub fn append_affected(
    alloc: Global,
    text: &mut Vec<u8>,
    graph: &Graph,
    path: &[u8],
) -> Result<(), Error> {
    let path = clean_path(alloc, path)?;
    match graph.file(&path) {
        Some(file) => append_affected_by(alloc, text, file)?,
        None => append_line(text, &[b"no edge names ", &path])?,
    }
    Ok(())
}

/// Appends the outputs of the edges that a change of a file affects.
fn append_affected_by(alloc: Global, text: &mut Vec<u8>, file: File<'_>) -> Result<(), AllocError> {
    let affected = file.affected_edges(alloc)?;
    append_outputs(text, affected.edges())
}

/// Appends the outputs of edges.
fn append_outputs(text: &mut Vec<u8>, edges: Edges<'_>) -> Result<(), AllocError> {
    for edge in edges {
        for output in edge.outputs() {
            append_line(text, &[b"affected ", output.path()])?;
        }
    }
    Ok(())
}
