//! Targets, as arguments of a user name them.

use crate::snippets::edges::append_inputs;
use crate::snippets::lines::append_line;
use ninja::{Error, Graph};
use std::alloc::{AllocError, Global};

/// Appends the inputs of the edge that makes the file of an argument: a path, or `PATH^` for the
/// first output that is made from it.
pub fn append_target(
    alloc: Global,
    text: &mut Vec<u8>,
    graph: &Graph,
    word: &[u8],
) -> Result<(), Error> {
    let target = graph.target(alloc, word)?;
    append_line(text, &[b"target ", target.path()])?;
    if let Some(edge) = target.maker() {
        append_inputs(text, edge)?;
    }
    Ok(())
}

/// Appends the targets of a run without arguments: those of the `default` lines, or the roots.
pub fn append_defaults(text: &mut Vec<u8>, graph: &Graph) -> Result<(), AllocError> {
    for target in graph.default_files() {
        append_line(text, &[b"default ", target.path()])?;
    }
    Ok(())
}
