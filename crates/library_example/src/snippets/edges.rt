//! Edges, and the files that they name.

use crate::snippets::lines::append_line;
use ninja::{Edge, Files, Graph};
use std::alloc::{AllocError, Global};

/// Appends a line for each source: a file that no edge makes.
pub fn append_sources(text: &mut Vec<u8>, graph: &Graph) -> Result<(), AllocError> {
    for file in graph.files() {
        if file.maker().is_none() {
            append_line(text, &[b"source ", file.path()])?;
        }
    }
    Ok(())
}

/// Appends a line for each edge: where its statement is, and its rule.
pub fn append_edges(alloc: Global, text: &mut Vec<u8>, graph: &Graph) -> Result<(), AllocError> {
    for edge in graph.edges() {
        let place = place_text(alloc, edge)?;
        append_line(text, &[place.as_bytes(), b": ", edge.rule_name()])?;
    }
    Ok(())
}

/// Where the statement of an edge is: `FILE:LINE:COLUMN`.
fn place_text(alloc: Global, edge: Edge<'_>) -> Result<String, AllocError> {
    let place = edge.place().to_place(alloc)?;
    format!(in alloc; "{place}")
}

/// Appends a line for each input of an edge: its kind and its path.
pub fn append_inputs(text: &mut Vec<u8>, edge: Edge<'_>) -> Result<(), AllocError> {
    append_files(text, b"explicit ", edge.explicit_inputs())?;
    append_files(text, b"implicit ", edge.implicit_inputs())?;
    append_files(text, b"order-only ", edge.order_only_inputs())
}

/// Appends a line for each of the given files, which are of one kind.
fn append_files(text: &mut Vec<u8>, kind: &[u8], files: Files<'_>) -> Result<(), AllocError> {
    for file in files {
        append_line(text, &[kind, file.path()])?;
    }
    Ok(())
}
