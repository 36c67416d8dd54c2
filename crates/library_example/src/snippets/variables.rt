//! The values of variables for an edge.

use crate::snippets::lines::append_line;
use ninja::Graph;
use std::alloc::{AllocError, Global};

/// Appends the commands of all edges, a line each.
pub fn append_commands(text: &mut Vec<u8>, graph: &Graph) -> Result<(), AllocError> {
    for edge in graph.edges() {
        if !edge.is_phony() {
            edge.append_variable(text, b"command")?;
            text.push(b'\n')?;
        }
    }
    Ok(())
}

/// Appends the commands that have a response file, with its content in the place of its name.
pub fn append_whole_commands(
    alloc: Global,
    text: &mut Vec<u8>,
    graph: &Graph,
) -> Result<(), AllocError> {
    for edge in graph.edges() {
        if !edge.variable(alloc, b"rspfile")?.is_empty() {
            append_line(text, &[&edge.command_with_rsp(alloc)?])?;
        }
    }
    Ok(())
}

/// Appends the pool and the dyndep file of each edge that has one.
pub fn append_assigned(text: &mut Vec<u8>, graph: &Graph) -> Result<(), AllocError> {
    for edge in graph.edges() {
        if let Some(pool) = edge.pool() {
            append_line(text, &[edge.rule_name(), b" runs in ", pool])?;
        }
        if let Some(file) = edge.dyndep() {
            append_line(text, &[edge.rule_name(), b" is bound to ", file])?;
        }
    }
    Ok(())
}
