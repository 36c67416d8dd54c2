//! The declarations of files: rules, pools and variables.

use crate::snippets::lines::append_line;
use ninja::{Graph, Rule, ScopeNo};
use std::alloc::{AllocError, Global};

/// Appends the rules of all scopes, with their lines as they are written.
pub fn append_rules(alloc: Global, text: &mut Vec<u8>, graph: &Graph) -> Result<(), AllocError> {
    for rule in graph.rules() {
        append_line(text, &[b"rule ", rule.name()])?;
        append_rule_lines(alloc, text, rule)?;
    }
    Ok(())
}

/// Appends the lines of a rule.
fn append_rule_lines(alloc: Global, text: &mut Vec<u8>, rule: &Rule) -> Result<(), AllocError> {
    for index in 0..rule.line_count() {
        let value = rule.line_value(index).written(alloc)?;
        append_line(text, &[b"  ", rule.line_key(index), b" = ", &value])?;
    }
    Ok(())
}

/// Appends the names of the pools.
pub fn append_pools(text: &mut Vec<u8>, graph: &Graph) -> Result<(), AllocError> {
    for index in 0..graph.pool_count() {
        if let Some(name) = graph.pool_name(index) {
            append_line(text, &[b"pool ", name])?;
        }
    }
    Ok(())
}

/// Appends the value of `builddir` at the end of each scope that binds it, or one around it.
pub fn append_build_folders(text: &mut Vec<u8>, graph: &Graph) -> Result<(), AllocError> {
    for number in 0..graph.scope_count() {
        if let Some(folder) = graph.scope_value(ScopeNo(number), b"builddir") {
            append_line(text, &[b"builddir ", folder])?;
        }
    }
    Ok(())
}
