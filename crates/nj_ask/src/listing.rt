//! The requested outputs of edges.

ghost use Rattle.std.specs.Prelude.{◌≡◌, ◌++◌, ◌<◌, All, IfOk, OnOk, length, map, option_map, string_bytes};
ghost use Rattle.nj_ask.specs.Cited.{rule_name, detail_of_edge, edge_of, output_lines, path_lines, flat_map, edge_at, is_among, outputs_of, edges_of, asked_of, is_asked_for, is_of_rules, line, line_of_output, lines_of_outputs, rule_names, unknown_rule};

use nj_graph::{Edge, Edges, Files, Graph};
use std::alloc::{AllocError, Global};

/// Which outputs are listed.
#[derive(Clone, Copy)]
pub struct Listed<'a> {
    /// The rules of their edges; any rule if empty.
    pub rules: &'a [String],
    /// How their paths begin.
    pub prefix: &'a str,
    /// Whether the outputs of phony edges are left out.
    pub no_phony: bool,
}

/// The first of the given names that no rule of any scope has; `phony` is a rule too.
pub fn unknown_rule<'a>(graph: &Graph, names: &'a [String]) -> Option<&'a str>
    ensures { option_map (λ name. name.now) result
        ≡ unknown_rule graph.now (map string_bytes names.entry.now) }
{
    'names: for name in names {
        if !is_rule(graph, name.as_bytes()) {
            return Some(name.as_str());
        }
    }
    None
}

/// Whether a rule of any scope has the given name.
fn is_rule(graph: &Graph, name: &[u8]) -> bool
    ensures { result ≡ is_among (rule_names graph.now) name.now }
{
    graph.rules().iter().any(|rule| name == rule.name())
}

/// The requested outputs of the given edges, a line each, in the order of the edges.
pub fn list_outputs(
    alloc: Global,
    edges: Edges<'_>,
    listed: Listed<'_>,
) -> Result<Vec<u8>, AllocError>
    ensures { IfOk result (λ lines. lines.items
        ≡ output_lines (asked_of listed.entry) edges.entry) }
{
    let mut lines = Vec::new(alloc);
    'edges: for edge in edges {
        push_outputs(&mut lines, edge, listed)?;
    }
    Ok(lines)
}

/// Appends the requested outputs of an edge.
fn push_outputs(lines: &mut Vec<u8>, edge: Edge<'_>, listed: Listed<'_>) -> Result<(), AllocError>
    ensures { OnOk result (lines.new.items ≡ lines.old.items ++ lines_of_outputs
        (edge_of edge.entry).graph (asked_of listed.entry) (edge_of edge.entry).number) }
{
    if is_asked_for(edge, listed) {
        push_paths(lines, edge.outputs(), listed.prefix)?;
    }
    Ok(())
}

/// Appends the paths of files that begin with the prefix.
fn push_paths(lines: &mut Vec<u8>, files: Files<'_>, prefix: &str) -> Result<(), AllocError>
    ensures { OnOk result (lines.new.items ≡ lines.old.items
        ++ path_lines prefix.now files.entry) }
{
    'files: for file in files {
        push_path(lines, file.path(), prefix)?;
    }
    Ok(())
}

/// Appends a path as a line if it begins with the prefix.
fn push_path(lines: &mut Vec<u8>, path: &[u8], prefix: &str) -> Result<(), AllocError>
    ensures { OnOk result (lines.new.items ≡ lines.old.items
        ++ line_of_output prefix.now path.now) }
{
    if path.starts_with(prefix.as_bytes()) {
        push_line(lines, path)?;
    }
    Ok(())
}

/// Whether outputs of an edge are requested.
fn is_asked_for(edge: Edge<'_>, listed: Listed<'_>) -> bool
    ensures { result ≡ is_asked_for (edge_of edge.entry).graph (asked_of listed.entry)
        (edge_of edge.entry).number }
{
    is_of_rules(listed.rules, rule_of(edge)) && !(listed.no_phony && edge.is_phony())
}

/// The name of the rule of an edge.
pub fn rule_of(edge: Edge<'_>) -> &[u8]
    ensures { result.now ≡ rule_name (edge_of edge.entry).graph.declarations.rules
        (detail_of_edge (edge_of edge.entry)).rule }
{
    edge.graph().rule_name(edge.number())
}

/// Whether a rule is among the given ones, or none are given.
fn is_of_rules(rules: &[String], name: &[u8]) -> bool
    ensures { result ≡ is_of_rules (map string_bytes rules.now) name.now }
{
    rules.is_empty() || is_named(rules, name)
}

/// Whether a name is among the words.
fn is_named(words: &[String], name: &[u8]) -> bool
    ensures { result ≡ is_among (map string_bytes words.now) name.now }
{
    words.iter().any(|word| name == word.as_bytes())
}

/// Appends a path as a line.
pub fn push_line(lines: &mut Vec<u8>, path: &[u8]) -> Result<(), AllocError>
    ensures { OnOk result (lines.new.items ≡ lines.old.items ++ line path.now) }
{
    lines.extend_from_slice(path)?;
    lines.push(b'\n')?;
    Ok(())
}
