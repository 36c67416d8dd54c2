//! Lists of targets.

ghost use Rattle.std.specs.Prelude.{◌≡◌, ◌++◌, All, map, bytes_eq, is_none, IfOk, OnOk};
ghost use Rattle.nj_tools.specs.Cited.{OfStatements, OfEdge, edge_of, edges_of, file_of, maker_of, IsSame, PutsText, with_paths, each_once, lines, lines_of_rule, made_line, made_lines, sorted, sources_among, outputs_of_rule, sources_in, outputs_text, targets_text, WritesText};

use crate::file_list::Collected;
use crate::output::Output;
use crate::sinks::Sink;
use crate::sorted_paths::sorted_paths;
use crate::text_lines::append_line;
use crate::tool_fault::ToolFault;
use crate::trees::write_trees;
use nj_graph::{Edge, File, Files, Graph};
use nj_requests::TargetsView;
use std::alloc::{AllocError, Global};

/// Writes a list of targets, a line each ("Extra tools" in the Ninja manual, `targets`).
///
/// # Errors
///
/// `Write` if the sink failed, and `OutOfMemory` if an allocation failed. The sink has then
/// accepted a prefix of the text.
pub fn write_targets<S: Sink>(
    alloc: Global,
    graph: &Graph,
    view: &TargetsView,
    out: &mut S,
) -> Result<(), ToolFault>
    ensures { OfStatements graph.now (λ entries.
        WritesText (S.state out.old) (S.state out.new) (targets_text entries view.now) result) }
{
    let mut text = Vec::new(alloc);
    let mut output = Output::new(out, &mut text);
    write_view(alloc, graph, view, &mut output)?;
    output.flush()
}

// Writes the list.
fn write_view<S: Sink>(
    alloc: Global,
    graph: &Graph,
    view: &TargetsView,
    out: &mut Output<'_, S>,
) -> Result<(), ToolFault>
    ensures same { IsSame out.old out.new }
    ensures text { OfStatements graph.now (λ entries.
        PutsText S.state out.old out.new (targets_text entries view.now) result) }
{
    match view {
        TargetsView::OfRule(rule) => {
            let outputs = outputs_of_rule(alloc, graph, rule.as_bytes())?;
            write_sorted(alloc, outputs.files(), out)
        }
        TargetsView::Sources => {
            let sources = sources(alloc, graph)?;
            write_sorted(alloc, sources.files(), out)
        }
        TargetsView::Depth(depth) => write_trees(alloc, graph, *depth, out),
        TargetsView::All => write_all(graph, out),
    }
}

// The outputs of the edges whose rule has the given name.
fn outputs_of_rule<'g>(
    alloc: Global,
    graph: &'g Graph,
    rule: &[u8],
) -> Result<Collected<'g>, AllocError>
    ensures graph { IfOk result (λ outputs. outputs.graph ≡ graph.entry.now) }
    ensures paths { OfStatements graph.entry.now (λ entries. IfOk result (λ outputs.
        outputs.paths ≡ each_once bytes_eq (outputs_of_rule entries rule.now))) }
{
    let mut outputs = Collected::new(alloc, graph)?;
    'edges: for edge in graph.edges() {
        if edge.rule_name() == rule {
            outputs.add_all(edge.outputs())?;
        }
    }
    Ok(outputs)
}

// The inputs that no edge makes.
fn sources<'g>(alloc: Global, graph: &'g Graph) -> Result<Collected<'g>, AllocError>
    ensures graph { IfOk result (λ sources. sources.graph ≡ graph.entry.now) }
    ensures paths { IfOk result (λ sources.
        sources.paths ≡ each_once bytes_eq (sources_in (edges_of graph.entry.now))) }
{
    let mut sources = Collected::new(alloc, graph)?;
    'edges: for edge in graph.edges() {
        add_sources(edge.inputs(), &mut sources)?;
    }
    Ok(sources)
}

// Adds the files that no edge makes.
fn add_sources(files: Files<'_>, sources: &mut Collected<'_>) -> Result<(), AllocError>
    requires { All (λ file. file.graph ≡ sources.old.graph) files }
    ensures graph { sources.new.graph ≡ sources.old.graph }
    ensures paths { OnOk result
        (sources.new.paths ≡ with_paths sources.old.paths (sources_among files.entry)) }
{
    'files: for file in files {
        if is_source(file) {
            sources.add(file)?;
        }
    }
    Ok(())
}

// Whether no edge makes a file.
fn is_source(file: File<'_>) -> bool
    ensures { result ≡ is_none (maker_of (edges_of (file_of file.entry).graph)
        (file_of file.entry).path) }
{
    file.maker().is_none()
}

// Writes the paths of files, in byte order.
fn write_sorted<S: Sink>(
    alloc: Global,
    files: Files<'_>,
    out: &mut Output<'_, S>,
) -> Result<(), ToolFault>
    ensures same { IsSame out.old out.new }
    ensures text { PutsText S.state out.old out.new
        (lines (sorted (map (λ file. file.path) files.entry))) result }
{
    let paths = sorted_paths(alloc, files)?;
    out.texts(&paths, b'\n')
}

// Writes all outputs with the rules that make them.
fn write_all<S: Sink>(graph: &Graph, out: &mut Output<'_, S>) -> Result<(), ToolFault>
    ensures same { IsSame out.old out.new }
    ensures text { OfStatements graph.now (λ entries.
        PutsText S.state out.old out.new (outputs_text entries) result) }
{
    'edges: for edge in graph.edges() {
        write_made(edge, out)?;
    }
    Ok(())
}

// Writes the outputs of an edge with its rule.
fn write_made<S: Sink>(edge: Edge<'_>, out: &mut Output<'_, S>) -> Result<(), ToolFault>
    ensures same { IsSame out.old out.new }
    ensures text { OfEdge (edge_of edge.entry) (λ entries number. PutsText S.state out.old out.new
        (made_lines entries (edge_of edge.entry)) result) }
{
    write_by_rule(edge.outputs(), edge.rule_name(), out)
}

// Writes files with the rule that makes them.
fn write_by_rule<S: Sink>(
    files: Files<'_>,
    rule: &[u8],
    out: &mut Output<'_, S>,
) -> Result<(), ToolFault>
    ensures same { IsSame out.old out.new }
    ensures text { PutsText S.state out.old out.new (lines_of_rule rule.now files.entry) result }
{
    'files: for file in files {
        append_made(out.pending, file, rule)?;
        out.write_block()?;
    }
    Ok(())
}

// Appends a file with the rule that makes it, as a line.
fn append_made(text: &mut Vec<u8>, file: File<'_>, rule: &[u8]) -> Result<(), AllocError>
    ensures { OnOk result (text.new.items
        ≡ text.old.items ++ made_line (file_of file.entry).path rule.now) }
{
    text.extend_from_slice(file.path())?;
    append_line(text, b": ", rule)
}
