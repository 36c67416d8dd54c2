//! The files from which files are made, and the files made from them.

ghost use Rattle.std.specs.Prelude.{◌≡◌, ◌<◌, ◌++◌, All, Some, OnOk, length, map};
ghost use Rattle.nj_tools.specs.Cited.{OfStatements, OfEdge, path_at, edge_of, edges_of, file_of, files_of, inputs_by_kind, line, maker_of, maker_text, output_lines, paths_of, query_text, query_of_file, validated_lines, validation_lines, WritesText};

use crate::output::Output;
use crate::sinks::Sink;
use crate::text_lines::{append_line, append_paths};
use crate::tool_fault::ToolFault;
use nj_graph::{Edge, Edges, File, FileNo, Files, Graph};
use std::alloc::{AllocError, Global};

/// Writes for each of the given files the edge that makes it, with its inputs, and the outputs made
/// from the file ("Extra tools" in the Ninja manual, `query`).
///
/// # Errors
///
/// `Write` if the sink failed, and `OutOfMemory` if an allocation failed. The sink has then
/// accepted a prefix of the text.
pub fn write_query<S: Sink>(
    alloc: Global,
    graph: &Graph,
    files: &[FileNo],
    out: &mut S,
) -> Result<(), ToolFault>
    requires { All (λ file. file.0 < length (files_of graph.now)) files.now }
    ensures { OfStatements graph.now (λ entries. WritesText (S.state out.old) (S.state out.new)
        (query_text entries (map (path_at (files_of graph.now)) files.now)) result) }
{
    let mut text = Vec::new(alloc);
    let mut output = Output::new(out, &mut text);
    'files: for file in graph.files_at(files) {
        append_file(output.pending, file)?;
        output.write_block()?;
    }
    output.flush()
}

// Appends the edge that makes a file, with its inputs, and the outputs made from the file.
fn append_file(text: &mut Vec<u8>, file: File<'_>) -> Result<(), AllocError>
    ensures { OfStatements (file_of file.entry).graph (λ entries. OnOk result
        (text.new.items ≡ text.old.items ++ query_of_file entries (file_of file.entry))) }
{
    append_line(text, file.path(), b":")?;
    append_maker(text, file)?;
    append_outputs(text, b"  outputs:", file.users())?;
    append_validated(text, file.validation_users())
}

// Appends the rule, the inputs and the validations of the edge that makes a file, if any.
#[tactic(auto, unfolding(crate::specs::Queries::maker_text))]
fn append_maker(text: &mut Vec<u8>, file: File<'_>) -> Result<(), AllocError>
    ensures { OfStatements (file_of file.entry).graph (λ entries. OnOk result
        (text.new.items ≡ text.old.items ++ maker_text entries
        (edges_of (file_of file.entry).graph)
        (maker_of (edges_of (file_of file.entry).graph) (file_of file.entry).path))) }
{
    match file.maker() {
        Some(edge) => append_edge(text, edge),
        None => Ok(()),
    }
}

// Appends the rule, the inputs and the validations of an edge.
fn append_edge(text: &mut Vec<u8>, edge: Edge<'_>) -> Result<(), AllocError>
    ensures { OfEdge (edge_of edge.entry) (λ entries number. OnOk result
        (text.new.items ≡ text.old.items
        ++ maker_text entries (edges_of (edge_of edge.entry).graph) (Some number))) }
{
    append_line(text, b"  input: ", edge.rule_name())?;
    append_inputs(text, edge)?;
    append_validations(text, edge.validations())
}

// Appends the inputs of an edge by kind.
fn append_inputs(text: &mut Vec<u8>, edge: Edge<'_>) -> Result<(), AllocError>
    ensures { OnOk result
        (text.new.items ≡ text.old.items ++ inputs_by_kind (paths_of (edge_of edge.entry))) }
{
    append_paths(text, b"    ", edge.explicit_inputs())?;
    append_paths(text, b"    | ", edge.implicit_inputs())?;
    append_paths(text, b"    || ", edge.order_only_inputs())
}

// Appends validations under their title, if any.
fn append_validations(text: &mut Vec<u8>, files: Files<'_>) -> Result<(), AllocError>
    ensures { OnOk result (text.new.items ≡ text.old.items ++ validation_lines files.entry) }
{
    if files.is_empty() {
        return Ok(());
    }
    append_line(text, b"  validations:", b"")?;
    append_paths(text, b"    ", files)
}

// Appends the outputs of the edges that name a file as a validation, if any, under their title.
fn append_validated(text: &mut Vec<u8>, users: Edges<'_>) -> Result<(), AllocError>
    ensures { OnOk result (text.new.items ≡ text.old.items ++ validated_lines users.entry) }
{
    if users.is_empty() {
        return Ok(());
    }
    append_outputs(text, b"  validation for:", users)
}

// Appends the outputs of edges under a title.
fn append_outputs(text: &mut Vec<u8>, title: &[u8], edges: Edges<'_>) -> Result<(), AllocError>
    ensures { OnOk result (text.new.items
        ≡ text.old.items ++ (line title.now ++ output_lines edges.entry)) }
{
    append_line(text, title, b"")?;
    'edges: for edge in edges {
        append_paths(text, b"    ", edge.outputs())?;
    }
    Ok(())
}
