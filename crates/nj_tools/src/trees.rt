//! Trees of targets' inputs.

ghost use Rattle.std.specs.Prelude.{◌≡◌, ◌+◌, ◌++◌, [], ◌∷◌, length, map, OnOk};
ghost use Rattle.nj_tools.specs.Cited.{OfStatements, maker_of, edges_of, file_of, files_in, IsSame, PutsText, file_line, indent, inputs_of_maker, levels_of, trees_text, rows_left};

use crate::output::Output;
use crate::sinks::Sink;
use crate::text_lines::append_line;
use crate::tool_fault::ToolFault;
use nj_graph::{File, Files, Graph};
use std::alloc::{AllocError, Global};

/// Writes the trees of the roots: each file, then the inputs of its maker, one level deeper, and so
/// on, for the given number of levels; 0 means all levels.
pub(crate) fn write_trees<S: Sink>(
    alloc: Global,
    graph: &Graph,
    depth: u32,
    out: &mut Output<'_, S>,
) -> Result<(), ToolFault>
    ensures same { IsSame out.old out.new }
    ensures text { OfStatements graph.now (λ entries.
        PutsText S.state out.old out.new (trees_text entries depth) result) }
{
    let below = levels_below(graph, depth);
    // The rest of each row of files: the roots at the bottom, the deepest row on top.
    let mut rows = Vec::new(alloc);
    rows.push(graph.root_files())?;
    'files: while let Some(mut row) = rows.pop() {
        let Some(file) = row.next() else {
            continue;
        };
        append_at_depth(out.pending, rows.len(), file)?;
        out.write_block()?;
        push_rows(below, file, row, &mut rows)?;
    }
    Ok(())
}

// How many of the requested levels are below the roots.
fn levels_below(graph: &Graph, depth: u32) -> usize
    ensures { result + 1 ≡ levels_of (edges_of graph.now) depth }
{
    match depth {
        0 => graph.edge_count(),
        _ => depth as usize - 1,
    }
}

// Pushes the rest of a file's row back, and then the inputs of the file's maker, unless the file is
// on the last level.
fn push_rows<'g>(
    below: usize,
    file: File<'g>,
    others: Files<'g>,
    rows: &mut Vec<Files<'g>>,
) -> Result<(), AllocError>
    ensures { OnOk result (rows.new.items
        ≡ rows_left (below + 1) rows.old.items (file_of file.entry) others.entry) }
{
    rows.push(others)?;
    if rows.len() <= below {
        rows.push(inputs_of_maker(file))?;
    }
    Ok(())
}

// The inputs of a file's maker.
fn inputs_of_maker<'g>(file: File<'g>) -> Files<'g>
    ensures { result ≡ files_in (file_of file.entry).graph
        (inputs_of_maker (edges_of (file_of file.entry).graph)
        (maker_of (edges_of (file_of file.entry).graph) (file_of file.entry).path)) }
{
    match file.maker() {
        Some(edge) => edge.inputs(),
        None => file.graph().files_at(&[]),
    }
}

// Appends a file at a depth, with the rule of the edge that makes it.
fn append_at_depth(text: &mut Vec<u8>, depth: usize, file: File<'_>) -> Result<(), AllocError>
    ensures { OfStatements (file_of file.entry).graph (λ entries. OnOk result (text.new.items
        ≡ text.old.items ++ (indent depth ++ file_line entries
        (maker_of (edges_of (file_of file.entry).graph) (file_of file.entry).path)
        (file_of file.entry).path))) }
{
    append_indent(text, depth)?;
    text.extend_from_slice(file.path())?;
    match file.maker() {
        Some(edge) => append_line(text, b": ", edge.rule_name()),
        None => append_line(text, b"", b""),
    }
}

// Appends two spaces for each level above the file.
fn append_indent(text: &mut Vec<u8>, depth: usize) -> Result<(), AllocError>
    ensures { OnOk result (text.new.items ≡ text.old.items ++ indent depth) }
{
    'levels: for _ in 0..depth {
        text.extend_from_slice(b"  ")?;
    }
    Ok(())
}
