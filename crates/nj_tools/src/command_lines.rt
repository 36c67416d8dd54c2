//! The commands of edges, a line each.

ghost use Rattle.std.specs.Prelude.{◌≡◌, ℕ, ◌<◌, ◌++◌, List, length, option_map, All, IfOk, OnOk};
ghost use Rattle.nj_tools.specs.Cited.{OfStatements, OfEdge, edge_in, edge_of, edges_of, file_of, files_of, written, StopsAt, command_lines, own_commands, command_line, made_by, single, AreSeen, makers_of_file, new_command, WritesText};

use crate::output::Output;
use crate::sinks::Sink;
use crate::tool_fault::ToolFault;
use nj_graph::{Edge, File, FileNo, Graph};
use nj_needs::{Mark, Needs};
use std::alloc::{AllocError, Global};

/// Writes the commands of the remaining edges of a walk over the given graph, a line each; at most
/// `take` of them if `take` is given. Returns the mark at which the walk can be resumed if edges
/// remain, and otherwise `None` ("Extra tools" in the Ninja manual, `commands`). The walk itself
/// must not be used again after this call.
///
/// # Errors
///
/// `Write` if the sink failed, and `OutOfMemory` if an allocation failed. The sink has then
/// accepted a prefix of the text.
pub fn write_commands<S: Sink>(
    alloc: Global,
    graph: &Graph,
    needs: &mut Needs<'_>,
    take: Option<u64>,
    out: &mut S,
) -> Result<Option<Mark>, ToolFault>
    requires { needs.old.graph ≡ graph.now.built.graph }
    ensures writes { OfStatements graph.now (λ entries.
        WritesText (S.state out.old) (S.state out.new)
        (command_lines entries (written take needs.old.left)) result) }
    ensures mark { IfOk result (λ mark. StopsAt needs.old take mark) }
{
    let mut text = Vec::new(alloc);
    let mut output = Output::new(out, &mut text);
    let mut room = take;
    'commands: while let Some(edge) = needs.next_on_page(&mut room) {
        append_command(output.pending, graph.edge_at(edge))?;
        output.write_block()?;
    }
    output.flush()?;
    Ok(needs.mark_after_page(alloc, room)?)
}

/// Writes the commands of the edges that make the given targets, a line each, without duplicates.
///
/// # Errors
///
/// `Write` if the sink failed, and `OutOfMemory` if an allocation failed. The sink has then
/// accepted a prefix of the text.
pub fn write_single_commands<S: Sink>(
    alloc: Global,
    graph: &Graph,
    targets: &[FileNo],
    out: &mut S,
) -> Result<(), ToolFault>
    requires { All (λ file. file.0 < length (files_of graph.now)) targets.now }
    ensures { OfStatements graph.now (λ entries. WritesText (S.state out.old) (S.state out.new)
        (command_lines entries (own_commands graph.now.built.graph targets.now)) result) }
{
    let mut seen = vec![in alloc; false; graph.edge_count()]?;
    let mut text = Vec::new(alloc);
    let mut output = Output::new(out, &mut text);
    'targets: for target in graph.files_at(targets) {
        append_new_command(output.pending, target, &mut seen)?;
        output.write_block()?;
    }
    output.flush()
}

// Appends the command of the edge that makes a file, if it has one and was not seen before.
fn append_new_command(
    text: &mut Vec<u8>,
    file: File<'_>,
    seen: &mut [bool],
) -> Result<(), AllocError>
    requires { length seen.old ≡ length (edges_of (file_of file).graph) }
    ensures seen { (earlier : List ℕ) → AreSeen (file_of file.entry).graph seen.old earlier
        → AreSeen (file_of file.entry).graph seen.new
        (earlier ++ makers_of_file (file_of file.entry)) }
    ensures text { OfStatements (file_of file.entry).graph (λ entries.
        (earlier : List ℕ) → AreSeen (file_of file.entry).graph seen.old earlier
        → OnOk result (text.new.items ≡ text.old.items
        ++ command_lines entries (made_by single (new_command (file_of file.entry) earlier)))) }
{
    match new_maker(file, seen) {
        Some(edge) => append_command(text, edge),
        None => Ok(()),
    }
}

// The edge that makes a file, if it is not phony and was not seen before. The edge is marked as
// seen.
fn new_maker<'g>(file: File<'g>, seen: &mut [bool]) -> Option<Edge<'g>>
    requires { length seen.old ≡ length (edges_of (file_of file).graph) }
    ensures seen { (earlier : List ℕ) → AreSeen (file_of file.entry).graph seen.old earlier
        → AreSeen (file_of file.entry).graph seen.new
        (earlier ++ makers_of_file (file_of file.entry)) }
    ensures new { (earlier : List ℕ) → AreSeen (file_of file.entry).graph seen.old earlier
        → option_map edge_of result ≡ option_map (edge_in (file_of file.entry).graph)
        (new_command (file_of file.entry) earlier) }
{
    let edge = file.maker()?;
    if seen[edge.number().0] {
        return None;
    }
    seen[edge.number().0] = true;
    if edge.is_phony() {
        return None;
    }
    Some(edge)
}

// Appends the command of an edge as a line.
fn append_command(text: &mut Vec<u8>, edge: Edge<'_>) -> Result<(), AllocError>
    ensures { OfEdge (edge_of edge.entry) (λ entries number. OnOk result
        (text.new.items ≡ text.old.items ++ command_line entries number)) }
{
    edge.append_variable(text, b"command")?;
    text.push(b'\n')?;
    Ok(())
}
