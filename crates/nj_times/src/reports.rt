//! What is written of where the time of a build went.

ghost use Rattle.std.specs.Prelude.{◌≡◌, ◌++◌, ◌<◌, ℕ, All, IfOk, OnOk, codes, false, length, map, reverse, true};
ghost use Rattle.nj_times.specs.Cited.{AreNeededBy, AreShown, IsReport, IsStrictlyIncreasing, commands_in, compact_text, decimal, duration_text, duration_value, edge_line, flat_map, output_of, path_at, report_text, seconds, string, summary, summary_of, utf8_lossy};

use crate::edge_times::{duration_at, durations, first_output, sum_of, unknown_of};
use crate::path::critical_path;
use crate::slow_edges::slowest;
use nj_build_log::BuildLog;
use nj_edges::{EdgeGraph, EdgeNo, FileNo};
use serde_json::Value;
use std::alloc::{AllocError, Global};

/// The sums of a report.
#[derive(Clone, Copy)]
struct Sums {
    commands: usize,
    unknown: usize,
    sum: u128,
    critical: u128,
}

/// The report on the edges that files need: a line with the number of commands, the number of
/// unknown durations, the sum of the others and that of the critical path; then a line for each
/// edge of the critical path, from its first edge to its last, or for each of the `top` slowest
/// commands. With `is_json` the lines are objects of JSON.
///
/// Takes time in proportion to all edges and their inputs, and to the needed edges times the
/// logarithm of their number. Fails only if an allocation fails.
pub fn report(
    alloc: Global,
    graph: &EdgeGraph,
    log: &BuildLog,
    files: &[FileNo],
    top: Option<usize>,
    is_json: bool,
) -> Result<Vec<u8>, AllocError>
    requires { All (λ file. file.0 < length graph.now.files) files.now }
    ensures { IfOk result (λ text. IsReport graph.now.edges log.now.lines
        (map (path_at graph.now.files) files.now) top is_json text.items) }
{
    let durations = durations(alloc, graph, log)?;
    let needed = needed_edges(alloc, graph, files)?;
    let commands = commands_in(alloc, graph, &needed)?;
    let path = critical_path(alloc, graph, &durations, &needed)?;
    let shown = shown_of(alloc, &durations, top, &commands, &path)?;
    written(alloc, graph, &durations, is_json, &commands, &path, &shown)
}

/// The edges that files need, in the order of the manifest.
pub(crate) fn needed_edges(
    alloc: Global,
    graph: &EdgeGraph,
    files: &[FileNo],
) -> Result<Vec<EdgeNo>, AllocError>
    requires { All (λ file. file.0 < length graph.now.files) files.now }
    ensures needed { IfOk result (λ needed. AreNeededBy graph.now.edges
        (map (path_at graph.now.files) files.now) (map (λ edge. edge.0) needed.items)) }
    ensures rises { IfOk result (λ needed.
        IsStrictlyIncreasing (map (λ edge. edge.0) needed.items)) }
    ensures known { IfOk result (λ needed.
        All (λ edge. edge.0 < length graph.now.edges) needed.items) }
{
    let mut needed = graph.needed_by(alloc, files)?;
    needed.sort_unstable_by_key(|edge| edge.0);
    Ok(needed)
}

// The text of a report.
fn written(
    alloc: Global,
    graph: &EdgeGraph,
    durations: &[Option<u64>],
    is_json: bool,
    commands: &[EdgeNo],
    path: &[EdgeNo],
    shown: &[EdgeNo],
) -> Result<Vec<u8>, AllocError>
    requires { All (λ edge. edge.0 < length graph.now.edges) shown.now }
    ensures { IfOk result (λ text. text.items ≡ report_text graph.now.edges durations.now is_json
        (map (λ edge. edge.0) commands.now) (map (λ edge. edge.0) path.now)
        (map (λ edge. edge.0) shown.now)) }
{
    let mut text = summary_of(alloc, durations, is_json, commands, path)?;
    push_edges(&mut text, graph, durations, is_json, shown)?;
    Ok(text)
}

/// Of the given edges, those with a command.
pub(crate) fn commands_in(
    alloc: Global,
    graph: &EdgeGraph,
    edges: &[EdgeNo],
) -> Result<Vec<EdgeNo>, AllocError>
    requires { All (λ edge. edge.0 < length graph.now.edges) edges.now }
    ensures commands { IfOk result (λ commands. map (λ edge. edge.0) commands.items
        ≡ commands_in graph.now.edges (map (λ edge. edge.0) edges.now)) }
    ensures known { IfOk result (λ commands.
        All (λ edge. edge.0 < length graph.now.edges) commands.items) }
{
    let mut commands = Vec::new(alloc);
    'edges: for edge in edges {
        if !graph.is_phony(*edge) {
            commands.push(*edge)?;
        }
    }
    Ok(commands)
}

// The edges that have lines.
fn shown_of(
    alloc: Global,
    durations: &[Option<u64>],
    top: Option<usize>,
    commands: &[EdgeNo],
    path: &[EdgeNo],
) -> Result<Vec<EdgeNo>, AllocError>
    ensures shown { IfOk result (λ shown. AreShown durations.now top
        (map (λ edge. edge.0) commands.now) (map (λ edge. edge.0) path.now)
        (map (λ edge. edge.0) shown.items)) }
    ensures known { (limit : ℕ) → All (λ edge. edge.0 < limit) commands.now
        → All (λ edge. edge.0 < limit) path.now
        → IfOk result (λ shown. All (λ edge. edge.0 < limit) shown.items) }
{
    match top {
        Some(count) => slowest(alloc, durations, commands, count),
        None => reversed(alloc, path),
    }
}

// The edges in the other direction.
fn reversed(alloc: Global, edges: &[EdgeNo]) -> Result<Vec<EdgeNo>, AllocError>
    ensures turned { IfOk result (λ turned.
        map (λ edge. edge.0) turned.items ≡ reverse (map (λ edge. edge.0) edges.now)) }
    ensures known { (limit : ℕ) → All (λ edge. edge.0 < limit) edges.now
        → IfOk result (λ turned. All (λ edge. edge.0 < limit) turned.items) }
{
    let mut turned = Vec::from_slice(alloc, edges)?;
    turned.reverse();
    Ok(turned)
}

// ---- texts

/// The first line, by the commands and the critical path.
pub(crate) fn summary_of(
    alloc: Global,
    durations: &[Option<u64>],
    is_json: bool,
    commands: &[EdgeNo],
    path: &[EdgeNo],
) -> Result<Vec<u8>, AllocError>
    ensures { IfOk result (λ text. text.items ≡ summary_of durations.now is_json
        (map (λ edge. edge.0) commands.now) (map (λ edge. edge.0) path.now)) }
{
    let sums = Sums {
        commands: commands.len(),
        unknown: unknown_of(durations, commands),
        sum: sum_of(durations, commands),
        critical: sum_of(durations, path),
    };
    summary(alloc, is_json, sums)
}

// The first line.
fn summary(alloc: Global, is_json: bool, sums: Sums) -> Result<Vec<u8>, AllocError>
    ensures { IfOk result (λ text. text.items
        ≡ summary is_json sums.commands sums.unknown sums.sum sums.critical) }
{
    if is_json {
        return summary_object(alloc, sums);
    }
    summary_words(alloc, sums)
}

// The first line in JSON.
fn summary_object(alloc: Global, sums: Sums) -> Result<Vec<u8>, AllocError>
    ensures { IfOk result (λ text. text.items
        ≡ summary true sums.commands sums.unknown sums.sum sums.critical) }
{
    let mut text = Vec::new(alloc);
    push_number(&mut text, b"{\"commands\":", sums.commands as u128)?;
    push_number(&mut text, b",\"unknown\":", sums.unknown as u128)?;
    push_sums(&mut text, sums)?;
    Ok(text)
}

// Appends the sums in JSON, after the numbers of commands.
fn push_sums(text: &mut Vec<u8>, sums: Sums) -> Result<(), AllocError>
    ensures { OnOk result (text.new.items ≡ text.old.items ++ (codes ",\"sum\":"
        ++ decimal sums.sum ++ codes ",\"critical_path\":" ++ decimal sums.critical
        ++ codes "}\n")) }
{
    push_number(text, b",\"sum\":", sums.sum)?;
    push_number(text, b",\"critical_path\":", sums.critical)?;
    text.extend_from_slice(b"}\n")?;
    Ok(())
}

// The first line for people.
fn summary_words(alloc: Global, sums: Sums) -> Result<Vec<u8>, AllocError>
    ensures { IfOk result (λ text. text.items
        ≡ summary false sums.commands sums.unknown sums.sum sums.critical) }
{
    let mut text = Vec::new(alloc);
    push_number(&mut text, b"commands: ", sums.commands as u128)?;
    push_number(&mut text, b", unknown: ", sums.unknown as u128)?;
    push_seconds(&mut text, b", sum: ", sums.sum)?;
    push_seconds(&mut text, b" s, critical path: ", sums.critical)?;
    text.extend_from_slice(b" s\n")?;
    Ok(text)
}

/// Appends a number after a text.
pub(crate) fn push_number(text: &mut Vec<u8>, before: &[u8], number: u128) -> Result<(), AllocError>
    ensures { OnOk result (text.new.items ≡ text.old.items ++ (before.now ++ decimal number)) }
{
    text.extend_from_slice(before)?;
    let alloc = *text.allocator();
    text.extend_from_slice(format!(in alloc; "{number}")?.as_bytes())
}

/// Appends milliseconds as seconds, after a text.
pub(crate) fn push_seconds(
    text: &mut Vec<u8>,
    before: &[u8],
    milliseconds: u128,
) -> Result<(), AllocError>
    ensures { OnOk result (text.new.items
        ≡ text.old.items ++ (before.now ++ seconds milliseconds)) }
{
    push_number(text, before, milliseconds / 1000)?;
    push_number(text, b".", milliseconds / 100 % 10)?;
    push_number(text, b"", milliseconds / 10 % 10)?;
    push_number(text, b"", milliseconds % 10)
}

// Appends a line for each of the edges.
fn push_edges(
    text: &mut Vec<u8>,
    graph: &EdgeGraph,
    durations: &[Option<u64>],
    is_json: bool,
    edges: &[EdgeNo],
) -> Result<(), AllocError>
    requires { All (λ edge. edge.0 < length graph.now.edges) edges.now }
    ensures { OnOk result (text.new.items ≡ text.old.items
        ++ flat_map (edge_line graph.now.edges durations.now is_json)
        (map (λ edge. edge.0) edges.now)) }
{
    'edges: for edge in edges {
        push_edge(text, graph, durations, is_json, *edge)?;
    }
    Ok(())
}

/// Appends the line of an edge.
pub(crate) fn push_edge(
    text: &mut Vec<u8>,
    graph: &EdgeGraph,
    durations: &[Option<u64>],
    is_json: bool,
    edge: EdgeNo,
) -> Result<(), AllocError>
    requires { edge.0 < length graph.now.edges }
    ensures { OnOk result (text.new.items ≡ text.old.items
        ++ edge_line graph.now.edges durations.now is_json edge.0) }
{
    let duration = duration_at(durations, edge);
    let output = output_of(graph, edge);
    if is_json {
        push_object(text, duration, output)
    } else {
        push_words(text, duration, output)
    }
}

/// The first output of an edge; empty if it has none.
pub(crate) fn output_of(graph: &EdgeGraph, edge: EdgeNo) -> &[u8]
    requires { edge.0 < length graph.now.edges }
    ensures { result.now ≡ output_of graph.now.edges edge.0 }
{
    match first_output(graph, edge) {
        Some(output) => output,
        None => b"",
    }
}

// Appends a line for people.
fn push_words(text: &mut Vec<u8>, duration: Option<u64>, output: &[u8]) -> Result<(), AllocError>
    ensures { OnOk result (text.new.items ≡ text.old.items
        ++ (duration_text duration ++ codes " " ++ output.now ++ codes "\n")) }
{
    push_duration(text, duration)?;
    text.extend_from_slice(b" ")?;
    text.extend_from_slice(output)?;
    text.extend_from_slice(b"\n")
}

// Appends a duration for people.
fn push_duration(text: &mut Vec<u8>, duration: Option<u64>) -> Result<(), AllocError>
    ensures { OnOk result (text.new.items ≡ text.old.items ++ duration_text duration) }
{
    match duration {
        Some(milliseconds) => {
            push_seconds(text, b"", u128::from(milliseconds))?;
            text.extend_from_slice(b" s")
        }
        None => text.extend_from_slice(b"unknown"),
    }
}

// Appends a line of JSON.
fn push_object(text: &mut Vec<u8>, duration: Option<u64>, output: &[u8]) -> Result<(), AllocError>
    ensures { OnOk result (text.new.items ≡ text.old.items
        ++ (codes "{\"milliseconds\":" ++ duration_value duration ++ codes ",\"output\":"
        ++ compact_text (string (utf8_lossy output.now)) ++ codes "}\n")) }
{
    text.extend_from_slice(b"{\"milliseconds\":")?;
    push_value(text, duration)?;
    text.extend_from_slice(b",\"output\":")?;
    push_string(text, output)?;
    text.extend_from_slice(b"}\n")
}

/// Appends a duration in JSON.
pub(crate) fn push_value(text: &mut Vec<u8>, duration: Option<u64>) -> Result<(), AllocError>
    ensures { OnOk result (text.new.items ≡ text.old.items ++ duration_value duration) }
{
    match duration {
        Some(milliseconds) => push_number(text, b"", u128::from(milliseconds)),
        None => text.extend_from_slice(b"null"),
    }
}

/// Appends a text as a string in JSON, with U+FFFD for invalid UTF-8.
pub(crate) fn push_string(text: &mut Vec<u8>, output: &[u8]) -> Result<(), AllocError>
    ensures { OnOk result (text.new.items
        ≡ text.old.items ++ compact_text (string (utf8_lossy output.now))) }
{
    let alloc = *text.allocator();
    let output = String::from_utf8_lossy(alloc, output)?;
    let string = Value::try_from_str(alloc, &output)?.to_vec(alloc)?;
    text.extend_from_slice(&string)
}
