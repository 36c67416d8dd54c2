//! How long edges took.

ghost use Rattle.std.specs.Prelude.{◌≡◌, ◌<◌, IfOk, length, map, option_copied};
ghost use Rattle.nj_times.specs.Cited.{duration_at, duration_of, durations_of, edge_at, first_output, logged_duration, milliseconds, sum_of, time_at, unknown_of};

use nj_build_log::{BuildLog, Entry};
use nj_edges::{EdgeGraph, EdgeNo};
use std::alloc::{AllocError, Global};

/// By edge number, how many milliseconds the edge took: 0 for a phony edge, and for a command from
/// the start to the end that the last line of its first output states, or 0 if it ends before it
/// starts. `None` if the log has no such line, so that the duration is unknown.
///
/// Takes time in proportion to the edges. Fails only if an allocation fails.
pub fn durations(
    alloc: Global,
    graph: &EdgeGraph,
    log: &BuildLog,
) -> Result<Vec<Option<u64>>, AllocError>
    ensures { IfOk result (λ durations.
        durations.items ≡ durations_of log.now.lines graph.now.edges) }
{
    let mut durations = Vec::with_capacity(alloc, graph.edge_count())?;
    'edges: for number in 0..graph.edge_count() {
        durations.push(duration_of(graph, log, EdgeNo(number)))?;
    }
    Ok(durations)
}

// How long an edge took.
fn duration_of(graph: &EdgeGraph, log: &BuildLog, edge: EdgeNo) -> Option<u64>
    requires { edge.0 < length graph.now.edges }
    ensures { result ≡ duration_of log.now.lines (edge_at graph.now.edges edge.0) }
{
    if graph.is_phony(edge) {
        return Some(0);
    }
    logged_duration(log, first_output(graph, edge))
}

/// The path of the first output of an edge.
pub(crate) fn first_output(graph: &EdgeGraph, edge: EdgeNo) -> Option<&[u8]>
    requires { edge.0 < length graph.now.edges }
    ensures { option_copied result ≡ first_output (edge_at graph.now.edges edge.0) }
{
    let output = graph.outputs(edge).first()?;
    Some(graph.path(*output))
}

// The duration that the last line of an output states.
fn logged_duration(log: &BuildLog, output: Option<&[u8]>) -> Option<u64>
    ensures { result ≡ logged_duration log.now.lines (option_copied output.entry) }
{
    let entry = log.entry(output?)?;
    Some(milliseconds(entry))
}

// The milliseconds from the start to the end of a command.
fn milliseconds(entry: Entry) -> u64
    ensures { result ≡ milliseconds entry }
{
    let span = i64::from(entry.end) - i64::from(entry.start);
    if span < 0 { 0 } else { span as u64 }
}

/// The time of an edge in sums: its duration, or 0 if that is unknown.
pub(crate) fn time_at(durations: &[Option<u64>], edge: EdgeNo) -> u64
    ensures { result ≡ time_at durations.now edge.0 }
{
    duration_at(durations, edge).unwrap_or(0)
}

/// The duration of an edge, if it is known.
pub(crate) fn duration_at(durations: &[Option<u64>], edge: EdgeNo) -> Option<u64>
    ensures { result ≡ duration_at durations.now edge.0 }
{
    match durations.get(edge.0) {
        Some(duration) => *duration,
        None => None,
    }
}

/// The sum of the durations of edges, in milliseconds; unknown durations count as 0.
pub fn sum_of(durations: &[Option<u64>], edges: &[EdgeNo]) -> u128
    ensures { result ≡ sum_of durations.now (map (λ edge. edge.0) edges.now) }
{
    let mut sum = 0;
    'edges: for edge in edges {
        sum += u128::from(time_at(durations, *edge));
    }
    sum
}

/// How many of the edges have unknown durations.
pub fn unknown_of(durations: &[Option<u64>], edges: &[EdgeNo]) -> usize
    ensures { result ≡ unknown_of durations.now (map (λ edge. edge.0) edges.now) }
{
    let mut count = 0;
    'edges: for edge in edges {
        if duration_at(durations, *edge).is_none() {
            count += 1;
        }
    }
    count
}
