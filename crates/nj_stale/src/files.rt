//! What is asked of the files of an edge.

ghost use Rattle.std.specs.Prelude.{◌≡◌, ℕ, ◌<◌, All, length};
ghost use Rattle.nj_stale.specs.Cited.{AreFiles, counted_inputs_of, edge_at, first_reason, first_with, input_held, is_stale_held, missing_held, newest, output_held, time_held};

use crate::evidence::EdgeFacts;
use crate::judging::by_output;
use crate::reason::Reason;
use nj_build_log::BuildLog;
use nj_edges::{EdgeGraph, EdgeNo, FileNo, Kind};

/// The inputs of an edge that count.
pub(crate) fn counted_inputs(graph: &EdgeGraph, edge: EdgeNo) -> &[FileNo]
    requires { edge.0 < length graph.now.edges }
    ensures files { AreFiles graph.now.files result.now
        (counted_inputs_of (edge_at graph.now.edges edge.0)) }
    ensures known { All (λ file. file.0 < length graph.now.files) result.now }
{
    &graph.inputs(edge)[..counted_count(graph, edge)]
}

// The number of inputs before the first order-only one.
fn counted_count(graph: &EdgeGraph, edge: EdgeNo) -> usize
    requires { edge.0 < length graph.now.edges }
    ensures { result ≡ length (counted_inputs_of (edge_at graph.now.edges edge.0)) }
{
    let count = graph.inputs(edge).len();
    'inputs: for index in 0..count {
        if let Kind::OrderOnly = graph.input_kind(edge, index) {
            return index;
        }
    }
    count
}

/// Returns the newest time of the given files, or `None` without files.
pub(crate) fn newest_of(
    graph: &EdgeGraph,
    times: &[u64],
    lent: &[u64],
    files: &[FileNo],
) -> Option<u64>
    requires times { length times.now ≡ length graph.now.files }
    requires lent { length lent.now ≡ length graph.now.edges }
    requires known { All (λ file. file.0 < length graph.now.files) files.now }
    ensures { result ≡ newest (time_held graph.now times.now lent.now) files.now }
{
    let mut newest: Option<u64> = None;
    'files: for index in 0..files.len() {
        let time = time_of(graph, times, lent, files[index]);
        newest = Some(newest.unwrap_or(0).max(time));
    }
    newest
}

/// Returns the place of the first of the given files that has the wanted time, if any.
pub(crate) fn first_with(
    graph: &EdgeGraph,
    times: &[u64],
    lent: &[u64],
    wanted: u64,
    files: &[FileNo],
) -> Option<usize>
    requires times { length times.now ≡ length graph.now.files }
    requires lent { length lent.now ≡ length graph.now.edges }
    requires known { All (λ file. file.0 < length graph.now.files) files.now }
    ensures { result
        ≡ first_with (time_held graph.now times.now lent.now) wanted 0 files.now }
{
    'files: for index in 0..files.len() {
        if time_of(graph, times, lent, files[index]) == wanted {
            return Some(index);
        }
    }
    None
}

// Returns the time of a file: its time on the disk, or the time that its maker lends.
fn time_of(graph: &EdgeGraph, times: &[u64], lent: &[u64], file: FileNo) -> u64
    requires times { length times.now ≡ length graph.now.files }
    requires lent { length lent.now ≡ length graph.now.edges }
    requires known { file.0 < length graph.now.files }
    ensures { result ≡ time_held graph.now times.now lent.now file }
{
    let disk = times[file.0];
    match graph.maker(file) {
        Some(edge) => { if disk == 0 { lent[edge.0] } else { disk } }
        None => disk,
    }
}

/// Returns a reason for the first of the given files that is stale, if any.
pub(crate) fn first_stale(
    graph: &EdgeGraph,
    times: &[u64],
    reasons: &[Option<Reason>],
    files: &[FileNo],
) -> Option<Reason>
    requires times { length times.now ≡ length graph.now.files }
    requires reasons { length reasons.now ≡ length graph.now.edges }
    requires known { All (λ file. file.0 < length graph.now.files) files.now }
    ensures { result ≡ first_reason (input_held graph.now times.now reasons.now) 0 files.now }
{
    'files: for index in 0..files.len() {
        if is_stale(graph, times, reasons, files[index]) {
            return Some(Reason::StaleInput(index));
        }
    }
    None
}

// Whether a file is stale.
fn is_stale(graph: &EdgeGraph, times: &[u64], reasons: &[Option<Reason>], file: FileNo) -> bool
    requires times { length times.now ≡ length graph.now.files }
    requires reasons { length reasons.now ≡ length graph.now.edges }
    requires known { file.0 < length graph.now.files }
    ensures { result ≡ is_stale_held graph.now times.now reasons.now file }
{
    match graph.maker(file) {
        Some(edge) => reasons[edge.0].is_some(),
        None => times[file.0] == 0,
    }
}

/// Returns a reason for the first of the given files that is missing, if any.
pub(crate) fn first_missing(times: &[u64], files: &[FileNo]) -> Option<Reason>
    requires { All (λ file. file.0 < length times.now) files.now }
    ensures { result ≡ first_reason (missing_held times.now) 0 files.now }
{
    'files: for index in 0..files.len() {
        if times[files[index].0] == 0 {
            return Some(Reason::MissingOutput(index));
        }
    }
    None
}

/// Returns the first reason that one of the given outputs has, if any.
pub(crate) fn first_of_outputs(
    graph: &EdgeGraph,
    times: &[u64],
    log: &BuildLog,
    facts: EdgeFacts,
    newest: Option<u64>,
    files: &[FileNo],
) -> Option<Reason>
    requires times { length times.now ≡ length graph.now.files }
    requires known { All (λ file. file.0 < length graph.now.files) files.now }
    ensures { result ≡ first_reason
        (output_held graph.now times.now log.now.lines facts newest) 0 files.now }
{
    'files: for index in 0..files.len() {
        let file = files[index];
        let entry = log.entry(graph.path(file));
        let reason = by_output(facts, newest, times[file.0], entry, index);
        if reason.is_some() {
            return reason;
        }
    }
    None
}
