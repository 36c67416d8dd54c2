//! What is found of a whole build.

ghost use Rattle.std.specs.Prelude.{◌≡◌, ◌<◌, All, IfErr, IfOk, None, length, map, slice_index_or};
ghost use Rattle.nj_state.specs.Cited.{FaultsAt, HasCounts, HaveTimes, IsJudged, IsJudgedBy, IsKnown, OfStatements, edges_of, facts_of, files_of, hash_version};

use crate::facts::facts_of;
use crate::file_times::times_of;
use crate::state_fault::StateFault;
use nj_build_log::{BuildLog, LogVersion};
use nj_graph::{EdgeGraph, EdgeNo, FileTimes, Graph};
use nj_stale::{EdgeFacts, Reason, found_edges, makers_first};
use std::alloc::{AllocError, Global};

/// What is found of the edges and the files of a build.
#[derive(Debug, Drop)]
pub struct JudgedBuild {
    /// By file number, the time on the disk, 0 if the file is missing.
    pub times: Vec<u64>,
    /// By edge number, why the edge is stale, or `None` if it is not stale.
    pub reasons: Vec<Option<Reason>>,
    /// By edge number, the time that the edge lends to its missing outputs.
    pub lent: Vec<u64>,
}

/// Judges all edges of a graph, whose discovered inputs have to be inputs of the graph; the
/// discovered inputs of the edges in `unknown` are not known. Looks up the time of each file once.
///
/// # Errors
///
/// `NoTime` if the time of a file is not known, and `OutOfMemory` if an allocation failed.
pub fn judged_build<T: FileTimes>(
    alloc: Global,
    graph: &Graph,
    unknown: &[EdgeNo],
    log: &BuildLog,
    times: &T,
) -> Result<JudgedBuild, StateFault>
    requires { All (λ edge. edge.0 < length (edges_of graph.now)) unknown.now }
    ensures counts { IfOk result (HasCounts graph.now.built.graph) }
    ensures times { IfOk result (λ build.
        HaveTimes (T.times times.now) (files_of graph.now) build.times.items) }
    ensures judged { OfStatements graph.now (λ entries. IfOk result (IsJudged
        graph.now.built.graph (facts_of entries (map (λ edge. edge.0) unknown.now)
        (hash_version log.now) (length (edges_of graph.now))) log.now.lines)) }
    ensures fault { IfErr result (FaultsAt (T.times times.now) (files_of graph.now)) }
{
    let version = log.version().unwrap_or(LogVersion::Seven);
    let facts = facts_of(alloc, graph, unknown, version)?;
    let times = times_of(alloc, graph, times)?;
    Ok(judged_by(alloc, graph, &facts, times, log)?)
}

// Judges all edges, given what is known of edges and files.
fn judged_by(
    alloc: Global,
    graph: &EdgeGraph,
    facts: &[EdgeFacts],
    times: Vec<u64>,
    log: &BuildLog,
) -> Result<JudgedBuild, AllocError>
    requires { IsKnown graph.now facts.now times.items }
    ensures { IfOk result (IsJudgedBy graph.now facts.now log.now.lines times.items) }
{
    let order = makers_first(alloc, graph)?;
    let found = found_edges(alloc, graph, facts, &times, log, &order)?;
    Ok(JudgedBuild {
        times,
        reasons: found.reasons,
        lent: found.lent,
    })
}

/// Returns the reason of an edge, if any.
pub(crate) fn reason_at(reasons: &[Option<Reason>], edge: EdgeNo) -> Option<Reason>
    ensures { result ≡ slice_index_or reasons.now edge.0 None }
{
    match reasons.get(edge.0) {
        Some(reason) => *reason,
        None => None,
    }
}
