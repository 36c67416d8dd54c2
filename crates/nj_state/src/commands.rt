//! The edges that Ninja would run.

ghost use Rattle.std.specs.Prelude.{◌≡◌, ◌<◌, ◌++◌, All, IfErr, IfOk, IfSome, List, OnOk, length, map, option_to_list};
ghost use Rattle.nj_state.specs.Cited.{AreStaleBy, AreStaleEdges, EdgeFacts, FaultsAt, HasCounts, IsJudged, IsStateOf, LineModel, OfStatements, State, commands_of, edges_of, evidence_of, files_of, stale_edge};

use crate::judged::{JudgedBuild, judged_build, reason_at};
use crate::state_fault::StateFault;
use nj_build_log::BuildLog;
use nj_graph::{EdgeGraph, EdgeNo, FileNo, FileTimes, Graph};
use nj_needs::Needs;
use nj_stale::{Reason, newest_place};
use std::alloc::{AllocError, Global};

/// An edge that Ninja would run, and the first reason for it.
#[derive(Clone, Copy, Debug, PartialEq, Eq)]
pub struct StaleEdge {
    pub edge: EdgeNo,
    pub reason: Reason,
    /// The place of its newest input among its inputs that count, which are the explicit, the
    /// implicit and the discovered inputs: the first of several; `None` without such inputs.
    pub newest: Option<usize>,
}

/// Returns the stale edges whose commands the targets need, in the order of their commands. The
/// discovered inputs have to be inputs of the graph; the discovered inputs of the edges in
/// `unknown` are not known.
///
/// # Errors
///
/// `NoTime` if the time of a file is not known, and `OutOfMemory` if an allocation failed.
pub fn stale_edges<T: FileTimes>(
    alloc: Global,
    graph: &Graph,
    unknown: &[EdgeNo],
    log: &BuildLog,
    times: &T,
    targets: &[FileNo],
) -> Result<Vec<StaleEdge>, StateFault>
    requires unknown { All (λ edge. edge.0 < length (edges_of graph.now)) unknown.now }
    requires targets { All (λ file. file.0 < length (files_of graph.now)) targets.now }
    ensures stale { OfStatements graph.now (λ entries. IfOk result (λ stale.
        AreStaleEdges graph.now.built.graph entries (map (λ edge. edge.0) unknown.now) log.now
        (T.times times.now) targets.now stale.items)) }
    ensures known { IfOk result (λ stale.
        All (λ item. item.edge.0 < length (edges_of graph.now)) stale.items) }
    ensures fault { IfErr result (FaultsAt (T.times times.now) (files_of graph.now)) }
{
    let build = judged_build(alloc, graph, unknown, log, times)?;
    Ok(stale_in(alloc, graph, &build, targets)?)
}

/// Returns the same by a build that was judged.
pub fn stale_in(
    alloc: Global,
    graph: &EdgeGraph,
    build: &JudgedBuild,
    targets: &[FileNo],
) -> Result<Vec<StaleEdge>, AllocError>
    requires counts { HasCounts graph.now build.now }
    requires targets { All (λ file. file.0 < length graph.now.files) targets.now }
    ensures stale { IfOk result (λ stale. (facts : List EdgeFacts) (lines : List LineModel)
        → IsJudged graph.now facts lines build.now
        → AreStaleBy (evidence_of graph.now facts build.now.times.items lines)
        (commands_of graph.now targets.now) stale.items) }
    ensures known { IfOk result (λ stale.
        All (λ item. item.edge.0 < length graph.now.edges) stale.items) }
{
    let mut stale = Vec::new(alloc);
    let mut needs = Needs::new(alloc, graph, targets)?;
    'commands: while let Some(edge) = needs.next() {
        push_found(&mut stale, stale_edge(graph, build, edge))?;
    }
    Ok(stale)
}

// Appends an edge that was found, if any.
fn push_found(stale: &mut Vec<StaleEdge>, found: Option<StaleEdge>) -> Result<(), AllocError>
    ensures { OnOk result (stale.new.items ≡ stale.old.items ++ option_to_list found) }
{
    match found {
        Some(found) => stale.push(found)?,
        None => {}
    }
    Ok(())
}

// Returns an edge with its reason, if it is stale.
fn stale_edge(graph: &EdgeGraph, build: &JudgedBuild, edge: EdgeNo) -> Option<StaleEdge>
    requires counts { HasCounts graph.now build.now }
    requires edge { edge.0 < length graph.now.edges }
    ensures stale { (facts : List EdgeFacts) (lines : List LineModel) (s : State)
        → IsJudged graph.now facts lines build.now
        → IsStateOf (evidence_of graph.now facts build.now.times.items lines) s
        → result ≡ stale_edge graph.now.edges s edge.0 }
    ensures edge { IfSome result (λ found. found.edge ≡ edge) }
{
    match reason_at(&build.reasons, edge) {
        Some(reason) => Some(StaleEdge {
            edge,
            reason,
            newest: newest_place(graph, &build.times, &build.lent, edge),
        }),
        None => None,
    }
}
