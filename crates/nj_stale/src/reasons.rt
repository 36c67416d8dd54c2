//! The reasons for which edges are stale.

ghost use Rattle.std.specs.Prelude.{◌≡◌, ℕ, ◌<◌, ◌+◌, ◌==◌, List, [], length, map, bytes_eq, slice_index, IfOk};
ghost use Rattle.nj_stale.specs.Cited.{AreFound, AreLentBy, AreReasonsOf, IsDistinct, IsStateOf, LineModel, State, newest_place, IsFound, IsKnown, IsMakersFirst, IsNext, by_discovery, by_files, by_outputs, by_phony_outputs, edge_at, evidence_of, inputs_of, newest_input, reason_of, state_held};

use crate::evidence::EdgeFacts;
use crate::files::{
    counted_inputs, first_missing, first_of_outputs, first_stale, first_with, newest_of,
};
use crate::judging::lent_by;
use crate::reason::Reason;
use nj_build_log::BuildLog;
use nj_edges::{EdgeGraph, EdgeNo};
use std::alloc::{AllocError, Global};

/// What is found of the edges of an order.
#[derive(Debug, Drop)]
pub struct FoundEdges {
    /// By edge number, why the edge is stale, or `None` if it is not stale.
    pub reasons: Vec<Option<Reason>>,
    /// By edge number, the time that the edge lends to its missing outputs.
    pub lent: Vec<u64>,
}

/// Returns why each edge of an order is stale, by edge number, or `None` for an edge that is not
/// stale. Items of other edges are unspecified.
///
/// `facts` has an item for each edge. `times` has the time on the disk of each file, 0 if it is
/// missing. The discovered inputs have to be inputs of the graph. In the order each edge comes
/// after the makers of its explicit and implicit inputs.
///
/// Takes time in proportion to the edges of the order and their files. Fails only if an allocation
/// fails.
pub fn reasons_of(
    alloc: Global,
    graph: &EdgeGraph,
    facts: &[EdgeFacts],
    times: &[u64],
    log: &BuildLog,
    order: &[EdgeNo],
) -> Result<Vec<Option<Reason>>, AllocError>
    requires known { IsKnown graph.now facts.now times.now }
    requires order { IsMakersFirst graph.now.edges (map (λ edge. edge.0) order.now) }
    ensures { IfOk result (λ reasons. AreReasonsOf
        (evidence_of graph.now facts.now times.now log.now.lines)
        (map (λ edge. edge.0) order.now) reasons.items) }
{
    let found = found_edges(alloc, graph, facts, times, log, order)?;
    Ok(found.reasons)
}

/// The same, with the times that the edges lend to their missing outputs.
pub fn found_edges(
    alloc: Global,
    graph: &EdgeGraph,
    facts: &[EdgeFacts],
    times: &[u64],
    log: &BuildLog,
    order: &[EdgeNo],
) -> Result<FoundEdges, AllocError>
    requires known { IsKnown graph.now facts.now times.now }
    requires order { IsMakersFirst graph.now.edges (map (λ edge. edge.0) order.now) }
    ensures { IfOk result (λ found. AreFound
        (evidence_of graph.now facts.now times.now log.now.lines)
        (map (λ edge. edge.0) order.now) found.reasons.items found.lent.items) }
{
    // no path has two files
    let _file_count = graph.file_count();
    let mut reasons = vec![in alloc; None; graph.edge_count()]?;
    let mut lent = vec![in alloc; 0; graph.edge_count()]?;
    'turns: for turn in 0..order.len() {
        judge(
            graph,
            facts,
            times,
            log,
            order[turn],
            &mut reasons,
            &mut lent,
        );
    }
    Ok(FoundEdges { reasons, lent })
}

/// Returns the place of the newest input of an edge among its inputs that count, the first of
/// several; `None` without such inputs. `lent` has the time that each edge lends to its missing
/// outputs, as [`found_edges`] finds it.
pub fn newest_place(graph: &EdgeGraph, times: &[u64], lent: &[u64], edge: EdgeNo) -> Option<usize>
    requires times { length times.now ≡ length graph.now.files }
    requires lent { length lent.now ≡ length graph.now.edges }
    requires edge { edge.0 < length graph.now.edges }
    ensures { (facts : List EdgeFacts) (lines : List LineModel) (s : State)
        → IsStateOf (evidence_of graph.now facts times.now lines) s
        → AreLentBy graph.now.edges s lent.now
        → result ≡ newest_place s (edge_at graph.now.edges edge.0) }
{
    // no path has two files
    let _file_count = graph.file_count();
    let files = counted_inputs(graph, edge);
    let newest = newest_of(graph, times, lent, files).unwrap_or(0);
    first_with(graph, times, lent, newest, files)
}

// Finds the reason of an edge, and the time that it lends. The edges before it in the order have
// theirs already.
fn judge(
    graph: &EdgeGraph,
    facts: &[EdgeFacts],
    times: &[u64],
    log: &BuildLog,
    edge: EdgeNo,
    reasons: &mut [Option<Reason>],
    lent: &mut [u64],
)
    requires known { IsKnown graph.now facts.now times.now }
    requires distinct { IsDistinct bytes_eq graph.now.files }
    requires edge { edge.0 < length graph.now.edges }
    requires reasons { length reasons.old ≡ length graph.now.edges }
    requires lent { length lent.old ≡ length graph.now.edges }
    ensures { (order : List ℕ) (turn : ℕ) → IsNext graph.now.edges order turn edge.0
        → IsFound (evidence_of graph.now facts.now times.now log.now.lines) order turn
        reasons.old lent.old
        → IsFound (evidence_of graph.now facts.now times.now log.now.lines) order (turn + 1)
        reasons.new lent.new }
{
    let newest = newest_of(graph, times, lent, counted_inputs(graph, edge));
    let reason = reason_of(graph, facts, times, log, reasons, newest, edge);
    reasons[edge.0] = reason;
    lent[edge.0] = lent_by(graph.is_phony(edge), reason, newest);
}

// Returns why an edge is stale, given what was found for the makers of its inputs.
fn reason_of(
    graph: &EdgeGraph,
    facts: &[EdgeFacts],
    times: &[u64],
    log: &BuildLog,
    reasons: &[Option<Reason>],
    newest: Option<u64>,
    edge: EdgeNo,
) -> Option<Reason>
    requires known { IsKnown graph.now facts.now times.now }
    requires distinct { IsDistinct bytes_eq graph.now.files }
    requires reasons { length reasons.now ≡ length graph.now.edges }
    requires edge { edge.0 < length graph.now.edges }
    ensures { (lent : List ℕ)
        → newest ≡ newest_input (state_held graph.now times.now reasons.now lent)
        (edge_at graph.now.edges edge.0)
        → result ≡ reason_of (evidence_of graph.now facts.now times.now log.now.lines)
        (state_held graph.now times.now reasons.now lent) edge.0 }
{
    let facts = facts[edge.0];
    let by_inputs = first_stale(graph, times, reasons, counted_inputs(graph, edge));
    let by_files = by_files(graph, times, log, facts, newest, edge);
    by_discovery(facts).or(by_inputs.or(by_files))
}

// Returns a reason if the discovered inputs of an edge are unknown.
fn by_discovery(facts: EdgeFacts) -> Option<Reason>
    ensures { result ≡ by_discovery facts }
{
    if facts.is_unknown {
        Some(Reason::UnknownInputs)
    } else {
        None
    }
}

// Returns why an edge is stale because of its outputs.
fn by_files(
    graph: &EdgeGraph,
    times: &[u64],
    log: &BuildLog,
    facts: EdgeFacts,
    newest: Option<u64>,
    edge: EdgeNo,
) -> Option<Reason>
    requires times { length times.now ≡ length graph.now.files }
    requires distinct { IsDistinct bytes_eq graph.now.files }
    requires edge { edge.0 < length graph.now.edges }
    ensures { result ≡ by_files (evidence_of graph.now [] times.now log.now.lines) facts newest
        (edge_at graph.now.edges edge.0) }
{
    if graph.is_phony(edge) {
        by_phony_outputs(graph, times, edge)
    } else {
        by_outputs(graph, times, log, facts, newest, edge)
    }
}

// Returns why an edge that is not phony is stale because of its outputs.
fn by_outputs(
    graph: &EdgeGraph,
    times: &[u64],
    log: &BuildLog,
    facts: EdgeFacts,
    newest: Option<u64>,
    edge: EdgeNo,
) -> Option<Reason>
    requires times { length times.now ≡ length graph.now.files }
    requires distinct { IsDistinct bytes_eq graph.now.files }
    requires edge { edge.0 < length graph.now.edges }
    ensures { result ≡ by_outputs (evidence_of graph.now [] times.now log.now.lines) facts newest
        (edge_at graph.now.edges edge.0) }
{
    first_of_outputs(graph, times, log, facts, newest, graph.outputs(edge))
}

// Returns why a phony edge is stale because of its outputs.
fn by_phony_outputs(graph: &EdgeGraph, times: &[u64], edge: EdgeNo) -> Option<Reason>
    requires times { length times.now ≡ length graph.now.files }
    requires distinct { IsDistinct bytes_eq graph.now.files }
    requires edge { edge.0 < length graph.now.edges }
    ensures { result ≡ by_phony_outputs (evidence_of graph.now [] times.now [])
        (edge_at graph.now.edges edge.0) }
{
    if has_no_input(graph, edge) {
        first_missing(times, graph.outputs(edge))
    } else {
        None
    }
}

/// Whether an edge has no input of any kind.
pub(crate) fn has_no_input(graph: &EdgeGraph, edge: EdgeNo) -> bool
    requires { edge.0 < length graph.now.edges }
    ensures { result ≡ (length (inputs_of (edge_at graph.now.edges edge.0)) == 0) }
{
    graph.inputs(edge).len() == 0
}
