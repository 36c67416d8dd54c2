//! The critical path.

ghost use Rattle.std.specs.Prelude.{◌≡◌, ◌<◌, All, IfOk, IfSome, List, ℕ, length, map, option_map};
ghost use Rattle.nj_times.specs.Cited.{AreAfterNeeds, AreNeededBy, IsCriticalPath, IsFollowed, IsLast, is_costlier, is_next, makers_of_inputs};

use crate::costs::{cost_at, costliest_maker, costs_of};
use crate::edge_times::time_at;
use crate::order::edge_numbers;
use nj_edges::{EdgeGraph, EdgeNo};
use std::alloc::{AllocError, Global};

/// The critical path of the needed edges, from its last edge to its first: the chain of edges, each
/// of which makes an input of the edge before it, whose durations sum to the most. Inputs of all
/// kinds count; validations are not inputs. It has the last edge that is earliest in the manifest,
/// and goes on by the leftmost inputs. It begins and ends with an edge that took time; without such
/// edges it is empty.
///
/// `needed` has the edges that some files need, in any order. `durations` has an item for each
/// edge.
///
/// Takes time in proportion to all edges and their inputs. Fails only if an allocation fails.
pub fn critical_path(
    alloc: Global,
    graph: &EdgeGraph,
    durations: &[Option<u64>],
    needed: &[EdgeNo],
) -> Result<Vec<EdgeNo>, AllocError>
    requires durations { length durations.now ≡ length graph.now.edges }
    requires needed { All (λ edge. edge.0 < length graph.now.edges) needed.now }
    ensures path { (files : List (List ℕ))
        → AreNeededBy graph.now.edges files (map (λ edge. edge.0) needed.now)
        → IfOk result (λ path. IsCriticalPath graph.now.edges files durations.now
        (map (λ edge. edge.0) path.items)) }
    ensures known { IfOk result (λ path.
        All (λ edge. edge.0 < length graph.now.edges) path.items) }
{
    let order = edge_numbers(alloc, graph)?;
    let costs = costs_of(alloc, graph, durations, &order)?;
    let last = costliest_of(durations, &costs, needed);
    followed(alloc, graph, &costs, &order, last)
}

// The costliest of the given edges that took time, the first of several in the manifest.
fn costliest_of(durations: &[Option<u64>], costs: &[u128], edges: &[EdgeNo]) -> Option<EdgeNo>
    ensures { IsLast durations.now costs.now (map (λ edge. edge.0) edges.now)
        (option_map (λ edge. edge.0) result) }
{
    let mut costliest = None;
    'edges: for edge in edges {
        if time_at(durations, *edge) > 0 && is_costlier(costs, *edge, costliest) {
            costliest = Some(*edge);
        }
    }
    costliest
}

// Whether an edge costs more than another, or as much and is earlier in the manifest.
fn is_costlier(costs: &[u128], edge: EdgeNo, other: Option<EdgeNo>) -> bool
    ensures { result ≡ is_costlier costs.now edge.0 (option_map (λ edge. edge.0) other) }
{
    match other {
        Some(other) => {
            let cost = cost_at(costs, edge);
            let least = cost_at(costs, other);
            cost > least || (cost == least && edge.0 < other.0)
        }
        None => true,
    }
}

// The path to an edge, from it on. In the order makers come first, so its edges are met from its
// end to its beginning.
fn followed(
    alloc: Global,
    graph: &EdgeGraph,
    costs: &[u128],
    order: &[usize],
    last: Option<EdgeNo>,
) -> Result<Vec<EdgeNo>, AllocError>
    requires order { AreAfterNeeds (makers_of_inputs graph.now.edges) (length graph.now.edges)
        order.now }
    requires last { IfSome last (λ edge. edge.0 < length graph.now.edges) }
    ensures path { IfOk result (λ path. IsFollowed graph.now.edges costs.now
        (option_map (λ edge. edge.0) last) (map (λ edge. edge.0) path.items)) }
    ensures known { IfOk result (λ path.
        All (λ edge. edge.0 < length graph.now.edges) path.items) }
{
    let mut path = Vec::new(alloc);
    let mut next = last;
    let mut turn = order.len();
    'turns: while turn > 0 {
        turn -= 1;
        let edge = EdgeNo(order[turn]);
        if is_next(next, edge) {
            path.push(edge)?;
            next = costliest_maker(graph, costs, edge);
        }
    }
    Ok(path)
}

// Whether an edge is the next one.
fn is_next(next: Option<EdgeNo>, edge: EdgeNo) -> bool
    ensures { result ≡ is_next (option_map (λ edge. edge.0) next) edge.0 }
{
    match next {
        Some(next) => next.0 == edge.0,
        None => false,
    }
}
