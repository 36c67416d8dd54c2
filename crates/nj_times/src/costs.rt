//! The cost of each edge: the greatest sum of a chain that ends with it.

ghost use Rattle.std.specs.Prelude.{◌≡◌, ◌<◌, IfOk, length, option_map, slice_index};
ghost use Rattle.nj_times.specs.Cited.{AreAfterNeeds, AreCosts, cost_of, costliest, first_with, greatest, makers_of_inputs};

use crate::edge_times::time_at;
use nj_edges::{EdgeGraph, EdgeNo};
use std::alloc::{AllocError, Global};

/// The cost of each edge, given an order of all edges in which makers come first.
pub(crate) fn costs_of(
    alloc: Global,
    graph: &EdgeGraph,
    durations: &[Option<u64>],
    order: &[usize],
) -> Result<Vec<u128>, AllocError>
    requires order { AreAfterNeeds (makers_of_inputs graph.now.edges) (length graph.now.edges)
        order.now }
    requires durations { length durations.now ≡ length graph.now.edges }
    ensures { IfOk result (λ costs. AreCosts graph.now.edges durations.now costs.items) }
{
    let mut costs = vec![in alloc; 0; graph.edge_count()]?;
    'turns: for turn in 0..order.len() {
        let edge = EdgeNo(order[turn]);
        let before = greatest_before(graph, &costs, edge);
        costs[edge.0] = u128::from(time_at(durations, edge)) + before;
    }
    Ok(costs)
}

// The greatest cost of the makers of an edge's inputs.
fn greatest_before(graph: &EdgeGraph, costs: &[u128], edge: EdgeNo) -> u128
    requires { edge.0 < length graph.now.edges }
    ensures { result ≡ greatest costs.now (makers_of_inputs graph.now.edges edge.0) }
{
    let mut greatest = 0;
    'inputs: for index in 0..graph.inputs(edge).len() {
        let maker = graph.maker_at(edge, index).unwrap_or(None);
        greatest = cost_of(costs, maker).max(greatest);
    }
    greatest
}

/// The first input of an edge, from left to right, whose maker has the greatest cost; the maker.
/// `None` if nothing that the edge needs took time.
pub(crate) fn costliest_maker(graph: &EdgeGraph, costs: &[u128], edge: EdgeNo) -> Option<EdgeNo>
    requires { edge.0 < length graph.now.edges }
    ensures { option_map (λ edge. edge.0) result
        ≡ costliest costs.now (makers_of_inputs graph.now.edges edge.0) }
{
    let greatest = greatest_before(graph, costs, edge);
    if greatest == 0 {
        return None;
    }
    first_with(graph, costs, greatest, edge)
}

// The maker of an edge's first input whose maker has the given cost.
fn first_with(graph: &EdgeGraph, costs: &[u128], wanted: u128, edge: EdgeNo) -> Option<EdgeNo>
    requires { edge.0 < length graph.now.edges }
    ensures { option_map (λ edge. edge.0) result
        ≡ first_with costs.now wanted (makers_of_inputs graph.now.edges edge.0) }
{
    'inputs: for index in 0..graph.inputs(edge).len() {
        let maker = graph.maker_at(edge, index).unwrap_or(None);
        if cost_of(costs, maker) == wanted {
            return maker;
        }
    }
    None
}

// The cost of a maker, and 0 of a source.
fn cost_of(costs: &[u128], maker: Option<EdgeNo>) -> u128
    ensures { result ≡ cost_of costs.now (option_map (λ edge. edge.0) maker) }
{
    match maker {
        Some(edge) => cost_at(costs, edge),
        None => 0,
    }
}

/// The cost of an edge.
pub(crate) fn cost_at(costs: &[u128], edge: EdgeNo) -> u128
    ensures { result ≡ slice_index costs.now edge.0 }
{
    match costs.get(edge.0) {
        Some(cost) => *cost,
        None => 0,
    }
}
