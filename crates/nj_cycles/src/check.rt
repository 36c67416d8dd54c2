//! The cycle check.
ghost use Rattle.std.specs.Prelude.{IfOk};
ghost use Rattle.nj_cycles.specs.Cited.{AreAfterNeeds, IsAcyclic, IsFirstOnCycle, FallingRanksLeaveNoCycle};

use crate::finishing_order::finish_all;
use crate::maker_lists::EdgeInputs;
use crate::on_cycle::least_on_cycle;
use crate::reversed::users_of_edges;
use std::alloc::{AllocError, Global};

/// Returns the edge with the smallest number that itself lies on a dependency cycle, or `None` if
/// the graph has no cycle; an edge that only leads into a cycle does not count. Takes time in
/// proportion to the edges and their inputs, whatever the graph, and memory for each edge; if there
/// is a cycle, also memory for each input. Fails only if it runs out of memory.
pub fn first_on_cycle<I: EdgeInputs>(alloc: Global, inputs: &I) -> Result<Option<usize>, AllocError>
    ensures { IfOk result (λ first.
        IsFirstOnCycle (I.makers inputs.now) (I.count inputs.now) first) }
{
    let finished = finish_all(alloc, inputs)?;
    if !finished.meets_open {
        return Ok(None);
    }
    let users = users_of_edges(alloc, inputs)?;
    least_on_cycle(alloc, inputs, &users, &finished.order)
}

/// Returns all edges of a graph without dependency cycles, without duplicates, each after the edges
/// that it needs. Takes time in proportion to the edges and their inputs, and memory for each edge.
/// Fails only if it runs out of memory.
pub fn makers_first<I: EdgeInputs>(alloc: Global, inputs: &I) -> Result<Vec<usize>, AllocError>
    requires { IsAcyclic (I.makers inputs.now) (I.count inputs.now) }
    ensures { IfOk result (λ order.
        AreAfterNeeds (I.makers inputs.now) (I.count inputs.now) order.items) }
{
    let finished = finish_all(alloc, inputs)?;
    Ok(finished.order)
}

/// The purpose of a rank: where a rank falls along every need, no edge needs itself by a chain.
pub fn acyclic_law()
    ensures { FallingRanksLeaveNoCycle }
{}
