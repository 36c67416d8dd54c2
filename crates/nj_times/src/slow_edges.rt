//! The slowest edges.

ghost use Rattle.std.specs.Prelude.{◌<◌, ℕ, All, IfOk, map};
ghost use Rattle.nj_times.specs.Cited.{AreSlowest};

use crate::edge_times::time_at;
use nj_edges::EdgeNo;
use std::alloc::{AllocError, Global};
use std::cmp::Reverse;

/// At most `count` of the given edges: those that took longest, slowest first, and edges that took
/// as long in the order of the manifest. Unknown durations count as 0.
///
/// Takes time in proportion to the edges times the logarithm of their number. Fails only if an
/// allocation fails.
pub fn slowest(
    alloc: Global,
    durations: &[Option<u64>],
    edges: &[EdgeNo],
    count: usize,
) -> Result<Vec<EdgeNo>, AllocError>
    ensures slowest { IfOk result (λ slowest. AreSlowest durations.now (map (λ edge. edge.0) edges.now)
        count (map (λ edge. edge.0) slowest.items)) }
    ensures known { (limit : ℕ) → All (λ edge. edge.0 < limit) edges.now
        → IfOk result (λ slowest. All (λ edge. edge.0 < limit) slowest.items) }
{
    let mut sorted = Vec::from_slice(alloc, edges)?;
    sorted.sort_by_key(|edge| (Reverse(time_at(durations, *edge)), edge.0))?;
    sorted.truncate(count);
    Ok(sorted)
}
