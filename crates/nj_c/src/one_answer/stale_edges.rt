//! Stale edges.

ghost use Rattle.std.specs.Prelude.{◌≡◌};
ghost use Rattle.nj_c.specs.Cited.{Equal, IfStated, SameAnswer, SameChange};

use super::graphs::graph_is_sound;
use crate::session::Session;
use crate::stale_edges::{nx_stale, nx_stale_edge};
use nj_stale::some_state_fits;
use std::alloc::Global;

/// `nx_stale`. For a graph of statements. Free: whether memory lacks; the room of the lists.
pub fn stale_twice(
    alloc: Global,
    one: &mut Session,
    other: &mut Session,
    log: &[u8],
    times: &[u64],
    targets: &[usize],
) -> (i32, i32)
    requires { one.old.kept ≡ other.old.kept }
    ensures { IfStated one.old.kept (SameChange Equal Equal result.0 result.1 one.new.kept
        other.new.kept) }
{
    some_state_fits();
    graph_is_sound(alloc, one);
    (
        nx_stale(alloc, one, log, times, targets),
        nx_stale(alloc, other, log, times, targets),
    )
}

/// `nx_stale_edge`. Free: the numbers where the status is not done.
pub fn stale_edge_twice(
    alloc: Global,
    one: &mut Session,
    other: &mut Session,
    index: usize,
    edge: &mut usize,
    edge_other: &mut usize,
    reason: &mut i32,
    reason_other: &mut i32,
    place: &mut usize,
    place_other: &mut usize,
) -> (i32, i32)
    requires { one.old.kept ≡ other.old.kept }
    ensures same { SameAnswer result.0 result.1 ((edge.new ≡ edge_other.new)
        × (reason.new ≡ reason_other.new) × (place.new ≡ place_other.new)) }
    ensures kept { one.new.kept ≡ other.new.kept }
{
    (
        nx_stale_edge(alloc, one, index, edge, reason, place),
        nx_stale_edge(alloc, other, index, edge_other, reason_other, place_other),
    )
}
