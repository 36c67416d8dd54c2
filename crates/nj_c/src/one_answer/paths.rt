//! Chains of inputs.

ghost use Rattle.std.specs.Prelude.{◌≡◌};
ghost use Rattle.nj_c.specs.Cited.{InMemory, SameBuffer};

use super::graphs::graph_is_sound;
use crate::paths::{PathStep, nx_path_between};
use crate::session::Session;
use nj_edges::path_law;
use std::alloc::Global;

/// `nx_path_between`. Free: whether memory lacks; the number of steps where the status is not done.
pub fn path_between_twice(
    alloc: Global,
    one: &mut Session,
    other: &mut Session,
    from: usize,
    to: usize,
    with_validations: u32,
    steps: &mut [PathStep],
    steps_other: &mut [PathStep],
    count: &mut usize,
    count_other: &mut usize,
) -> (i32, i32)
    requires kept { one.old.kept ≡ other.old.kept }
    requires steps { steps.old ≡ steps_other.old }
    ensures same { InMemory result.0 result.1 (SameBuffer result.0 result.1 steps.new
        steps_other.new count.new count_other.new) }
    ensures kept { one.new.kept ≡ other.new.kept }
{
    path_law();
    graph_is_sound(alloc, one);
    (
        nx_path_between(alloc, one, from, to, with_validations, steps, count),
        nx_path_between(
            alloc,
            other,
            from,
            to,
            with_validations,
            steps_other,
            count_other,
        ),
    )
}
