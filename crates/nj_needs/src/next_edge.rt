//! The loop of `next`.

ghost use Rattle.nj_needs.specs.Walks.{number_of};
ghost use Rattle.std.specs.Prelude.{◌≡◌, ◌<◌, ◌≤◌, IfSome};
ghost use Rattle.nj_needs.specs.Cited.{count_of, turns_left_of, state_of, IsNeeds, NextIs};

use crate::resume_point::Saved;
use crate::walk::{Turn, Walk};
use nj_edges::EdgeNo;

/// Takes turns up to the closing of an edge that is not phony, and saves its address; returns
/// `None` if no such edge is left.
pub(crate) fn next_edge(walk: &mut Walk, saved: &mut Saved) -> Option<EdgeNo>
    requires { IsNeeds walk.old saved.old }
    ensures after { IsNeeds walk.new saved.new }
    ensures next { NextIs (state_of walk.old saved.old) (number_of result)
        (state_of walk.new saved.new) }
    ensures known { IfSome result (λ edge. edge.0 < count_of walk.old.turns.graph.now) }
    ensures graph { walk.new.turns.graph ≡ walk.old.turns.graph }
    ensures targets { walk.new.turns.targets ≡ walk.old.turns.targets }
    ensures begun { walk.new.begun ≡ walk.old.begun }
    ensures turns { turns_left_of walk.new.turns.graph.now walk.new.turns.targets.now
        walk.new.path.items walk.new.place
        ≤ turns_left_of walk.old.turns.graph.now walk.old.turns.targets.now
        walk.old.path.items walk.old.place }
{
    'turns: loop {
        match walk.take_turn() {
            Turn::Looked => {}
            Turn::Closed(edge, phony) => {
                saved.back_to(walk.path.len());
                if !phony {
                    saved.save(walk.path.as_slice(), walk.place - 1);
                    return Some(edge);
                }
            }
            Turn::Ended => return None,
        }
    }
}
