//! The way to a mark: whether it leads to an edge, and the turns up to there.

ghost use Rattle.std.specs.Prelude.{◌≡◌, ◌≤◌, [], length, true, take};
ghost use Rattle.nj_needs.specs.Cited.{OnTrue, IsAcyclic, saturated, makers_of, count_of, row_of, IsHeading, is_valid, AreWithin, IsWalk, left_of, top_of, rest_of};

use crate::needs::beginning::turns::Turns;
use crate::walk::Walk;

/// Whether each step of a mark leads to an edge. Allocates nothing, and takes a look for each
/// number.
pub(crate) fn leads(turns: &mut Turns, numbers: &[u64]) -> bool
    requires turns { turns.old.taken ≡ 0 }
    requires acyclic { IsAcyclic (makers_of turns.old.graph.now) (count_of turns.old.graph.now) }
    requires within { AreWithin (row_of turns.old.graph.now turns.old.targets.now)
        (count_of turns.old.graph.now) }
    ensures valid { result ≡ is_valid (makers_of turns.old.graph.now)
        (row_of turns.old.graph.now turns.old.targets.now) numbers.now }
    ensures turns_after { OnTrue result (turns.new.taken ≡ saturated (length numbers.now)) }
    ensures graph { turns.new.graph ≡ turns.old.graph }
    ensures targets { turns.new.targets ≡ turns.old.targets }
{
    let mut edge = None;
    'steps: for number in numbers {
        let Some(found) = turns.look(edge, *number as usize) else {
            return false;
        };
        if found.is_none() {
            return false;
        }
        edge = found;
    }
    true
}

/// Takes turns from the start until all that is done at a mark is done. It ends early at an edge on
/// the way that is done already.
pub(crate) fn rebuild(walk: &mut Walk, numbers: &[u64])
    requires walk { IsWalk walk.old }
    requires path { walk.old.path.items ≡ [] }
    requires place { walk.old.place ≡ 0 }
    requires valid { is_valid (makers_of walk.old.turns.graph.now)
        (row_of walk.old.turns.graph.now walk.old.turns.targets.now) numbers.now ≡ true }
    ensures walk_after { IsWalk walk.new }
    ensures rest { left_of walk.new.turns.graph.now walk.new.turns.targets.now
        walk.new.path.items walk.new.place
        ≡ rest_of walk.new.turns.graph.now walk.new.turns.targets.now numbers.now }
    ensures graph { walk.new.turns.graph ≡ walk.old.turns.graph }
    ensures targets { walk.new.turns.targets ≡ walk.old.turns.targets }
    ensures begun { walk.new.begun ≡ walk.old.begun }
{
    'steps: for number in numbers {
        let before = walk.path.len();
        reach(walk, before, *number as usize);
        walk.take_turn();
        if walk.path.len() == before {
            return;
        }
    }
    if numbers.is_empty() {
        return;
    }
    let depth = numbers.len() - 1;
    let after = walk.path.get(depth).at + 1;
    reach(walk, depth, after);
}

/// Takes turns until the walk is at a place of the row above `depth` open edges.
fn reach(walk: &mut Walk, depth: usize, place: usize)
    requires walk { IsWalk walk.old }
    requires depth { depth ≤ length walk.old.path.items }
    requires heading { IsHeading (take depth walk.old.path.items) place
        walk.old.path.items walk.old.place }
    requires place_in { place ≤ length (top_of walk.old.turns.graph.now walk.old.turns.targets.now
        (take depth walk.old.path.items)) }
    ensures walk_after { IsWalk walk.new }
    ensures path { walk.new.path.items ≡ take depth walk.old.path.items }
    ensures place { walk.new.place ≡ place }
    ensures graph { walk.new.turns.graph ≡ walk.old.turns.graph }
    ensures targets { walk.new.turns.targets ≡ walk.old.turns.targets }
    ensures begun { walk.new.begun ≡ walk.old.begun }
{
    'turns: loop {
        if walk.path.len() == depth {
            if walk.place == place {
                return;
            }
        }
        walk.take_turn();
    }
}
