//! The walk: depth first over the needed edges, by a stack of its own, with a flag for each edge
//! that is done.

ghost use Rattle.std.specs.Prelude.{◌≡◌, ◌+◌, ◌-◌, ◌^◌, ◌<◌, ◌≤◌, [], ◌∷◌, ◌++◌, length, MatchOption, None, slice_get, slice_index_or, IfOk};
ghost use Rattle.nj_needs.specs.Cited.{saturated, IsWalk, TurnIs, top_of, IsTop};

use crate::frame::Frame;
use crate::needs::beginning::turns::Turns;
use crate::reserved_list::ReservedList;
use nj_edges::EdgeNo;
use std::alloc::{AllocError, Global};

/// Where a walk is: the open edges, the first opened first; the next place in the inputs of the
/// last open edge, or in the targets if no edge is open; and for each edge whether it is done.
#[derive(Drop)]
pub(crate) struct Walk<'g> {
    pub turns: Turns<'g>,
    pub path: ReservedList<Frame>,
    pub place: usize,
    pub flags: ReservedList<bool>,
    /// How many numbers the mark has with which the walk began.
    pub begun: usize,
}

/// The result of one turn: it looked at a place, it closed an edge, or there was nothing left to
/// do.
#[derive(Drop)]
pub(crate) enum Turn {
    Looked,
    Closed(EdgeNo, bool),
    Ended,
}

impl<'g> Walk<'g> {
    /// A walk from the start, with capacity for every path. Fails only if an allocation fails.
    pub fn new(alloc: Global, turns: Turns<'g>, begun: usize) -> Result<Walk<'g>, AllocError>
        requires { turns.taken ≡ saturated begun }
        ensures walk { IfOk result (λ w. IsWalk w) }
        ensures turns { IfOk result (λ w. w.turns ≡ turns.entry) }
        ensures path { IfOk result (λ w. w.path.items ≡ []) }
        ensures place { IfOk result (λ w. w.place ≡ 0) }
        ensures begun { IfOk result (λ w. w.begun ≡ begun) }
    {
        let count = turns.edge_count();
        let path = Vec::with_capacity(alloc, count)?;
        let flags = vec![in alloc; false; count]?;
        Ok(Walk {
            turns,
            path: ReservedList::new(path),
            place: 0,
            flags: ReservedList::new(flags),
            begun,
        })
    }

    /// Takes one turn: looks at the next place, and opens an edge there that is not done; or, past
    /// the end of a row, closes the last open edge.
    pub fn take_turn(&mut self) -> Turn
        requires { IsWalk self.old }
        ensures walk { IsWalk self.new }
        ensures turn { TurnIs self.old result self.new }
        ensures graph { self.new.turns.graph ≡ self.old.turns.graph }
        ensures targets { self.new.turns.targets ≡ self.old.turns.targets }
        ensures begun { self.new.begun ≡ self.old.begun }
    {
        let edge = top_edge(self.path.as_slice());
        let Some(found) = self.turns.look(edge, self.place) else {
            return self.close();
        };
        let Some(maker) = found else {
            self.place += 1;
            return Turn::Looked;
        };
        if self.flags.get(maker.0) {
            self.place += 1;
            return Turn::Looked;
        }
        self.path.push(Frame {
            edge: maker,
            at: self.place,
        });
        self.place = 0;
        Turn::Looked
    }

    // Past the end of a row: closes the last open edge.
    fn close(&mut self) -> Turn
        requires walk { IsWalk self.old }
        requires past { slice_get (top_of self.old.turns.graph.now self.old.turns.targets.now
            self.old.path.items) self.old.place ≡ None }
        ensures walk { IsWalk self.new }
        ensures turn { TurnIs self.old result self.new }
        ensures graph { self.new.turns.graph ≡ self.old.turns.graph }
        ensures targets { self.new.turns.targets ≡ self.old.turns.targets }
        ensures begun { self.new.begun ≡ self.old.begun }
    {
        let Some(frame) = self.path.pop() else {
            return Turn::Ended;
        };
        let phony = self.turns.close(frame.edge, &mut self.flags);
        self.place = frame.at + 1;
        Turn::Closed(frame.edge, phony)
    }
}

// The last open edge.
pub(crate) fn top_edge(path: &[Frame]) -> Option<EdgeNo>
    ensures { IsTop path.now result }
{
    match path {
        [] => None,
        [.., frame] => Some(frame.edge),
    }
}
