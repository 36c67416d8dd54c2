//! The walk over the commands that targets need.

ghost use Rattle.nj_needs.specs.Walks.{number_of};
ghost use Rattle.std.specs.Prelude.{◌≡◌, ◌<◌, length, IfOk, IfSome};
ghost use Rattle.nj_needs.specs.Cited.{item_count, ReadsBack, saturated, IsSound, IsSameWalk, NextIs, ReturnsNext};

pub(crate) mod beginning;

use crate::marks::Mark;
use crate::next_edge::next_edge;
use crate::resume_point::Saved;
use crate::walk::Walk;
use nj_edges::EdgeNo;
use std::alloc::{AllocError, Global};
use std::iter::FusedIterator;
use std::marker::Model;

/// The edges with commands that targets need, each after all that it needs, in the order in which
/// they are first completed from left to right.
#[derive(Drop)]
pub struct Needs<'g> {
    walk: Walk<'g>,
    saved: Saved,
}

impl<'g> Model for Needs<'g> {
    ghost use Rattle.nj_needs.specs.Walks.{WalkState};

    ghost Value = { WalkState };

    ghost use Rattle.nj_needs.specs.Inside.Views.{state_of, IsNeeds};

    ghost view = { λ n. state_of n.walk n.saved };

    ghost invariant = { λ n. IsNeeds n.walk n.saved };
}

impl<'g> Needs<'g> {
    /// Returns the next edge that is needed and is not phony. After `None` it always returns
    /// `None`. It allocates nothing.
    pub fn next(&mut self) -> Option<EdgeNo>
        ensures next { NextIs self.old (number_of result) self.new }
        ensures same { IsSameWalk self.old self.new }
        ensures known { IfSome result (λ edge. edge.0 < length self.old.graph.edges) }
    {
        next_edge(&mut self.walk, &mut self.saved)
    }

    /// Returns the address of the edge that `next` returned last, also after `None`; before any
    /// edge, the mark that the walk began with. Its text reads back as that mark. Fails only if an
    /// allocation fails.
    pub fn mark(&self, alloc: Global) -> Result<Mark, AllocError>
        ensures mark { IfOk result (λ m. m ≡ self.now.mark) }
        ensures reads_back { ReadsBack self.now.mark }
        ensures sound { IsSound self.now }
    {
        Mark::from_numbers(alloc, self.saved.numbers.as_slice())
    }

    /// How many turns were taken, including those of resuming: looks at a place of the target list
    /// or of a list of inputs, and closings of an edge. The count stays at the greatest `u64`.
    pub fn turns(&self) -> u64
        ensures turns { result ≡ saturated self.now.turns }
        ensures sound { IsSound self.now }
    {
        self.walk.turns.taken()
    }
}

/// The walk in a `for` loop, or through the adapters of `std`: each item is a result of
/// `Needs::next`. A loop over `&mut needs` leaves the walk after its last item.
impl<'g> Iterator for Needs<'g> {
    type Item = EdgeNo;

    ghost next_gives = { ReturnsNext };

    ghost remaining = { item_count (λ walk. walk.left) };

    fn next(&mut self) -> Option<EdgeNo> {
        Needs::next(self)
    }
}

impl<'g> FusedIterator for Needs<'g> {}
