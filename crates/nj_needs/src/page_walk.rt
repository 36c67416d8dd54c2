//! Pages of a walk, and the mark after each.

ghost use Rattle.nj_needs.specs.Walks.{number_of};
ghost use Rattle.std.specs.Prelude.{◌≡◌, ◌<◌, ◌-◌, ℕ, Option, List, Some, IfOk, IfSome, length, option_map};
ghost use Rattle.nj_needs.specs.Cited.{written, GoesOn, HasSoFar, StopsAt, WalkState};

use crate::marks::Mark;
use crate::needs::Needs;
use nj_edges::EdgeNo;
use std::alloc::{AllocError, Global};

impl<'g> Needs<'g> {
    /// Returns the next edge of a page: that of `next`, unless the page has all edges that it may
    /// have. `room` is how many it may still have, `None` for any number: it falls by one with each
    /// edge. It allocates nothing.
    pub fn next_on_page(&mut self, room: &mut Option<u64>) -> Option<EdgeNo>
        ensures goes_on { (begun : WalkState) → (limit : Option ℕ) → (edges : List ℕ)
            → HasSoFar begun limit edges self.old room.old
            → GoesOn begun limit edges (number_of result) self.new room.new }
        ensures fewer { IfSome result (λ _. length self.new.left < length self.old.left) }
        ensures known { IfSome result (λ edge. edge.0 < length self.old.graph.edges) }
    {
        if *room == Some(0) {
            return None;
        }
        let edge = self.next()?;
        *room = one_fewer(*room);
        Some(edge)
    }

    /// The mark after a page: where a walk can be resumed for the rest, or `None` if nothing is
    /// left. `room` is as `next_on_page` left it when it returned `None`. The walk must not be used
    /// again after this call.
    ///
    /// # Errors
    ///
    /// An allocation failed.
    pub fn mark_after_page(
        &mut self,
        alloc: Global,
        room: Option<u64>,
    ) -> Result<Option<Mark>, AllocError>
        ensures { (begun : WalkState) → (limit : Option ℕ) → (edges : List ℕ)
            → HasSoFar begun limit edges self.old room → written limit begun.left ≡ edges
            → IfOk result (λ mark. StopsAt begun limit mark) }
    {
        if room != Some(0) {
            return Ok(None);
        }
        let mark = self.mark(alloc)?;
        Ok(self.next().map(|_| mark))
    }
}

// How many edges there may still be after one more.
fn one_fewer(room: Option<u64>) -> Option<u64>
    ensures { result ≡ option_map (λ count. count - 1) room }
{
    match room {
        Some(count) => Some(count.saturating_sub(1)),
        None => None,
    }
}
