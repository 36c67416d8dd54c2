//! How a walk begins. Its counter of turns is made only here: no other module can name its
//! constructor.

ghost use Rattle.std.specs.Prelude.{◌≡◌, ◌<◌, [], length, All, IfOk};
ghost use Rattle.nj_needs.specs.Cited.{ResumeIs, BeginsAt, commands_of};

pub(crate) mod turns;

use crate::mark_fault::MarkFault;
use crate::marks::Mark;
use crate::needs::Needs;
use crate::resume_point::Saved;
use crate::resuming::{leads, rebuild};
use crate::walk::Walk;
use nj_edges::{EdgeGraph, FileNo};
use std::alloc::{AllocError, Global};
use turns::Turns;

impl<'g> Needs<'g> {
    /// A walk from the start. It reserves all the memory that the walk needs, and fails only if an
    /// allocation fails.
    pub fn new(
        alloc: Global,
        graph: &'g EdgeGraph,
        targets: &'g [FileNo],
    ) -> Result<Needs<'g>, AllocError>
        requires { All (λ f. f.0 < length graph.now.files) targets.now }
        ensures begins { IfOk result (λ n. BeginsAt graph.now targets.now [] n) }
        ensures commands { IfOk result (λ n. n.left ≡ commands_of graph.now targets.now) }
        ensures turns { IfOk result (λ n. n.turns ≡ 0) }
    {
        let turns = Turns::new(graph, targets);
        let capacity = turns.edge_count();
        let walk = Walk::new(alloc, turns, 0)?;
        let saved = Saved::new(alloc, &[], capacity)?;
        Ok(Needs { walk, saved })
    }

    /// The walk that continues at a mark: the edges left are those that were left there, in the
    /// same order. Any mark that leads to an edge at each step will do, even one that no walk
    /// returned. That is decided before anything is allocated; then all the memory that the walk
    /// needs is reserved.
    ///
    /// # Errors
    ///
    /// `MarkOutOfRange` if a step of the mark does not lead to an edge, and `OutOfMemory` if an
    /// allocation failed; never `BadMark`.
    pub fn resume(
        alloc: Global,
        graph: &'g EdgeGraph,
        targets: &'g [FileNo],
        mark: &Mark,
    ) -> Result<Needs<'g>, MarkFault>
        requires { All (λ f. f.0 < length graph.now.files) targets.now }
        ensures { ResumeIs graph.now targets.now mark.now result }
    {
        let mut turns = Turns::new(graph, targets);
        let capacity = turns.edge_count();
        let numbers = mark.numbers();
        if !leads(&mut turns, numbers) {
            return Err(MarkFault::MarkOutOfRange);
        }
        let mut walk = Walk::new(alloc, turns, numbers.len())?;
        let saved = Saved::new(alloc, numbers, capacity)?;
        rebuild(&mut walk, numbers);
        Ok(Needs { walk, saved })
    }
}
