//! The depth-first walk over the edges, in the order of their numbers.
ghost use Rattle.std.specs.Prelude.{◌≡◌, ℕ, ◌<◌, false, [], ◌∷◌, ◌++◌, vec_len, length, slice_set, IfOk, OnOk, IfSome};
ghost use Rattle.nj_cycles.specs.Cited.{AreEdges, stage_of, stage_of_maker, IsSeen, IsSoundAt, WalkIsSound, EndsAt, TakesTurn, IsFalling, Walked};

use crate::maker_lists::EdgeInputs;
use std::alloc::{AllocError, Global};

/// How far the walk is with an edge.
#[derive(Clone, Copy)]
enum Stage {
    Unseen,
    Open,
    Done,
}

/// A walk: for each edge its stage and the index of its next input, the path of open edges, the
/// edges that are finished, in that order, and whether an open maker was met.
#[derive(Drop)]
struct Walk {
    stages: Vec<Stage>,
    next: Vec<usize>,
    path: Vec<usize>,
    order: Vec<usize>,
    meets_open: bool,
}

/// The edges in the order in which the walk finished them.
#[derive(Drop)]
pub(crate) struct FinishedWalk {
    pub(crate) order: Vec<usize>,
    pub(crate) meets_open: bool,
}

/// The stage of an input's maker. There is nothing to do for a source.
fn stage_of_maker(stages: &[Stage], maker: Option<usize>) -> Stage
    requires { IfSome maker (λ edge. edge < length stages.now) }
    ensures { result ≡ stage_of_maker stages.now maker }
{
    match maker {
        Some(edge) => stages[edge],
        None => Stage::Done,
    }
}

impl Walk {
    /// No edge is seen.
    fn new<I: EdgeInputs>(alloc: Global, inputs: &I) -> Result<Self, AllocError>
        ensures sound { IfOk result (λ walk.
            WalkIsSound (I.makers inputs.now) (I.count inputs.now) walk) }
        ensures path { IfOk result (λ walk. walk.path.items ≡ []) }
    {
        let count = inputs.edge_count();
        Ok(Walk {
            stages: vec![in alloc; Stage::Unseen; count]?,
            next: vec![in alloc; 0; count]?,
            path: Vec::with_capacity(alloc, count)?,
            order: Vec::with_capacity(alloc, count)?,
            meets_open: false,
        })
    }

    /// Opens an unseen edge.
    fn open(&mut self, edge: usize) -> Result<(), AllocError>
        requires { edge < vec_len self.old.stages }
        ensures path { OnOk result (self.new.path.items ≡ self.old.path.items ++ edge ∷ []) }
        ensures stages { OnOk result (self.new.stages.items
            ≡ slice_set self.old.stages.items edge Stage.Open) }
        ensures next { self.new.next.items ≡ self.old.next.items }
        ensures order { self.new.order.items ≡ self.old.order.items }
        ensures meets_open { self.new.meets_open ≡ self.old.meets_open }
    {
        self.path.push(edge)?;
        self.stages[edge] = Stage::Open;
        Ok(())
    }

    /// Finishes an open edge.
    fn finish(&mut self, edge: usize) -> Result<(), AllocError>
        requires { edge < vec_len self.old.stages }
        ensures order { OnOk result (self.new.order.items ≡ self.old.order.items ++ edge ∷ []) }
        ensures stages { OnOk result (self.new.stages.items
            ≡ slice_set self.old.stages.items edge Stage.Done) }
        ensures next { self.new.next.items ≡ self.old.next.items }
        ensures path { self.new.path.items ≡ self.old.path.items }
        ensures meets_open { self.new.meets_open ≡ self.old.meets_open }
    {
        self.order.push(edge)?;
        self.stages[edge] = Stage::Done;
        Ok(())
    }

    /// Passes inputs of the edge that was taken from the end of the path, up to the first whose
    /// maker is unseen, and returns that maker.
    fn pass_inputs<I: EdgeInputs>(&mut self, inputs: &I, edge: usize) -> Option<usize>
        requires edges { AreEdges (I.makers inputs.now) (I.count inputs.now) }
        requires sound { IsSoundAt (I.makers inputs.now) (I.count inputs.now) self.old edge }
        ensures comes_after { IsSoundAt (I.makers inputs.now) (I.count inputs.now) self.new edge }
        ensures stages { self.new.stages.items ≡ self.old.stages.items }
        ensures ends { EndsAt (I.makers inputs.now) edge self.new result }
    {
        'inputs: while let Some(maker) = inputs.maker_at(edge, self.next[edge]) {
            let stage = stage_of_maker(&self.stages, maker);
            if let Stage::Unseen = stage {
                return maker;
            }
            self.next[edge] += 1;
            if let Stage::Open = stage {
                self.meets_open = true;
            }
        }
        None
    }

    /// Continues with the edge that was taken from the end of the path: opens its next unseen
    /// maker, or finishes it.
    fn take_turn<I: EdgeInputs>(&mut self, inputs: &I, edge: usize) -> Result<(), AllocError>
        requires edges { AreEdges (I.makers inputs.now) (I.count inputs.now) }
        requires sound { IsSoundAt (I.makers inputs.now) (I.count inputs.now) self.old edge }
        ensures { OnOk result (TakesTurn (I.makers inputs.now) (I.count inputs.now)
            self.old self.new) }
    {
        match self.pass_inputs(inputs, edge) {
            Some(maker) => {
                self.path.push(edge)?;
                self.open(maker)
            }
            None => self.finish(edge),
        }
    }

    /// Finishes an unseen edge, and before it all unseen edges that it needs.
    fn visit<I: EdgeInputs>(&mut self, inputs: &I, edge: usize) -> Result<(), AllocError>
        requires edges { AreEdges (I.makers inputs.now) (I.count inputs.now) }
        requires sound { WalkIsSound (I.makers inputs.now) (I.count inputs.now) self.old }
        requires path { self.old.path.items ≡ [] }
        requires edge_in { edge < I.count inputs.now }
        requires unseen { stage_of self.old.stages.items edge ≡ Stage.Unseen }
        ensures comes_after { OnOk result
            (WalkIsSound (I.makers inputs.now) (I.count inputs.now) self.new) }
        ensures path_after { OnOk result (self.new.path.items ≡ []) }
        ensures seen { OnOk result (IsSeen self.new.stages.items edge) }
        ensures kept { OnOk result ((e : ℕ) → IsSeen self.old.stages.items e
            → IsSeen self.new.stages.items e) }
    {
        self.open(edge)?;
        'turns: while let Some(last) = self.path.pop() {
            self.take_turn(inputs, last)?;
        }
        Ok(())
    }
}

/// Walks over all edges, which takes each edge's inputs once.
pub(crate) fn finish_all<I: EdgeInputs>(
    alloc: Global,
    inputs: &I,
) -> Result<FinishedWalk, AllocError>
    ensures walked { IfOk result (λ finished.
        Walked (I.makers inputs.now) (I.count inputs.now) finished.order.items) }
    ensures falling { IfOk result (λ finished. finished.meets_open ≡ false
        → IsFalling (I.makers inputs.now) finished.order.items) }
{
    let mut walk = Walk::new(alloc, inputs)?;
    'edges: for edge in 0..inputs.edge_count() {
        if let Stage::Unseen = walk.stages[edge] {
            walk.visit(inputs, edge)?;
        }
    }
    Ok(FinishedWalk {
        order: walk.order,
        meets_open: walk.meets_open,
    })
}
