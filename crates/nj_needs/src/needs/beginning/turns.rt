//! The walk's only way to the graph. Each look at a place of a row, and each closing of an edge, is
//! one turn, and is counted.
//!
//! The fields are private, and the constructor is visible only in the module above, where a walk
//! begins. So whoever is handed a `Turns` takes turns only by it, and no count can be dropped.

ghost use Rattle.std.specs.Prelude.{◌≡◌, ◌+◌, ◌^◌, ◌<◌, length, true, All, IfSome, is_some, option_map, slice_get, slice_set, if◌then◌else◌};
ghost use Rattle.std.specs.Option.{ForSome};
ghost use Rattle.nj_cycles.specs.Cycles.{IsAcyclic};
ghost use Rattle.nj_needs.specs.Graphs.{makers_of, count_of, is_phony, row_of};
ghost use Rattle.nj_needs.specs.Inside.Tops.{counted, row_in};
ghost use Rattle.nj_needs.specs.Needs.{AreWithin};
ghost use Rattle.nj_needs.specs.Walks.{number_of};

use crate::looks::look_at;
use crate::reserved_list::ReservedList;
use nj_edges::{EdgeGraph, EdgeNo, FileNo};

/// The graph and the targets, and how many turns were taken. The count stays at the greatest `u64`.
#[derive(Drop)]
pub(crate) struct Turns<'g> {
    graph: &'g EdgeGraph,
    targets: &'g [FileNo],
    taken: u64,
    ghost targets_in: { All (λ f. f.0 < length graph.now.files) targets.now },
}

impl<'g> Turns<'g> {
    /// No turn was taken yet.
    pub(super) fn new(graph: &'g EdgeGraph, targets: &'g [FileNo]) -> Turns<'g>
        requires { All (λ f. f.0 < length graph.now.files) targets.now }
        ensures graph { result.graph ≡ graph.entry }
        ensures targets { result.targets ≡ targets.entry }
        ensures taken { result.taken ≡ 0 }
    {
        Turns {
            graph,
            targets,
            taken: 0,
        }
    }

    /// The number of edges.
    pub fn edge_count(&self) -> usize
        ensures count { result ≡ count_of self.now.graph.now }
        ensures acyclic { IsAcyclic (makers_of self.now.graph.now) (count_of self.now.graph.now) }
        ensures within { AreWithin (row_of self.now.graph.now self.now.targets.now)
            (count_of self.now.graph.now) }
    {
        self.graph.edge_count()
    }

    /// A look at a place: in the inputs of an edge, or in the targets if no edge is given. Returns
    /// `None` past the end, which takes no turn, and `Some(None)` at a source.
    pub fn look(&mut self, edge: Option<EdgeNo>, place: usize) -> Option<Option<EdgeNo>>
        requires { ForSome edge (λ e. e.0 < count_of self.old.graph.now) }
        ensures found { option_map number_of result
            ≡ slice_get (row_in self.old.graph.now self.old.targets.now edge) place }
        ensures fits { IfSome result (λ _. place + 1 < 2 ^ 64) }
        ensures graph { self.new.graph ≡ self.old.graph }
        ensures targets { self.new.targets ≡ self.old.targets }
        ensures turn { self.new.taken
            ≡ (if is_some result then counted self.old.taken else self.old.taken) }
    {
        let maker = look_at(self.graph, self.targets, edge, place)?;
        self.taken = self.taken.saturating_add(1);
        Some(maker)
    }

    /// Closes an edge: sets its flag. Returns whether it is phony.
    pub fn close(&mut self, edge: EdgeNo, flags: &mut ReservedList<bool>) -> bool
        requires edge_in { edge.0 < count_of self.old.graph.now }
        requires flag_in { edge.0 < length flags.old.items }
        ensures phony { result ≡ is_phony self.old.graph.now edge.0 }
        ensures flag { flags.new.items ≡ slice_set flags.old.items edge.0 true }
        ensures graph { self.new.graph ≡ self.old.graph }
        ensures targets { self.new.targets ≡ self.old.targets }
        ensures turn { self.new.taken ≡ counted self.old.taken }
    {
        self.taken = self.taken.saturating_add(1);
        flags.set(edge.0, true);
        self.graph.is_phony(edge)
    }

    /// How many turns were taken.
    pub fn taken(&self) -> u64
        ensures { result ≡ self.now.taken }
    {
        self.taken
    }
}
