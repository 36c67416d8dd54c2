//! The edges that lie on a cycle, from the order in which the walk finished the edges.
ghost use Rattle.std.specs.Prelude.{◌≡◌, ℕ, ◌<◌, Bool, true, false, List, Option, [], ◌∷◌, min, length, vec_len, All, Contains, MatchOption, IfOk, OnOk};
ghost use Rattle.nj_cycles.specs.Cited.{Vec, Needs, Walked, HaveUsers, users_of, IsMarked, AreMarks, MarksMore, IsLeastOf};

use crate::maker_lists::EdgeInputs;
use crate::reversed::users_of;
use std::alloc::{AllocError, Global};

/// For each edge whether it is marked, and the marked edges whose users are still to be marked.
#[derive(Drop)]
struct Marks {
    flags: Vec<bool>,
    pending: Vec<usize>,
}

impl Marks {
    /// None of `edge_count` edges is marked.
    fn none(alloc: Global, edge_count: usize) -> Result<Self, AllocError>
        ensures flags { IfOk result (λ marks. All (λ flag. flag ≡ false) marks.flags.items) }
        ensures len { IfOk result (λ marks. vec_len marks.flags ≡ edge_count) }
        ensures pending { IfOk result (λ marks. marks.pending.items ≡ []) }
    {
        let flags = vec![in alloc; false; edge_count]?;
        Ok(Marks {
            flags,
            pending: Vec::new(alloc),
        })
    }

    /// Marks an edge that has no mark yet.
    fn mark(&mut self, edge: usize) -> Result<(), AllocError>
        requires { edge < vec_len self.old.flags }
        ensures more { OnOk result (MarksMore (λ e. e ≡ edge) self.old self.new) }
        ensures marked { OnOk result (IsMarked self.new.flags.items edge) }
    {
        if self.flags[edge] {
            return Ok(());
        }
        self.pending.push(edge)?;
        self.flags[edge] = true;
        Ok(())
    }

    /// Marks each of the given edges.
    fn mark_all(&mut self, edges: &[usize]) -> Result<(), AllocError>
        requires { All (λ e. e < vec_len self.old.flags) edges.now }
        ensures more { OnOk result (MarksMore (Contains edges.now) self.old self.new) }
        ensures marked { OnOk result ((e : ℕ) → Contains edges.now e
            → IsMarked self.new.flags.items e) }
    {
        'edges: for edge in edges {
            self.mark(*edge)?;
        }
        Ok(())
    }

    /// Marks each edge that needs the given edge by a chain. The edges that need a marked edge are
    /// marked already, so that each edge's users are looked at once.
    fn mark_needing(&mut self, users: &[Vec<usize>], edge: usize) -> Result<(), AllocError>
        requires len { vec_len self.old.flags ≡ length users.now }
        requires known { (m e : ℕ) → Contains (users_of users.now m) e → e < length users.now }
        requires edge_in { edge < length users.now }
        requires pending { self.old.pending.items ≡ [] }
        ensures len_after { OnOk result (vec_len self.new.flags ≡ length users.now) }
        ensures pending_after { OnOk result (self.new.pending.items ≡ []) }
        ensures marks { OnOk result ((makers : ℕ → List (Option ℕ)) (edges : List ℕ)
            → HaveUsers (length users.now) (Needs makers) users.now
            → AreMarks makers edges self.old.flags.items
            → AreMarks makers (edge ∷ edges) self.new.flags.items) }
    {
        self.pending.push(edge)?;
        'pending: while let Some(next) = self.pending.pop() {
            self.mark_all(users_of(users, next))?;
        }
        Ok(())
    }
}

/// The smaller of an edge and the least edge so far.
fn lesser(least: Option<usize>, edge: usize) -> usize
    ensures { MatchOption least (result ≡ edge) (λ other. result ≡ min other edge) }
{
    match least {
        Some(other) => other.min(edge),
        None => edge,
    }
}

/// Returns the edge with the smallest number that lies on a cycle, or `None`, from the order in
/// which the walk finished the edges. From the end of that order on, all edges that need an edge
/// are marked, and the edge lies on a cycle exactly if it is then marked itself.
pub(crate) fn least_on_cycle<I: EdgeInputs>(
    alloc: Global,
    inputs: &I,
    users: &[Vec<usize>],
    order: &[usize],
) -> Result<Option<usize>, AllocError>
    requires users { HaveUsers (I.count inputs.now) (Needs (I.makers inputs.now)) users.now }
    requires walked { Walked (I.makers inputs.now) (I.count inputs.now) order.now }
    ensures { IfOk result (λ least. IsLeastOf (I.makers inputs.now) order.now least) }
{
    let mut marks = Marks::none(alloc, inputs.edge_count())?;
    let mut least = None;
    'edges: for index in (0..order.len()).rev() {
        let edge = order[index];
        marks.mark_needing(users, edge)?;
        if marks.flags[edge] {
            least = Some(lesser(least, edge));
        }
    }
    Ok(least)
}
