//! The edges that are to be built again where files changed.

ghost use Rattle.std.specs.Prelude.{◌≡◌, ◌↔◌, ℕ, ◌<◌, length, map, All, Contains, IfOk, OnOk};
ghost use Rattle.nj_edges.specs.Cited.{IsStrictlyIncreasing, IsDirty, OtherEdgesAreUntouched, path_at, FindsMore, HasOneIn, HaveUsersIn};

use crate::affected::{add_all, edge_found, flagged};
use crate::edges::EdgeNo;
use crate::graph::EdgeGraph;
use crate::users::{RowPart, Users, users_at, users_of_files};
use nj_names::{FileNo, NumberSet};
use std::alloc::{AllocError, Global};

impl EdgeGraph {
    /// Returns the edges that have to be built again if the given files changed and the given edges
    /// are dirty by themselves, without duplicates, by number: the given edges, the edges that have
    /// one of the files as an output or as an explicit or implicit input, and the edges with an
    /// explicit or implicit input made by an edge that has to be built again. Phony edges are
    /// included. Order-only inputs and validations do not count.
    ///
    /// Takes time in proportion to the graph. Fails only if an allocation fails.
    pub fn dirtied_by(
        &self,
        alloc: Global,
        files: &[FileNo],
        edges: &[EdgeNo],
    ) -> Result<Vec<EdgeNo>, AllocError>
        requires files { All (λ file. file.0 < length self.now.files) files.now }
        requires edges { All (λ edge. edge.0 < length self.now.edges) edges.now }
        ensures dirty { IfOk result (λ found. (edge : ℕ)
            → Contains (map (λ e. e.0) found.items) edge
            ↔ IsDirty self.now.edges (map (path_at self.now.files) files.now)
            (map (λ e. e.0) edges.now) edge) }
        ensures rises { IfOk result (λ found.
            IsStrictlyIncreasing (map (λ edge. edge.0) found.items)) }
        ensures known { IfOk result (λ found.
            All (λ edge. edge.0 < length self.now.edges) found.items) }
    {
        let found = self.dirty_edges(alloc, files, edges)?;
        flagged(alloc, found.flags())
    }

    // The same edges, in the order in which they are found.
    fn dirty_edges(
        &self,
        alloc: Global,
        files: &[FileNo],
        edges: &[EdgeNo],
    ) -> Result<NumberSet, AllocError>
        requires files { All (λ file. file.0 < length self.now.files) files.now }
        requires edges { All (λ edge. edge.0 < length self.now.edges) edges.now }
        ensures limit { IfOk result (λ found. found.limit ≡ length self.now.edges) }
        ensures found { IfOk result (λ found. (edge : ℕ) → Contains found.numbers edge
            ↔ IsDirty self.now.edges (map (path_at self.now.files) files.now)
            (map (λ e. e.0) edges.now) edge) }
    {
        let makers = self.makers_of_files(alloc)?;
        let users = self.counted_users(alloc)?;
        let mut found = NumberSet::none_below(alloc, self.edge_count())?;
        add_all(&mut found, edges)?;
        self.add_users_in(&mut found, &makers, files)?;
        self.add_users_in(&mut found, &users, files)?;
        let mut place = 0;
        'edges: while place < found.numbers().len() {
            let edge = edge_found(&found, place);
            self.add_users_in(&mut found, &users, self.outputs(edge))?;
            place += 1;
        }
        Ok(found)
    }

    // For each file, the edges that have it as an explicit or implicit input.
    fn counted_users(&self, alloc: Global) -> Result<Users, AllocError>
        ensures { IfOk result (λ users. HaveUsersIn RowPart.CountedInputs self.now users) }
    {
        let file_count = self.files.count();
        users_of_files(
            alloc,
            file_count,
            &self.lists.inputs,
            &self.lists.rows,
            RowPart::CountedInputs,
        )
    }

    // For each file, the edges that have it as an output.
    fn makers_of_files(&self, alloc: Global) -> Result<Users, AllocError>
        ensures { IfOk result (λ makers. HaveUsersIn RowPart.Outputs self.now makers) }
    {
        let file_count = self.files.count();
        users_of_files(
            alloc,
            file_count,
            &self.lists.outputs,
            &self.lists.rows,
            RowPart::Outputs,
        )
    }

    // Adds the edges that have one of the given files in the part that `users` indexes.
    fn add_users_in(
        &self,
        found: &mut NumberSet,
        users: &Users,
        files: &[FileNo],
    ) -> Result<(), AllocError>
        requires limit { found.old.limit ≡ length self.now.edges }
        requires files { All (λ file. file.0 < length self.now.files) files.now }
        requires held { (part : RowPart) × HaveUsersIn part self.now users.now }
        ensures { OnOk result ((part : RowPart) → HaveUsersIn part self.now users.now
            → FindsMore
            (HasOneIn part self.now.edges (map (path_at self.now.files) files.now))
            found.old found.new) }
    {
        'files: for file in files {
            add_all(found, users_at(&users.starts, &users.edges, *file))?;
        }
        Ok(())
    }
}

/// An edge that does not have to be built again is not dirty by itself, does not have any of the
/// files as an output or as an explicit or implicit input, and does not have an explicit or
/// implicit input that an edge to be built again makes.
pub fn dirty_law()
    ensures { OtherEdgesAreUntouched }
{}
