//! The edges that files need.

ghost use Rattle.std.specs.Prelude.{◌≡◌, ◌↔◌, ℕ, ◌<◌, length, map, nat_eq, All, Contains, IfOk, OnOk};
ghost use Rattle.nj_edges.specs.Cited.{IsDistinct, AreNearestFirst, IsNeeded, MakesOneOf, path_at, FindsMore, numbers_of};

use crate::affected::{add, edge_found};
use crate::edges::EdgeNo;
use crate::graph::EdgeGraph;
use nj_names::{FileNo, NumberSet};
use std::alloc::{AllocError, Global};

impl EdgeGraph {
    /// Returns the edges that the given files need through any chain of inputs, phony edges
    /// included, without duplicates, nearest first: the makers of the files, then the makers of
    /// their inputs, and so on. All kinds of inputs count equally; validations are not inputs.
    ///
    /// Takes time in proportion to the files, the needed edges and their inputs, plus a flag for
    /// each edge of the graph. Fails only if an allocation fails.
    pub fn needed_by(&self, alloc: Global, files: &[FileNo]) -> Result<Vec<EdgeNo>, AllocError>
        requires { All (λ file. file.0 < length self.now.files) files.now }
        ensures needed { IfOk result (λ found. (edge : ℕ)
            → Contains (map (λ e. e.0) found.items) edge
            ↔ IsNeeded self.now.edges (map (path_at self.now.files) files.now) edge) }
        ensures each_once { IfOk result (λ found.
            IsDistinct nat_eq (map (λ edge. edge.0) found.items)) }
        ensures nearest_first { IfOk result (λ found.
            AreNearestFirst self.now.edges (map (path_at self.now.files) files.now)
            (map (λ edge. edge.0) found.items)) }
        ensures known { IfOk result (λ found.
            All (λ edge. edge.0 < length self.now.edges) found.items) }
    {
        let found = self.needed_edges(alloc, files)?;
        numbered(alloc, found.numbers())
    }

    // The edges that the given files need, in the order in which they are found.
    fn needed_edges(&self, alloc: Global, files: &[FileNo]) -> Result<NumberSet, AllocError>
        requires { All (λ file. file.0 < length self.now.files) files.now }
        ensures limit { IfOk result (λ found. found.limit ≡ length self.now.edges) }
        ensures needed { IfOk result (λ found. (edge : ℕ) → Contains found.numbers edge
            ↔ IsNeeded self.now.edges (map (path_at self.now.files) files.now) edge) }
        ensures nearest_first { IfOk result (λ found. AreNearestFirst self.now.edges
            (map (path_at self.now.files) files.now) found.numbers) }
    {
        let mut found = NumberSet::none_below(alloc, self.edge_count())?;
        add_makers(&mut found, self, files)?;
        let mut place = 0;
        'edges: while place < found.numbers().len() {
            let edge = edge_found(&found, place);
            add_makers(&mut found, self, self.inputs(edge))?;
            place += 1;
        }
        Ok(found)
    }
}

// Adds the edges that make the given files.
fn add_makers(found: &mut NumberSet, graph: &EdgeGraph, files: &[FileNo]) -> Result<(), AllocError>
    requires limit { found.old.limit ≡ length graph.now.edges }
    requires files { All (λ file. file.0 < length graph.now.files) files.now }
    ensures { OnOk result (FindsMore
        (MakesOneOf graph.now.edges (map (path_at graph.now.files) files.now))
        found.old found.new) }
{
    'files: for file in files {
        match graph.maker(*file) {
            Some(edge) => add(found, edge)?,
            None => {}
        }
    }
    Ok(())
}

// The edges with the given numbers.
fn numbered(alloc: Global, numbers: &[usize]) -> Result<Vec<EdgeNo>, AllocError>
    ensures { IfOk result (λ edges. numbers_of edges.items ≡ numbers.now) }
{
    let mut edges = Vec::with_capacity(alloc, numbers.len())?;
    'numbers: for number in numbers {
        edges.push(EdgeNo(*number))?;
    }
    Ok(edges)
}
