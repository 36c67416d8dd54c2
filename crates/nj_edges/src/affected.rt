//! The edges that a change of files affects.

ghost use Rattle.std.specs.Prelude.{◌≡◌, ◌↔◌, ℕ, ◌<◌, length, map, slice_index, All, Contains, IfOk, OnOk};
ghost use Rattle.nj_edges.specs.Cited.{IsStrictlyIncreasing, IsAffected, AffectedEdgesNeedTheFiles, edges_from, path_at, FindsMore, HasInputOf, numbers_of};

use crate::edges::EdgeNo;
use crate::graph::EdgeGraph;
use nj_names::{FileNo, NumberSet};
use std::alloc::{AllocError, Global};

// Adds the given edges.
pub(crate) fn add_all(found: &mut NumberSet, edges: &[EdgeNo]) -> Result<(), AllocError>
    requires { All (λ edge. edge.0 < found.old.limit) edges.now }
    ensures { OnOk result (FindsMore (Contains (numbers_of edges.now)) found.old found.new) }
{
    'edges: for edge in edges {
        add(found, *edge)?;
    }
    Ok(())
}

// Adds an edge.
pub(crate) fn add(found: &mut NumberSet, edge: EdgeNo) -> Result<(), AllocError>
    requires { edge.0 < found.old.limit }
    ensures { OnOk result (FindsMore (λ e. e ≡ edge.0) found.old found.new) }
{
    found.insert(edge.0)?;
    Ok(())
}

// The edge at a place in the order in which edges were found.
pub(crate) fn edge_found(found: &NumberSet, place: usize) -> EdgeNo
    requires { place < length found.now.numbers }
    ensures edge { result.0 ≡ slice_index found.now.numbers place }
    ensures known { result.0 < found.now.limit }
{
    EdgeNo(found.numbers()[place])
}

// Adds the edges that have one of the given files as an input.
fn add_users(found: &mut NumberSet, graph: &EdgeGraph, files: &[FileNo]) -> Result<(), AllocError>
    requires limit { found.old.limit ≡ length graph.now.edges }
    requires files { All (λ file. file.0 < length graph.now.files) files.now }
    ensures { OnOk result (FindsMore
        (HasInputOf graph.now.edges (map (path_at graph.now.files) files.now))
        found.old found.new) }
{
    'files: for file in files {
        add_all(found, graph.users(*file))?;
    }
    Ok(())
}

impl EdgeGraph {
    /// Returns the edges that a change of the given files affects: the edges that need one of the
    /// files through any chain of inputs, phony edges included, without duplicates, by number. All
    /// kinds of inputs count equally; validations are not inputs. A given file that an edge makes
    /// also counts as changed, which does not make its maker affected.
    ///
    /// Takes time in proportion to the affected edges, their outputs, and the users of their
    /// outputs and of the files, plus a flag for each edge of the graph and one pass over the
    /// flags. Fails only if an allocation fails.
    pub fn affected_by(&self, alloc: Global, files: &[FileNo]) -> Result<Vec<EdgeNo>, AllocError>
        requires { All (λ file. file.0 < length self.now.files) files.now }
        ensures affected { IfOk result (λ found. (edge : ℕ)
            → Contains (map (λ e. e.0) found.items) edge
            ↔ IsAffected self.now.edges (map (path_at self.now.files) files.now) edge) }
        ensures rises { IfOk result (λ found.
            IsStrictlyIncreasing (map (λ edge. edge.0) found.items)) }
        ensures known { IfOk result (λ found.
            All (λ edge. edge.0 < length self.now.edges) found.items) }
    {
        let found = self.affected_edges(alloc, files)?;
        flagged(alloc, found.flags())
    }

    // The edges that a change of the given files affects, in the order in which they are found.
    fn affected_edges(&self, alloc: Global, files: &[FileNo]) -> Result<NumberSet, AllocError>
        requires { All (λ file. file.0 < length self.now.files) files.now }
        ensures limit { IfOk result (λ found. found.limit ≡ length self.now.edges) }
        ensures found { IfOk result (λ found. (edge : ℕ) → Contains found.numbers edge
            ↔ IsAffected self.now.edges (map (path_at self.now.files) files.now) edge) }
    {
        let mut found = NumberSet::none_below(alloc, self.edge_count())?;
        add_users(&mut found, self, files)?;
        let mut place = 0;
        'edges: while place < found.numbers().len() {
            let edge = edge_found(&found, place);
            add_users(&mut found, self, self.outputs(edge))?;
            place += 1;
        }
        Ok(found)
    }
}

// The edges with a flag, by number.
pub(crate) fn flagged(alloc: Global, flags: &[bool]) -> Result<Vec<EdgeNo>, AllocError>
    ensures { IfOk result (λ edges.
        numbers_of edges.items ≡ edges_from 0 (λ flag. flag) flags.now) }
{
    let mut edges = Vec::new(alloc);
    'edges: for (number, flag) in flags.iter().enumerate() {
        if *flag {
            edges.push(EdgeNo(number))?;
        }
    }
    Ok(edges)
}

/// If no file has two makers, an edge is affected by files exactly if it has one of them as an
/// input, or needs by a chain an edge that has one of them as an input.
pub fn affected_law()
    ensures { AffectedEdgesNeedTheFiles }
{}
