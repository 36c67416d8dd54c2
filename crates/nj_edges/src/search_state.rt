//! The search for the edges that an edge needs.

ghost use Rattle.std.specs.Prelude.{◌≡◌, ◌<◌, List, Some, true, length, map, slice_index, All, Contains, IfOk, OnOk};
ghost use Rattle.nj_edges.specs.Cited.{IsOrNeeds, MakesOneOf, EdgePaths, FindsMore, path_at, AreMakers, Finds, IsSearch, IsSearchAt, IsSearched, StartsWith, Tells};

use crate::edges::EdgeNo;
use crate::graph::EdgeGraph;
use nj_names::{FileNo, RoundSet};
use std::alloc::{AllocError, Global};
use std::mem;

/// The state of a search for the edges that an edge needs. The search stops as soon as it has found
/// the edge in question, and the next query resumes it, also for another edge whose inputs the same
/// edges make.
#[derive(Drop)]
pub(crate) struct SearchState {
    // the edge of the last query
    edge: Option<EdgeNo>,
    // the edges that make its inputs
    starts: Vec<usize>,
    // the buffer for the starts of the next edge
    next: Vec<usize>,
    // the edges that were found, which include the makers of the inputs of each edge before the
    // place
    found: RoundSet,
    place: usize,
}

impl SearchState {
    /// The state before any search, among `edge_count` edges. Fails only if an allocation fails.
    pub(crate) fn among(alloc: Global, edge_count: usize) -> Result<SearchState, AllocError>
        ensures { IfOk result (λ search. (edges : List EdgePaths)
            → length edges ≡ edge_count → IsSearch edges search) }
    {
        Ok(SearchState {
            edge: None,
            starts: Vec::new(alloc),
            next: Vec::new(alloc),
            found: RoundSet::none_below(alloc, edge_count)?,
            place: 0,
        })
    }

    /// Whether an edge is another, or needs it through a chain of inputs. Fails only if an
    /// allocation fails.
    pub(crate) fn is_or_needs(
        &mut self,
        graph: &EdgeGraph,
        edge: EdgeNo,
        other: EdgeNo,
    ) -> Result<bool, AllocError>
        requires search { IsSearch graph.now.edges self.old }
        requires edge { edge.0 < length graph.now.edges }
        requires other { other.0 < length graph.now.edges }
        ensures tells { IfOk result (λ answer.
            Tells answer (IsOrNeeds graph.now.edges edge.0 other.0)) }
        ensures search { OnOk result (IsSearch graph.now.edges self.new) }
    {
        if edge == other {
            return Ok(true);
        }
        self.start_at(graph, edge)?;
        self.finds(graph, other)
    }

    // Starts with the edges that make the inputs of an edge.
    fn start_at(&mut self, graph: &EdgeGraph, edge: EdgeNo) -> Result<(), AllocError>
        requires search { IsSearch graph.now.edges self.old }
        requires edge { edge.0 < length graph.now.edges }
        ensures { OnOk result (IsSearchAt graph.now.edges edge.0 self.new) }
    {
        if self.is_at(edge) {
            return Ok(());
        }
        put_makers(&mut self.next, graph, graph.inputs(edge))?;
        self.start_with_next()?;
        self.edge = Some(edge);
        Ok(())
    }

    // Whether the last query was for this edge.
    fn is_at(&self, edge: EdgeNo) -> bool
        ensures { result ≡ true → self.now.edge ≡ Some edge }
    {
        match self.edge {
            Some(last) => last == edge,
            None => false,
        }
    }

    // Starts with the edges in the buffer. If they are the same as before, the edges found are
    // kept.
    fn start_with_next(&mut self) -> Result<(), AllocError>
        requires { All (λ edge. edge < self.old.found.limit) self.old.next.items }
        ensures { (edges : List EdgePaths)
            → IsSearched edges self.old.starts.items self.old.found self.old.place
            → OnOk result (StartsWith edges self.old.next.items self.new) }
    {
        if is_same(&self.next, &self.starts) {
            return Ok(());
        }
        mem::swap(&mut self.next, &mut self.starts);
        self.place = 0;
        self.found.clear();
        add_all(&mut self.found, &self.starts)?;
        Ok(())
    }

    // Goes on until the edge is found. Returns whether it is.
    fn finds(&mut self, graph: &EdgeGraph, edge: EdgeNo) -> Result<bool, AllocError>
        requires search { IsSearch graph.now.edges self.old }
        requires edge { edge.0 < length graph.now.edges }
        ensures { IfOk result (Finds graph.now.edges edge.0 self.old self.new) }
    {
        'edges: while !self.found.contains(edge.0) {
            if self.place >= self.found.numbers().len() {
                return Ok(false);
            }
            let user = edge_found(&self.found, self.place);
            add_makers(&mut self.found, graph, graph.inputs(user))?;
            self.place += 1;
        }
        Ok(true)
    }
}

// Whether both lists have the same numbers.
fn is_same(numbers: &[usize], others: &[usize]) -> bool
    ensures { result ≡ true → numbers.now ≡ others.now }
{
    numbers == others
}

// The edge at a place in the order in which edges were found.
fn edge_found(found: &RoundSet, place: usize) -> EdgeNo
    requires { place < length found.now.numbers }
    ensures edge { result.0 ≡ slice_index found.now.numbers place }
    ensures known { result.0 < found.now.limit }
{
    EdgeNo(found.numbers()[place])
}

// Adds the given numbers.
fn add_all(found: &mut RoundSet, numbers: &[usize]) -> Result<(), AllocError>
    requires { All (λ number. number < found.old.limit) numbers.now }
    ensures { OnOk result (FindsMore (Contains numbers.now) found.old found.new) }
{
    'numbers: for number in numbers {
        found.insert(*number)?;
    }
    Ok(())
}

// Adds the edges that make the given files.
fn add_makers(found: &mut RoundSet, graph: &EdgeGraph, files: &[FileNo]) -> Result<(), AllocError>
    requires limit { found.old.limit ≡ length graph.now.edges }
    requires files { All (λ file. file.0 < length graph.now.files) files.now }
    ensures { OnOk result (FindsMore
        (MakesOneOf graph.now.edges (map (path_at graph.now.files) files.now))
        found.old found.new) }
{
    'files: for file in files {
        match graph.maker(*file) {
            Some(edge) => add(found, edge)?,
            None => {}
        }
    }
    Ok(())
}

// Adds an edge.
fn add(found: &mut RoundSet, edge: EdgeNo) -> Result<(), AllocError>
    requires { edge.0 < found.old.limit }
    ensures { OnOk result (FindsMore (λ e. e ≡ edge.0) found.old found.new) }
{
    found.insert(edge.0)?;
    Ok(())
}

// Replaces the edges by the makers of the given files.
fn put_makers(edges: &mut Vec<usize>, graph: &EdgeGraph, files: &[FileNo]) -> Result<(), AllocError>
    requires { All (λ file. file.0 < length graph.now.files) files.now }
    ensures { OnOk result (AreMakers graph.now files.now edges.new.items) }
{
    edges.clear();
    'files: for file in files {
        if let Some(edge) = graph.maker(*file) {
            edges.push(edge.0)?;
        }
    }
    Ok(())
}
