//! Chains of inputs by which a file needs another.

ghost use Rattle.std.specs.Prelude.{◌≡◌, ◌<◌, ◌∷◌, [], None, option_map, bytes_eq, length, slice_index, All, IfOk, IfSome, OnOk};
ghost use Rattle.nj_edges.specs.Cited.{AddsInOrder, inputs_with, OnePathIsRight, has, with_number, PathIs, inputs_of_kinds, path_at, AreFiles, AddsMakers, ChainIs, ComeFromEarlier, MakesInput, StepIs, StepToIs, Traces, with_arrival, edge_at, IsDistinct};

use crate::affected::edge_found;
use crate::edges::{EdgeNo, Kind};
use crate::graph::EdgeGraph;
use crate::list_parts::first;
use nj_names::{FileNo, NumberSet};
use std::alloc::{AllocError, Global};

/// Which inputs a chain may follow besides explicit and implicit inputs.
#[derive(Clone, Copy, Debug, PartialEq, Eq)]
pub struct ChainKinds {
    pub order_only: bool,
    pub validations: bool,
}

/// A step of a chain: from an edge to one of its inputs, which the edge of the next step makes.
#[derive(Clone, Copy, Debug, PartialEq, Eq)]
pub struct Step {
    pub edge: EdgeNo,
    /// The index of the input among the inputs of the edge that count; validations that count come
    /// after the other inputs.
    pub index: usize,
    pub file: FileNo,
    /// `None` for a validation.
    pub kind: Option<Kind>,
}

// How a search came to an edge: by a step from the edge at a place in the order in which edges were
// found.
#[derive(Clone, Copy)]
struct Arrival {
    step: Step,
    place: usize,
}

// The edges that were found, nearest first, and how the search arrived at each of them; the first
// has no arrival.
#[derive(Drop)]
struct Search {
    found: NumberSet,
    arrivals: Vec<Option<Arrival>>,
}

impl EdgeGraph {
    /// Returns a shortest chain by which one file needs another: its first step starts at the edge
    /// that makes `from`, its last step ends at `to`, and every step after the first starts at the
    /// edge that makes the input of the step before it. Of several shortest chains it is the first
    /// when inputs are tried from left to right. `None` if there is no chain, or if `from` and `to`
    /// are the same file. Explicit and implicit inputs count, and so do the inputs that `kinds`
    /// selects: order-only inputs, and validations, which come after the inputs of their edge. All
    /// of them count equally.
    ///
    /// Takes time in proportion to the edges that are no farther from `from` than `to` is, their
    /// inputs and their validations, plus a flag for each edge of the graph. Fails only if an
    /// allocation fails.
    pub fn path_between(
        &self,
        alloc: Global,
        from: FileNo,
        to: FileNo,
        kinds: ChainKinds,
    ) -> Result<Option<Vec<Step>>, AllocError>
        requires from { from.0 < length self.now.files }
        requires to { to.0 < length self.now.files }
        ensures path { IfOk result (λ path. PathIs self.now kinds from to
            (option_map (λ steps. steps.items) path)) }
        ensures edges_known { IfOk result (λ path. IfSome path (λ steps.
            All (λ step. step.edge.0 < length self.now.edges) steps.items)) }
        ensures files_known { IfOk result (λ path. IfSome path (λ steps.
            All (λ step. step.file.0 < length self.now.files) steps.items)) }
    {
        if from == to {
            return Ok(None);
        }
        match self.maker(from) {
            Some(edge) => self.chain_from(alloc, edge, to, kinds),
            None => Ok(None),
        }
    }

    // A shortest chain from an edge to a file.
    fn chain_from(
        &self,
        alloc: Global,
        first: EdgeNo,
        to: FileNo,
        kinds: ChainKinds,
    ) -> Result<Option<Vec<Step>>, AllocError>
        requires first { first.0 < length self.now.edges }
        requires to { to.0 < length self.now.files }
        ensures { IfOk result (λ path.
            ChainIs self.now kinds first.0 (path_at self.now.files to)
            (option_map (λ steps. steps.items) path)) }
    {
        let mut search = Search::begun_at(alloc, self.edge_count(), first)?;
        let mut place = 0;
        'edges: while place < search.found.numbers().len() {
            let edge = edge_found(&search.found, place);
            if let Some(last) = self.step_to(edge, to, kinds) {
                return Ok(Some(traced(alloc, &search.arrivals, last, place)?));
            }
            search.add_makers(self, edge, place, kinds)?;
            place += 1;
        }
        Ok(None)
    }

    // The first step from an edge to a file.
    fn step_to(&self, edge: EdgeNo, to: FileNo, kinds: ChainKinds) -> Option<Step>
        requires edge { edge.0 < length self.now.edges }
        requires to { to.0 < length self.now.files }
        ensures { StepToIs self.now kinds edge (path_at self.now.files to) result }
    {
        let mut index = 0;
        'inputs: while let Some(step) = self.step_at(edge, index, kinds) {
            if step.file == to {
                return Some(step);
            }
            index += 1;
        }
        None
    }

    // The step from an edge to its input at an index; `None` past the last input.
    fn step_at(&self, edge: EdgeNo, index: usize, kinds: ChainKinds) -> Option<Step>
        requires { edge.0 < length self.now.edges }
        ensures { StepIs self.now kinds edge index result }
    {
        let inputs = self.inputs_of_kinds(edge, kinds);
        if index < inputs.len() {
            return Some(Step {
                edge,
                index,
                file: inputs[index],
                kind: Some(self.input_kind(edge, index)),
            });
        }
        if !kinds.validations {
            return None;
        }
        let file = *self.validations(edge).get(index - inputs.len())?;
        Some(Step {
            edge,
            index,
            file,
            kind: None,
        })
    }

    // The inputs of an edge that count, without its validations.
    fn inputs_of_kinds(&self, edge: EdgeNo, kinds: ChainKinds) -> &[FileNo]
        requires { edge.0 < length self.now.edges }
        ensures files { AreFiles self.now.files result.now
            (inputs_of_kinds kinds (edge_at self.now.edges edge.0)) }
        ensures each_path_once { IsDistinct bytes_eq self.now.files }
    {
        let files = self.edge_files(edge);
        if kinds.order_only {
            return files.inputs;
        }
        first(files.inputs, files.kinds.implicit_inputs)
    }
}

impl Search {
    // A search that begins at an edge.
    fn begun_at(alloc: Global, edge_count: usize, first: EdgeNo) -> Result<Search, AllocError>
        requires { first.0 < edge_count }
        ensures found { IfOk result (λ search.
            search.found ≡ record { limit = edge_count; numbers = first.0 ∷ [] }) }
        ensures arrivals { IfOk result (λ search. search.arrivals.items ≡ None ∷ []) }
    {
        let mut search = Search {
            found: NumberSet::none_below(alloc, edge_count)?,
            arrivals: Vec::new(alloc),
        };
        search.add(first, None)?;
        Ok(search)
    }

    // Adds an edge to which the search came so, unless it was found before.
    fn add(&mut self, edge: EdgeNo, arrival: Option<Arrival>) -> Result<(), AllocError>
        requires { edge.0 < self.old.found.limit }
        ensures found { OnOk result (self.new.found ≡ record self.old.found {
          numbers = with_number self.old.found.numbers edge.0;
        }) }
        ensures arrivals { OnOk result (self.new.arrivals.items
            ≡ with_arrival self.old.arrivals.items (has self.old.found.numbers edge.0) arrival) }
    {
        if self.found.insert(edge.0)? {
            self.arrivals.push(arrival)?;
        }
        Ok(())
    }

    // Adds the edges that make inputs of the edge at a place.
    fn add_makers(
        &mut self,
        graph: &EdgeGraph,
        edge: EdgeNo,
        place: usize,
        kinds: ChainKinds,
    ) -> Result<(), AllocError>
        requires limit { self.old.found.limit ≡ length graph.now.edges }
        requires count { length self.old.arrivals.items ≡ length self.old.found.numbers }
        requires place { place < length self.old.found.numbers }
        requires edge { edge.0 ≡ slice_index self.old.found.numbers place }
        requires known { edge.0 < length graph.now.edges }
        ensures adds { OnOk result (AddsMakers graph.now kinds
            (MakesInput graph.now kinds (slice_index self.old.found.numbers place)) place
            self.old.found self.new.found self.old.arrivals.items self.new.arrivals.items) }
        ensures in_order { OnOk result (AddsInOrder graph.now kinds
            (slice_index self.old.found.numbers place) (length (inputs_with kinds
            (edge_at graph.now.edges (slice_index self.old.found.numbers place))))
            self.old.found self.new.found self.new.arrivals.items) }
    {
        let mut index = 0;
        'inputs: while let Some(step) = graph.step_at(edge, index, kinds) {
            if let Some(maker) = graph.maker(step.file) {
                self.add(maker, Some(Arrival { step, place }))?;
            }
            index += 1;
        }
        Ok(())
    }
}

// The steps by which a search arrived at the edge at a place, and the given last step.
fn traced(
    alloc: Global,
    arrivals: &[Option<Arrival>],
    last: Step,
    place: usize,
) -> Result<Vec<Step>, AllocError>
    requires place { place < length arrivals.now }
    requires earlier { ComeFromEarlier arrivals.now }
    ensures { IfOk result (λ steps. Traces arrivals.now place (last ∷ []) steps.items) }
{
    let mut steps = Vec::new(alloc);
    steps.push(last)?;
    let mut place = place;
    'arrivals: while let Some(arrival) = arrivals[place] {
        steps.push(arrival.step)?;
        place = arrival.place;
    }
    steps.reverse();
    Ok(steps)
}

/// In a graph, the chain from one file to another is determined uniquely.
pub fn path_law()
    ensures { OnePathIsRight }
{}
