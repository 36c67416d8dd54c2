//! Joins deps logs to the graph of a run.

ghost use Rattle.std.specs.Prelude.{◌≡◌, List, ◌<◌, fold, length, map, position, bytes_eq, option_and_then, option_map, IfOk, OnOk};
ghost use Rattle.nj_graph.specs.Cited.{OfStatements, AllByRecursion, clean_path_of, name_at, ReadStatement, IsPrefix, edge_at, first_output, with_new_input, edges_of, files_of, IsGraphOf, JoinsLog, inputs_logged, number_logged, joined_edges, AreNumbersLogged, inputs_by_numbers, numbers_if_any, numbers_of};

use crate::edge_inputs::{EdgeInputs, join_built};
use crate::graph::Graph;
use nj_deps::{DepsLog, PathNo};
use nj_discovered::clean;
use nj_edges::{EdgeGraph, EdgeNo, JoiningInputs};
use nj_faults::GraphFault;
use std::alloc::{AllocError, Global};
use std::mem::drop;

impl Graph {
    /// Joins a deps log ("Deps" in the Ninja manual): each file that it names for the first output
    /// of an edge whose value of `deps` is not empty becomes an implicit input of the edge, after
    /// the edge's other implicit inputs and in the log's order: each clean path once, unless it is
    /// an explicit or implicit input of the edge already. An order-only input also stays
    /// order-only. Paths that no edge named become files. An edge that waits for a dyndep file
    /// still waits for it. The same log again changes nothing. Edges and files keep their numbers,
    /// and new files come after them.
    ///
    /// Takes time in proportion to the graph and to the files that the log names for its edges.
    ///
    /// # Errors
    ///
    /// A dependency cycle, as without the log: the log may be older than the manifest. An output of
    /// an edge that the log names for the edge itself is a cycle. Or an allocation failed.
    pub fn join_deps(self, alloc: Global, log: &DepsLog) -> Result<Graph, GraphFault>
        ensures joins { (stated : List ReadStatement) → IsGraphOf self stated
            → JoinsLog log.now stated result }
        ensures declarations { IfOk result (λ graph. graph.declarations ≡ self.declarations) }
        ensures origins { IfOk result (λ graph. graph.origins ≡ self.origins) }
        ensures edges { IfOk result (λ graph. length (edges_of graph) ≡ length (edges_of self)) }
        ensures files { IfOk result (λ graph. IsPrefix (files_of self) (files_of graph)) }
    {
        let numbers = match self.logged_numbers(alloc, log) {
            Ok(numbers) => numbers,
            Err(failure) => {
                drop(self);
                return Err(GraphFault::from(failure));
            }
        };
        let Graph { built, declared } = self;
        let named = LoggedInputs {
            log,
            numbers: &numbers,
        };
        match join_built(alloc, built, &named) {
            Ok(built) => Ok(Graph { built, declared }),
            Err(fault) => {
                drop(declared);
                Err(fault)
            }
        }
    }

    // For each edge, the log's number of its first output.
    pub(crate) fn logged_numbers(
        &self,
        alloc: Global,
        log: &DepsLog,
    ) -> Result<Vec<Option<PathNo>>, AllocError>
        ensures count { IfOk result (λ numbers.
            length numbers.items ≡ length (edges_of self.now)) }
        ensures numbers { OfStatements self.now (λ entries.
            IfOk result (λ numbers.
            AreNumbersLogged log.now entries (numbers_if_any numbers.items))) }
    {
        let edge_count = self.edge_count();
        let mut numbers = Vec::with_capacity(alloc, edge_count)?;
        let mut deps = Vec::new(alloc);
        'edges: for edge in 0..edge_count {
            let number = self.logged_number(log, &mut deps, EdgeNo(edge))?;
            numbers.push(number)?;
        }
        Ok(numbers)
    }

    // The log's number of the first output of an edge, if the value of its `deps` is not empty;
    // that value goes into `deps`.
    fn logged_number(
        &self,
        log: &DepsLog,
        deps: &mut Vec<u8>,
        edge: EdgeNo,
    ) -> Result<Option<PathNo>, AllocError>
        requires { edge.0 < length (edges_of self.now) }
        ensures { OfStatements self.now (λ entries.
            IfOk result (λ number.
            option_map (λ n. n.0) number ≡ number_logged log.now entries edge.0)) }
    {
        deps.clear();
        self.edge_at(edge).append_variable(deps, b"deps")?;
        if deps.as_slice().is_empty() {
            return Ok(None);
        }
        Ok(first_output_number(self, log, edge))
    }
}

// The log's number of the first output of an edge.
fn first_output_number(graph: &EdgeGraph, log: &DepsLog, edge: EdgeNo) -> Option<PathNo>
    requires { edge.0 < length graph.now.edges }
    ensures { option_map (λ n. n.0) result
        ≡ option_and_then (λ path. position (bytes_eq path) log.now.paths)
        (first_output (edge_at graph.now.edges edge.0)) }
{
    let output = graph.outputs(edge).first()?;
    log.number(graph.path(*output))
}

// The inputs that a log has for the outputs with the given numbers, by edge.
#[derive(Drop)]
struct LoggedInputs<'a> {
    log: &'a DepsLog,
    numbers: &'a [Option<PathNo>],
}

impl<'a> EdgeInputs for LoggedInputs<'a> {
    ghost use Rattle.nj_graph.specs.Inside.LogSteps.{inputs_by_numbers, numbers_if_any};

    ghost inputs = { λ l. inputs_by_numbers l.log.now (numbers_if_any l.numbers.now) };

    fn join(&self, alloc: Global, joining: &mut JoiningInputs) -> Result<(), AllocError> {
        join_edges(alloc, joining, self.log, self.numbers)
    }
}

// Adds to each edge the log's inputs for the output of its number.
fn join_edges(
    alloc: Global,
    joining: &mut JoiningInputs,
    log: &DepsLog,
    numbers: &[Option<PathNo>],
) -> Result<(), AllocError>
    requires count { length numbers.now ≡ length joining.old.table.stated }
    requires start { joining.old.edge ≡ 0 }
    ensures { OnOk result (joining.new
        ≡ joined_edges (inputs_by_numbers log.now (numbers_if_any numbers.now)) joining.old) }
{
    let mut buffer = Vec::new(alloc);
    'numbers: for number in numbers {
        add_logged(joining, log, &mut buffer, *number)?;
        joining.end_edge();
    }
    Ok(())
}

// Adds to the edge the log's inputs for the output with the given number. The buffer is for clean
// paths.
fn add_logged(
    joining: &mut JoiningInputs,
    log: &DepsLog,
    buffer: &mut Vec<u8>,
    number: Option<PathNo>,
) -> Result<(), AllocError>
    ensures { OnOk result (joining.new
        ≡ fold with_new_input joining.old
        (inputs_logged log.now (option_map (λ n. n.0) number))) }
{
    let Some(number) = number else {
        return Ok(());
    };
    match log.output_of(number) {
        Some(logged) => add_inputs(joining, log, buffer, logged.inputs),
        None => Ok(()),
    }
}

// Adds to the edge the paths with the given numbers of the log.
fn add_inputs(
    joining: &mut JoiningInputs,
    log: &DepsLog,
    buffer: &mut Vec<u8>,
    numbers: &[PathNo],
) -> Result<(), AllocError>
    requires { AllByRecursion (λ number. number < length log.now.paths) (numbers_of numbers.now) }
    ensures { OnOk result (joining.new ≡ fold with_new_input joining.old
        (map clean_path_of (map (name_at log.now.paths) (numbers_of numbers.now)))) }
{
    'inputs: for number in numbers {
        joining.add_input(clean(buffer, log.path(*number))?)?;
    }
    Ok(())
}
