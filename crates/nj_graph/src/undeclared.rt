//! Inputs that deps logs name for edges, and that the edges do not declare.

ghost use Rattle.std.specs.Prelude.{◌≡◌, ◌<◌, [], length, map, option_map, All, IfOk, OnOk, bytes_eq};
ghost use Rattle.nj_graph.specs.Cited.{OfStatements, AllByRecursion, IsDistinct, clean_path_of, is_among, name_at, has, each_once, edges_of, files_of, AreThose, AreUndeclared, IsUndeclared, input_of_edge, paths_of_output, AreMade, IsFound, IsKnownIfAny, inputs_by_number, numbers_if_any, numbers_of};

use crate::found_inputs::FoundInputs;
use crate::graph::Graph;
use crate::made_files::{MadeFile, made_files};
use nj_deps::{DepsLog, PathNo};
use nj_edges::{EdgeGraph, EdgeNo, FileNo};
use std::alloc::{AllocError, Global};

/// An input that a deps log names for an edge, and that the edge does not declare.
#[derive(Clone, Copy, Debug, PartialEq, Eq)]
pub struct UndeclaredInput {
    pub edge: EdgeNo,
    pub file: FileNo,
}

/// The inputs that edges use without declaring them ("Deps" in the Ninja manual): a deps log names
/// a file for the first output of an edge whose value of `deps` is not empty, another edge makes
/// that file, and the edge does not need that maker through any chain of inputs. The edge may then
/// run before the file is made. By edge, then in the log's order, without duplicates. An edge for
/// which the log names the exact path `build.ninja` is left out.
///
/// Call it before [`Graph::join_deps`], after which the files of the log are inputs.
///
/// Fails only if an allocation fails.
pub fn undeclared_inputs(
    alloc: Global,
    graph: &Graph,
    log: &DepsLog,
) -> Result<Vec<UndeclaredInput>, AllocError>
    ensures undeclared { OfStatements graph.now (λ entries.
        IfOk result (λ inputs. AreUndeclared log.now entries
        (map (input_of_edge (files_of graph.now)) inputs.items))) }
    ensures edges { IfOk result (λ inputs.
        All (λ input. input.edge.0 < length (edges_of graph.now)) inputs.items) }
    ensures files { IfOk result (λ inputs.
        All (λ input. input.file.0 < length (files_of graph.now)) inputs.items) }
{
    let numbers = graph.logged_numbers(alloc, log)?;
    let graph: &EdgeGraph = graph;
    let made = made_files(alloc, graph, log)?;
    let mut found = FoundInputs::none_in(alloc, graph)?;
    add_edges(&mut found, graph, log, &numbers, &made)?;
    Ok(found.inputs)
}

// Adds the undeclared inputs of all edges, by a log's numbers of their first outputs.
fn add_edges(
    found: &mut FoundInputs<'_>,
    graph: &EdgeGraph,
    log: &DepsLog,
    numbers: &[Option<PathNo>],
    made: &[Option<MadeFile>],
) -> Result<(), AllocError>
    requires found { IsFound graph.now found.old }
    requires none { found.old.inputs.items ≡ [] }
    requires numbers { length numbers.now ≡ length graph.now.edges }
    requires count { length made.now ≡ length log.now.paths }
    requires made { AreMade graph.now log.now.paths made.now }
    requires known { All (IsKnownIfAny graph.now) made.now }
    requires each_path_once { IsDistinct bytes_eq log.now.paths }
    ensures found { OnOk result (IsFound graph.now found.new) }
    ensures undeclared { OnOk result (AreThose (IsUndeclared graph.now.edges)
        (inputs_by_number log.now (numbers_if_any numbers.now))
        (map (input_of_edge graph.now.files) found.new.inputs.items)) }
{
    'edges: for (edge, number) in numbers.iter().enumerate() {
        found.add_edge(graph, EdgeNo(edge), made, paths_named(log, *number))?;
    }
    Ok(())
}

// The numbers of the paths that a log names for the output with the given number.
fn paths_named(log: &DepsLog, output: Option<PathNo>) -> &[PathNo]
    requires { IsDistinct bytes_eq log.now.paths }
    ensures named { each_once bytes_eq
        (map clean_path_of (map (name_at log.now.paths) (numbers_of result.now)))
        ≡ paths_of_output log.now (option_map (λ n. n.0) output) }
    ensures known { AllByRecursion (λ number. number < length log.now.paths)
        (numbers_of result.now) }
{
    let Some(output) = output else {
        return &[];
    };
    match log.output_of(output) {
        Some(logged) => {
            if has_path(log, logged.inputs, b"build.ninja") {
                &[]
            } else {
                logged.inputs
            }
        }
        None => &[],
    }
}

// Whether a path is among the paths with the given numbers.
fn has_path(log: &DepsLog, numbers: &[PathNo], path: &[u8]) -> bool
    requires each_path_once { IsDistinct bytes_eq log.now.paths }
    requires known { AllByRecursion (λ number. number < length log.now.paths)
        (numbers_of numbers.now) }
    ensures { result ≡ is_among (map (name_at log.now.paths) (numbers_of numbers.now)) path.now }
{
    match log.number(path) {
        Some(wanted) => has_number(numbers, wanted),
        None => false,
    }
}

// Whether a number is among the given numbers.
fn has_number(numbers: &[PathNo], wanted: PathNo) -> bool
    ensures { result ≡ has (numbers_of numbers.now) wanted.0 }
{
    'numbers: for number in numbers {
        if *number == wanted {
            return true;
        }
    }
    false
}
