//! Joins the inputs that builds discovered to the graph of a run.

ghost use Rattle.std.specs.Prelude.{◌≡◌, ◌<◌, List, fold, length, map, IfOk, OnOk};
ghost use Rattle.nj_graph.specs.Cited.{AllByRecursion, name_at, ReadStatement, IsPrefix, discovery_at, with_new_input, edges_of, files_of, IsGraphOf, JoinsNamed, AreFilesOf, inputs_found, joined_edges};

use crate::edge_inputs::{EdgeInputs, join_built};
use crate::graph::Graph;
use nj_discovered::Discoveries;
use nj_edges::{FileNo, JoiningInputs};
use nj_faults::GraphFault;
use nj_names::short_number;
use std::alloc::{AllocError, Global};

impl Graph {
    /// Joins the inputs that builds discovered: each becomes an implicit input of its edge, after
    /// the edge's other implicit inputs and in the order in which they were found, each path once,
    /// unless it is an explicit or implicit input of the edge already. An order-only input also
    /// stays order-only. Paths that no edge named become files. An edge that waits for a dyndep
    /// file still waits for it. Edges and files keep their numbers, and new files come after them.
    ///
    /// Takes time in proportion to the graph and to the inputs that were discovered.
    ///
    /// # Errors
    ///
    /// A dependency cycle, as without the discovered inputs: they may be older than the manifest.
    /// An output of an edge that the edge itself discovered is a cycle. Or an allocation failed.
    pub fn join_discovered(self, alloc: Global, found: &Discoveries) -> Result<Graph, GraphFault>
        requires { length found.now.edges ≡ length (edges_of self) }
        ensures joins { (stated : List ReadStatement) → IsGraphOf self stated
            → JoinsNamed (λ edge. (discovery_at found.now edge).inputs) stated result }
        ensures declarations { IfOk result (λ graph. graph.declarations ≡ self.declarations) }
        ensures origins { IfOk result (λ graph. graph.origins ≡ self.origins) }
        ensures edges { IfOk result (λ graph. length (edges_of graph) ≡ length (edges_of self)) }
        ensures files { IfOk result (λ graph. IsPrefix (files_of self) (files_of graph)) }
    {
        let Graph { built, declared } = self;
        let built = join_built(alloc, built, &DiscoveredInputs { found })?;
        Ok(Graph { built, declared })
    }
}

// The inputs that were discovered, by edge.
#[derive(Drop)]
struct DiscoveredInputs<'a> {
    found: &'a Discoveries,
}

impl<'a> EdgeInputs for DiscoveredInputs<'a> {
    ghost use Rattle.nj_graph.specs.Inside.InputSteps.{inputs_found};

    ghost inputs = { λ d. inputs_found d.found.now };

    fn join(&self, alloc: Global, joining: &mut JoiningInputs) -> Result<(), AllocError> {
        join_edges(alloc, joining, self.found)
    }
}

// Adds to each edge the inputs that were discovered for it.
fn join_edges(
    alloc: Global,
    joining: &mut JoiningInputs,
    found: &Discoveries,
) -> Result<(), AllocError>
    requires count { length found.now.edges ≡ length joining.old.table.stated }
    requires start { joining.old.edge ≡ 0 }
    ensures { OnOk result (joining.new ≡ joined_edges (inputs_found found.now) joining.old) }
{
    let mut files = vec![in alloc; None; found.path_count()]?;
    'edges: for edge in 0..found.edge_count() {
        add_paths(joining, found, &mut files, found.inputs(edge))?;
        joining.end_edge();
    }
    Ok(())
}

// Adds to the edge the paths with the given numbers.
fn add_paths(
    joining: &mut JoiningInputs,
    found: &Discoveries,
    files: &mut [Option<u32>],
    numbers: &[u32],
) -> Result<(), AllocError>
    requires below { AllByRecursion (λ number. number < length found.now.names) numbers.now }
    requires files { AreFilesOf found.now.names joining.old.table.files files.old }
    ensures added { OnOk result (joining.new ≡ fold with_new_input joining.old
        (map (name_at found.now.names) numbers.now)) }
    ensures files { OnOk result (AreFilesOf found.now.names joining.new.table.files files.new) }
{
    'numbers: for number in numbers {
        add_path(joining, found, files, *number as usize)?;
    }
    Ok(())
}

// Adds to the edge the path with the given number. For each path that was added, `files` has the
// number of its file.
fn add_path(
    joining: &mut JoiningInputs,
    found: &Discoveries,
    files: &mut [Option<u32>],
    number: usize,
) -> Result<(), AllocError>
    requires below { number < length found.now.names }
    requires files { AreFilesOf found.now.names joining.old.table.files files.old }
    ensures added { OnOk result (joining.new
        ≡ with_new_input joining.old (name_at found.now.names number)) }
    ensures files { OnOk result (AreFilesOf found.now.names joining.new.table.files files.new) }
{
    if let Some(file) = files[number] {
        return joining.add_known_input(FileNo(file as usize));
    }
    let file = joining.add_input(found.path(number))?;
    files[number] = Some(short_number(file.0)?);
    Ok(())
}
