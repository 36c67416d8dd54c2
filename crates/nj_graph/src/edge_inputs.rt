//! Joins inputs that are named for edges to the graph of a run.

ghost use Rattle.std.specs.Prelude.{◌≡◌, ℕ, List, length, IfOk};
ghost use Rattle.nj_scope.specs.ReadingList.{ReadStatement};
ghost use Rattle.nj_scope.specs.Readings.{IsPrefix};
ghost use Rattle.nj_statements.specs.Built.{ComesTo, IsBuiltOf};
ghost use Rattle.nj_graph.specs.DepsLogs.{with_named};
ghost use Rattle.nj_graph.specs.Inside.InputSteps.{AreNamed, FinishesWith};

use nj_edges::{EdgeGraph, Finished, JoiningInputs};
use nj_faults::GraphFault;
use nj_statements::Built;
use std::alloc::{AllocError, Global};
use std::mem::drop;

// Inputs that are named for the edges of a graph.
pub(crate) trait EdgeInputs {
    ghost use Rattle.std.specs.Prelude.{◌≡◌, ℕ, List, length, OnOk};
    ghost use Rattle.nj_graph.specs.Inside.InputSteps.{joined_edges};

    // The paths that are named for each edge.
    ghost inputs: { Self → List (List (List ℕ)) };

    // Adds to each edge the inputs that are named for it.
    fn join(&self, alloc: Global, joining: &mut JoiningInputs) -> Result<(), AllocError>
        requires count { length (inputs self.now) ≡ length joining.old.table.stated }
        requires start { joining.old.edge ≡ 0 }
        ensures { OnOk result (joining.new ≡ joined_edges (inputs self.now) joining.old) };
}

// The edges of a run, with the inputs that are named for each edge.
pub(crate) fn join_built<N: EdgeInputs>(
    alloc: Global,
    built: Built,
    named: &N,
) -> Result<Built, GraphFault>
    requires { length (N.inputs named.now) ≡ length built.graph.edges }
    ensures comes { (paths : ℕ → List (List ℕ)) (stated : List ReadStatement)
        → IsBuiltOf built stated → AreNamed paths (N.inputs named.now)
        → ComesTo (with_named paths stated) result }
    ensures details { IfOk result (λ joined. joined.details ≡ built.details) }
    ensures count { IfOk result (λ joined.
        length joined.graph.edges ≡ length built.graph.edges) }
    ensures files { IfOk result (λ joined. IsPrefix built.graph.files joined.graph.files) }
{
    let (graph, records) = built.into_parts();
    match joined_graph(alloc, graph, named) {
        Ok(finished) => records.finish(alloc, finished),
        Err(error) => {
            drop(records);
            Err(GraphFault::from(error))
        }
    }
}

// The graph with the inputs that are named for each edge.
fn joined_graph<N: EdgeInputs>(
    alloc: Global,
    graph: EdgeGraph,
    named: &N,
) -> Result<Finished, AllocError>
    requires { length (N.inputs named.now) ≡ length graph.edges }
    ensures { IfOk result (λ finished. FinishesWith (N.inputs named.now) graph finished) }
{
    let mut joining = graph.join_inputs(alloc)?;
    named.join(alloc, &mut joining)?;
    joining.finish(alloc)
}
