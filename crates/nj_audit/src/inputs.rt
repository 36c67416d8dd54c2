//! Inputs that an edge repeats.

ghost use Rattle.std.specs.Prelude.{◌≡◌, ◌++◌, OnOk};
ghost use Rattle.nj_audit.specs.Cited.{edge_of, repeated_inputs, repeated_inputs_at};

use crate::file_set::FileSet;
use crate::findings::Findings;
use crate::kinds::Kind;
use nj_graph::{Edge, Graph};
use std::alloc::{AllocError, Global};

/// Appends the inputs that edges repeat.
#[tactic(auto, using(crate::proofs::HandleLemmas::numbers_there))]
pub fn find_repeated_inputs<'a>(
    alloc: Global,
    graph: &'a Graph,
    found: &mut Findings<'a>,
) -> Result<(), AllocError>
    ensures { OnOk result (found.new ≡ found.old ++ repeated_inputs graph.entry.now) }
{
    let mut seen = FileSet::new(alloc, graph)?;
    'edges: for edge in graph.edges() {
        push_repeated_inputs(edge, &mut seen, found)?;
    }
    Ok(())
}

/// Appends the inputs that an edge repeats. The set is for its inputs.
#[tactic(auto, using(crate::proofs::HandleLemmas::paths_there, crate::proofs::RepeatLemmas::all_repeats))]
fn push_repeated_inputs<'a>(
    edge: Edge<'a>,
    seen: &mut FileSet<'_>,
    found: &mut Findings<'a>,
) -> Result<(), AllocError>
    requires { seen.old.graph ≡ (edge_of edge).graph }
    ensures found { OnOk result (found.new ≡ found.old
        ++ repeated_inputs_at (edge_of edge.entry).graph (edge_of edge.entry).number) }
    ensures seen { OnOk result (seen.new.graph ≡ seen.old.graph) }
{
    seen.clear();
    'inputs: for input in edge.inputs() {
        if !seen.add(input)? {
            found.push_at(edge, Kind::RepeatedInput, input.path())?;
        }
    }
    Ok(())
}
