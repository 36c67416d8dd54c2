//! Edges with a depfile that stays on the disk.

ghost use Rattle.std.specs.Prelude.{◌≡◌, ◌++◌, IfOk, OnOk};
ghost use Rattle.nj_audit.specs.Cited.{OfEdge, OfStatements, edge_of, has_depfile_without_deps, depfiles_without_deps};

use crate::findings::Findings;
use crate::kinds::Kind;
use crate::outputs::first_output;
use nj_graph::{Edge, Graph};
use std::alloc::{AllocError, Global};

/// Appends the edges that have a `depfile` and no `deps`.
#[tactic(auto, using(crate::proofs::HandleLemmas::numbers_there))]
pub fn find_depfiles_without_deps<'a>(
    alloc: Global,
    graph: &'a Graph,
    found: &mut Findings<'a>,
) -> Result<(), AllocError>
    ensures { OfStatements graph.entry.now (λ entries.
        OnOk result (found.new ≡ found.old ++ depfiles_without_deps graph.entry.now entries)) }
{
    'edges: for edge in graph.edges() {
        if has_depfile_without_deps(alloc, edge)? {
            found.push_at(edge, Kind::DepfileWithoutDeps, first_output(edge))?;
        }
    }
    Ok(())
}

/// Whether an edge has a `depfile` and no `deps`.
fn has_depfile_without_deps(alloc: Global, edge: Edge<'_>) -> Result<bool, AllocError>
    ensures { OfEdge (edge_of edge.entry) (λ entries number.
        IfOk result (λ has. has ≡ has_depfile_without_deps entries number)) }
{
    let depfile = edge.variable(alloc, b"depfile")?;
    let deps = edge.variable(alloc, b"deps")?;
    Ok(!depfile.is_empty() && deps.is_empty())
}
