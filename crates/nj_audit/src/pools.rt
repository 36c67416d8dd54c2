//! Pools that no edge uses.

ghost use Rattle.std.specs.Prelude.{◌≡◌, ◌++◌, ℕ, List, [], IfOk, OnOk};
ghost use Rattle.nj_audit.specs.Cited.{OfStatements, cons_option, ReadStatement, is_among, IsGraphOf, pools_of_edges, unused_pool, unused_pools};

use crate::findings::Findings;
use crate::kinds::Kind;
use crate::names::Names;
use nj_graph::Graph;
use std::alloc::{AllocError, Global};

/// Appends the pools that no edge uses.
pub fn find_unused_pools<'a>(
    alloc: Global,
    graph: &'a Graph,
    found: &mut Findings<'a>,
) -> Result<(), AllocError>
    ensures { OfStatements graph.entry.now (λ entries.
        OnOk result (found.new ≡ found.old ++ unused_pools graph.entry.now entries)) }
{
    let used = used_pools(alloc, graph)?;
    'pools: for pool in 0..graph.pool_count() {
        push_if_unused(graph, pool, &used, found)?;
    }
    Ok(())
}

/// Appends a pool, unless an edge uses it.
fn push_if_unused<'a>(
    graph: &'a Graph,
    pool: usize,
    used: &Names,
    found: &mut Findings<'a>,
) -> Result<(), AllocError>
    requires { (entries : List ReadStatement) (name : List ℕ) → IsGraphOf graph.now entries
        → is_among used.now name ≡ is_among (pools_of_edges graph.now entries) name }
    ensures { OfStatements graph.entry.now (λ entries. OnOk result (found.new
        ≡ found.old ++ cons_option (unused_pool graph.entry.now entries pool) [])) }
{
    let Some(name) = graph.pool_name(pool) else {
        return Ok(());
    };
    if used.has(name) {
        return Ok(());
    }
    match graph.pool_place(pool) {
        Some(place) => found.push(place, Kind::UnusedPool, name),
        None => Ok(()),
    }
}

/// Returns the names of the pools that edges use.
#[tactic(auto, using(crate::proofs::HandleLemmas::numbers_there))]
fn used_pools(alloc: Global, graph: &Graph) -> Result<Names, AllocError>
    ensures { (entries : List ReadStatement) (name : List ℕ) → IsGraphOf graph.now entries
        → IfOk result (λ used.
        is_among used name ≡ is_among (pools_of_edges graph.now entries) name) }
{
    let mut used = Names::new(alloc);
    'edges: for edge in graph.edges() {
        if let Some(pool) = edge.pool() {
            used.add(pool)?;
        }
    }
    Ok(used)
}
