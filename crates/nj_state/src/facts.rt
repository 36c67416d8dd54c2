//! What is known of edges besides their files.

ghost use Rattle.std.specs.Prelude.{◌≡◌, ◌<◌, All, IfOk, codes, length, map};
ghost use Rattle.nj_state.specs.Cited.{AreFlags, OfEdge, OfStatements, edge_hash, edge_of, edges_of, facts_by, facts_of, has_value};

use nj_build_log::{LogVersion, command_hash};
use nj_graph::{Edge, EdgeNo, Graph};
use nj_stale::EdgeFacts;
use std::alloc::{AllocError, Global};

/// Returns what is known of each edge. The discovered inputs of `unknown` are not known, and the
/// hashes of commands are those of a build log of the given version. Fails only if an allocation
/// fails.
pub fn facts_of(
    alloc: Global,
    graph: &Graph,
    unknown: &[EdgeNo],
    version: LogVersion,
) -> Result<Vec<EdgeFacts>, AllocError>
    requires { All (λ edge. edge.0 < length (edges_of graph.now)) unknown.now }
    ensures count { IfOk result (λ facts.
        length facts.items ≡ length (edges_of graph.now)) }
    ensures facts { OfStatements graph.now (λ entries. IfOk result (λ facts. facts.items
        ≡ facts_of entries (map (λ edge. edge.0) unknown.now) version
        (length (edges_of graph.now)))) }
{
    let flags = edge_flags(alloc, graph.edge_count(), unknown)?;
    let mut facts = Vec::with_capacity(alloc, graph.edge_count())?;
    'edges: for number in 0..graph.edge_count() {
        let edge = graph.edge_at(EdgeNo(number));
        facts.push(edge_facts(alloc, edge, flags[number], version)?)?;
    }
    Ok(facts)
}

// Returns for each of `count` edges whether it is among the given edges.
fn edge_flags(alloc: Global, count: usize, edges: &[EdgeNo]) -> Result<Vec<bool>, AllocError>
    requires { All (λ edge. edge.0 < count) edges.now }
    ensures { IfOk result (λ flags.
        AreFlags count (map (λ edge. edge.0) edges.now) flags.items) }
{
    let mut flags = vec![in alloc; false; count]?;
    'edges: for edge in edges {
        flags[edge.0] = true;
    }
    Ok(flags)
}

// Returns what is known of an edge.
fn edge_facts(
    alloc: Global,
    edge: Edge<'_>,
    is_unknown: bool,
    version: LogVersion,
) -> Result<EdgeFacts, AllocError>
    ensures { OfEdge (edge_of edge.entry) (λ entries number. IfOk result (λ facts.
        facts ≡ facts_by entries version is_unknown number)) }
{
    let restat = has_value(alloc, edge, b"restat")?;
    let generator = has_value(alloc, edge, b"generator")?;
    let command_hash = edge_hash(alloc, edge, version)?;
    Ok(EdgeFacts {
        is_unknown,
        restat,
        generator,
        command_hash,
    })
}

// Whether a variable of an edge has a value that is not empty.
fn has_value(alloc: Global, edge: Edge<'_>, name: &[u8]) -> Result<bool, AllocError>
    ensures { OfEdge (edge_of edge.entry) (λ entries number. IfOk result (λ has.
        has ≡ has_value entries number name.now)) }
{
    let value = edge.variable(alloc, name)?;
    Ok(!value.as_slice().is_empty())
}

// Returns the hash of the command of an edge.
fn edge_hash(alloc: Global, edge: Edge<'_>, version: LogVersion) -> Result<u64, AllocError>
    ensures { OfEdge (edge_of edge.entry) (λ entries number. IfOk result (λ hash.
        hash ≡ edge_hash entries version number)) }
{
    let command = edge.variable(alloc, b"command")?;
    let contents = edge.variable(alloc, b"rspfile_content")?;
    Ok(command_hash(version, &command, &contents))
}
