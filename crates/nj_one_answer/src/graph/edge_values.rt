//! The values of an edge's variables.

ghost use Rattle.std.specs.Prelude.{◌≡◌, ◌<◌, length, OnOk, OnErr};
ghost use Rattle.nj_one_answer.specs.Cited.{edge_of, edges_of, main_rules, AgreeIfOk, OfEdge, OfStatements};

use nj_graph::{Edge, EdgeNo, Graph};
use std::alloc::{AllocError, Global};

/// For a graph of statements. Free: whether memory lacks.
pub fn edge_append_variable<'g>(
    edge: Edge<'g>,
    name: &[u8],
    one: &mut Vec<u8>,
    other: &mut Vec<u8>,
) -> (Result<(), AllocError>, Result<(), AllocError>)
    requires { one.old.items ≡ other.old.items }
    ensures appended { OfEdge (edge_of edge.entry) (λ entries number.
        OnOk result.0 (OnOk result.1 (one.new.items ≡ other.new.items))) }
    ensures refused { OnErr result.0 (OnErr result.1 (one.new.items ≡ other.new.items)) }
{
    (
        edge.append_variable(one, name),
        edge.append_variable(other, name),
    )
}

/// For a graph of statements. Free: whether memory lacks.
pub fn edge_command<'g>(
    alloc: Global,
    edge: Edge<'g>,
) -> (Result<Vec<u8>, AllocError>, Result<Vec<u8>, AllocError>)
    ensures { OfEdge (edge_of edge.entry) (λ entries number.
        AgreeIfOk (λ one other. one.items ≡ other.items) result.0 result.1) }
{
    (edge.command(alloc), edge.command(alloc))
}

/// For a graph of statements. Free: whether memory lacks.
pub fn edge_command_with_rsp<'g>(
    alloc: Global,
    edge: Edge<'g>,
) -> (Result<Vec<u8>, AllocError>, Result<Vec<u8>, AllocError>)
    ensures { OfEdge (edge_of edge.entry) (λ entries number.
        AgreeIfOk (λ one other. one.items ≡ other.items) result.0 result.1) }
{
    (edge.command_with_rsp(alloc), edge.command_with_rsp(alloc))
}

/// For a graph of statements. Free: whether memory lacks.
pub fn edge_variable<'g>(
    alloc: Global,
    edge: Edge<'g>,
    name: &[u8],
) -> (Result<Vec<u8>, AllocError>, Result<Vec<u8>, AllocError>)
    ensures { OfEdge (edge_of edge.entry) (λ entries number.
        AgreeIfOk (λ one other. one.items ≡ other.items) result.0 result.1) }
{
    (edge.variable(alloc, name), edge.variable(alloc, name))
}

/// For a graph of statements. Free: whether memory lacks.
pub fn graph_command(
    alloc: Global,
    graph: &Graph,
    edge: EdgeNo,
) -> (Result<Vec<u8>, AllocError>, Result<Vec<u8>, AllocError>)
    requires { edge.0 < length (edges_of graph.now) }
    ensures { OfStatements graph.now (λ entries.
        AgreeIfOk (λ one other. one.items ≡ other.items) result.0 result.1) }
{
    (graph.command(alloc, edge), graph.command(alloc, edge))
}

/// For a graph of statements. Free: whether memory lacks.
pub fn graph_command_with_rsp(
    alloc: Global,
    graph: &Graph,
    edge: EdgeNo,
) -> (Result<Vec<u8>, AllocError>, Result<Vec<u8>, AllocError>)
    requires { edge.0 < length (edges_of graph.now) }
    ensures { OfStatements graph.now (λ entries.
        AgreeIfOk (λ one other. one.items ≡ other.items) result.0 result.1) }
{
    (
        graph.command_with_rsp(alloc, edge),
        graph.command_with_rsp(alloc, edge),
    )
}

/// Free: whether memory lacks.
pub fn graph_description_text(
    alloc: Global,
    graph: &Graph,
    index: usize,
) -> (Result<Vec<u8>, AllocError>, Result<Vec<u8>, AllocError>)
    requires { index < length (main_rules graph.now) }
    ensures { AgreeIfOk (λ one other. one.items ≡ other.items) result.0 result.1 }
{
    (
        graph.description_text(alloc, index),
        graph.description_text(alloc, index),
    )
}
