//! Which nodes a drawing has.

ghost use Rattle.std.specs.Prelude.{◌≡◌, map, take, IfOk, OnOk};
ghost use Rattle.nj_ask.specs.Cited.{draw_model, drawn_nodes, edge_of, file_of, fold, has_node, is_full, list_any, mention, mention_edge, node_of, of_edge};

use crate::nodes::{Node, NodeList, node_of};
use nj_graph::{Edge, Edges, Files};
use nj_questions::DrawOptions;
use std::alloc::{AllocError, Global};

/// How many inputs an edge mentions at most, unless an option says otherwise.
const MOST_INPUTS: usize = 12;

/// The nodes of the drawing of the given files and edges, in the order of their first mention.
///
/// Takes time in proportion to the edges, and to the inputs that they mention until the limit is
/// reached.
pub(crate) fn drawn_nodes<'g>(
    alloc: Global,
    files: Files<'g>,
    edges: Edges<'g>,
    options: &DrawOptions,
) -> Result<NodeList<'g>, AllocError>
    ensures { IfOk result (λ nodes.
        nodes ≡ drawn_nodes (draw_model options.now) files.entry edges.entry) }
{
    let mut nodes = NodeList::new(alloc);
    mention_files(&mut nodes, files, options.fold)?;
    'edges: for edge in edges {
        if !is_full(&nodes, options.limit) {
            mention_edge(&mut nodes, edge, options)?;
        }
    }
    match options.limit {
        Some(limit) => first_nodes(alloc, &nodes, limit),
        None => Ok(nodes),
    }
}

/// Whether there are as many nodes as the limit allows.
fn is_full(nodes: &NodeList<'_>, limit: Option<usize>) -> bool
    ensures { result ≡ is_full limit nodes.now }
{
    match limit {
        Some(limit) => limit <= nodes.nodes().len(),
        None => false,
    }
}

/// Adds the nodes that an edge mentions: its own, and those of its outputs and first inputs. If
/// needed edges are drawn, it mentions nothing unless the node of an output is in the list.
fn mention_edge<'g>(
    nodes: &mut NodeList<'g>,
    edge: Edge<'g>,
    options: &DrawOptions,
) -> Result<(), AllocError>
    ensures { OnOk result (nodes.new
        ≡ mention_edge (draw_model options.now) nodes.old (edge_of edge.entry)) }
{
    if !options.affected && !has_one(nodes, edge.outputs(), options.fold) {
        return Ok(());
    }
    nodes.add(Node::Edge(edge))?;
    mention_files(nodes, edge.outputs(), options.fold)?;
    let (first, _) = edge
        .inputs()
        .split_at(options.inputs.unwrap_or(MOST_INPUTS));
    mention_files(nodes, first, options.fold)
}

/// Adds the nodes of files.
fn mention_files<'g>(
    nodes: &mut NodeList<'g>,
    files: Files<'g>,
    folds: bool,
) -> Result<(), AllocError>
    ensures { OnOk result (nodes.new ≡ fold mention nodes.old (map (node_of folds) files.entry)) }
{
    'files: for file in files {
        nodes.add(node_of(file, folds))?;
    }
    Ok(())
}

/// Whether the node of any of the files is in the list.
fn has_one(nodes: &NodeList<'_>, files: Files<'_>, folds: bool) -> bool
    ensures { result ≡ list_any (λ file. has_node nodes.now (node_of folds file)) files.entry }
{
    'files: for file in files {
        if nodes.has(node_of(file, folds)) {
            return true;
        }
    }
    false
}

/// The first nodes of a list, as many as the limit allows.
fn first_nodes<'g>(
    alloc: Global,
    nodes: &NodeList<'g>,
    limit: usize,
) -> Result<NodeList<'g>, AllocError>
    ensures { IfOk result (λ first. first ≡ take limit nodes.now) }
{
    let mut first = NodeList::new(alloc);
    let all = nodes.nodes();
    'nodes: for node in &all[..limit.min(all.len())] {
        first.push(*node)?;
    }
    Ok(first)
}

/// The nodes of edges.
pub(crate) fn edge_nodes<'g>(alloc: Global, edges: Edges<'g>) -> Result<NodeList<'g>, AllocError>
    ensures { IfOk result (λ nodes. nodes ≡ map of_edge edges.entry) }
{
    let mut nodes = NodeList::new(alloc);
    'edges: for edge in edges {
        nodes.push(Node::Edge(edge))?;
    }
    Ok(nodes)
}
