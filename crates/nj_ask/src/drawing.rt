//! Drawings in the language of Graphviz.

ghost use Rattle.std.specs.Prelude.{◌≡◌, ◌++◌, ◌<◌, All, IfOk, OnOk, length, map};
ghost use Rattle.std.specs.List.{filter};
ghost use Rattle.nj_ask.specs.Cited.{flat_map, count_line, draw_model, drawing_text, drawn_nodes, edges_in, edges_of, files_in, has_node, IsDrawing, HasEdges, label, node_line, of_edge};

use crate::arrows::{Drawing, push_arrows};
use crate::discovered::DiscoveredGraph;
use crate::mentions::{drawn_nodes, edge_nodes};
use crate::node_lines::push_node_line;
use crate::nodes::{Node, NodeList};
use crate::report::touched_by;
use nj_graph::{EdgeNo, Edges, FileList};
use nj_questions::DrawOptions;
use std::alloc::{AllocError, Global};

/// How each drawing begins.
const HEAD: &[u8] = b"digraph ninja {\n  rankdir=LR;\n  node [shape=box];\n";

/// The drawing of files: of the edges that they need, nearest first, or of those that a change of
/// them touches, in reading order.
///
/// Takes time in proportion to those edges and their files, plus passes over all edges of the graph
/// to find them.
pub(crate) fn drawing_of(
    alloc: Global,
    known: &DiscoveredGraph,
    files: &FileList<'_>,
    options: &DrawOptions,
) -> Result<Vec<u8>, AllocError>
    requires edges { HasEdges known.now }
    requires files { files.now.graph ≡ known.now.graph }
    ensures { IfOk result (λ text.
        IsDrawing known.now (draw_model options.now) files.now.paths text.items) }
{
    if options.affected {
        let changed = files.numbers();
        let affected = known.graph.affected_by(alloc, changed)?;
        let touched = touched_by(alloc, known, changed, affected)?;
        return drawing_with(alloc, known, files, &touched, options);
    }
    let needed = files.needed_edges(alloc)?;
    drawing_with(alloc, known, files, needed.edges().numbers(), options)
}

/// The drawing of files with the given edges.
fn drawing_with(
    alloc: Global,
    known: &DiscoveredGraph,
    files: &FileList<'_>,
    numbers: &[EdgeNo],
    options: &DrawOptions,
) -> Result<Vec<u8>, AllocError>
    requires { All (λ edge. edge.0 < length (edges_of known.now.graph)) numbers.now }
    ensures { IfOk result (λ text. text.items
        ≡ drawing_text known.now.discoveries.items options.now.fold
        (drawn_nodes (draw_model options.now) (files_in files.now.graph files.now.paths)
        (edges_in known.now.graph (map (λ edge. edge.0) numbers.now)))
        (edges_in known.now.graph (map (λ edge. edge.0) numbers.now))) }
{
    let graph = &known.graph;
    let nodes = drawn_nodes(alloc, files.files(), graph.edges_at(numbers), options)?;
    let listed = edge_nodes(alloc, graph.edges_at(numbers))?;
    let drawing = Drawing {
        nodes: &nodes,
        listed: &listed,
        discoveries: &known.discoveries,
        folds: options.fold,
    };
    drawing_text(alloc, drawing, graph.edges_at(numbers))
}

/// The text of a drawing with the given edges.
fn drawing_text(
    alloc: Global,
    drawing: Drawing<'_, '_>,
    edges: Edges<'_>,
) -> Result<Vec<u8>, AllocError>
    requires { drawing.listed.now ≡ map of_edge edges }
    ensures { IfOk result (λ text. text.items ≡ drawing_text drawing.entry.discoveries.now
        drawing.entry.folds drawing.entry.nodes.now edges.entry) }
{
    let mut text = Vec::from_slice(alloc, HEAD)?;
    push_nodes(&mut text, drawing.nodes, drawing.folds)?;
    push_arrows(alloc, &mut text, drawing)?;
    push_label(&mut text, drawing.nodes, edges)?;
    text.extend_from_slice(b"}\n")?;
    Ok(text)
}

/// Appends the lines of nodes.
fn push_nodes(text: &mut Vec<u8>, nodes: &NodeList<'_>, folds: bool) -> Result<(), AllocError>
    ensures { OnOk result (text.new.items
        ≡ text.old.items ++ flat_map (node_line folds nodes.now) nodes.now) }
{
    'nodes: for node in nodes.nodes() {
        push_node_line(text, nodes, *node, folds)?;
    }
    Ok(())
}

/// Appends a label with how many of the edges are drawn, unless all are.
fn push_label(text: &mut Vec<u8>, nodes: &NodeList<'_>, edges: Edges<'_>) -> Result<(), AllocError>
    ensures { OnOk result (text.new.items ≡ text.old.items ++ label nodes.now edges.entry) }
{
    let all = edges.len();
    let count = drawn_count(nodes, edges);
    if count == all {
        return Ok(());
    }
    push_count(text, count, all)
}

/// Appends a label with how many of all edges are drawn.
fn push_count(text: &mut Vec<u8>, count: usize, all: usize) -> Result<(), AllocError>
    ensures { OnOk result (text.new.items ≡ text.old.items ++ count_line count all) }
{
    let alloc = *text.allocator();
    let line = format!(in alloc; "  label=\"{count} of {all} edges\";\n")?;
    text.extend_from_slice(line.as_bytes())
}

/// How many of the edges are drawn.
fn drawn_count(nodes: &NodeList<'_>, edges: Edges<'_>) -> usize
    ensures { result ≡ length (filter (λ edge. has_node nodes.now (of_edge edge)) edges.entry) }
{
    // so that the count is known to fit
    let _most = edges.len();
    let mut count = 0_usize;
    'edges: for edge in edges {
        if nodes.has(Node::Edge(edge)) {
            count += 1;
        }
    }
    count
}
