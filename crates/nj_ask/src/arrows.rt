//! The arrows of a drawing.

ghost use Rattle.std.specs.Prelude.{◌≡◌, ◌++◌, ◌∷◌, [], List, OnOk, map, slice_get};
ghost use Rattle.nj_ask.specs.Cited.{stated_count, flat_map, edge_of, file_of, GraphEdge, End, arrow_line, arrows_from, arrows_to, drawn_ends, edge_arrows, end_at, ends, ends_after, ends_before, node_arrows, node_model, of_edge};

use crate::node_lines::push_name;
use crate::nodes::{Node, NodeList, is_folded, node_of};
use nj_graph::{Edge, File, Files};
use nj_tools::EdgeDiscovery;
use std::alloc::{AllocError, Global};

/// What the arrows of a drawing depend on.
#[derive(Clone, Copy)]
pub(crate) struct Drawing<'d, 'g> {
    /// The nodes that are drawn.
    pub nodes: &'d NodeList<'g>,
    /// The nodes of the edges that have arrows.
    pub listed: &'d NodeList<'g>,
    /// By edge number, how many implicit inputs each edge has without the discovered ones.
    pub discoveries: &'d [EdgeDiscovery],
    /// Whether phony edges are folded with their outputs.
    pub folds: bool,
}

/// Appends the arrows of all nodes.
pub(crate) fn push_arrows(
    alloc: Global,
    text: &mut Vec<u8>,
    drawing: Drawing<'_, '_>,
) -> Result<(), AllocError>
    ensures { (edges : List GraphEdge) → drawing.entry.listed.now ≡ map of_edge edges
        → OnOk result (text.new.items ≡ text.old.items ++ flat_map
        (node_arrows drawing.entry.discoveries.now drawing.entry.folds drawing.entry.nodes.now
        edges) drawing.entry.nodes.now) }
{
    let mut linked = NodeList::new(alloc);
    'nodes: for node in drawing.nodes.nodes() {
        push_node_arrows(text, drawing, &mut linked, *node)?;
    }
    Ok(())
}

/// Appends the arrows of a node: those of its edge, if listed. Forgets which nodes were linked
/// before.
fn push_node_arrows<'g>(
    text: &mut Vec<u8>,
    drawing: Drawing<'_, 'g>,
    linked: &mut NodeList<'g>,
    node: Node<'g>,
) -> Result<(), AllocError>
    ensures { (edges : List GraphEdge) → drawing.entry.listed.now ≡ map of_edge edges
        → OnOk result (text.new.items ≡ text.old.items ++ node_arrows drawing.entry.discoveries.now
        drawing.entry.folds drawing.entry.nodes.now edges (node_model node.entry)) }
{
    match node {
        Node::Edge(edge) => {
            if drawing.listed.has(node) {
                push_edge_arrows(text, drawing, linked, edge)
            } else {
                Ok(())
            }
        }
        Node::File(_) => Ok(()),
    }
}

/// Appends the arrows of an edge, to its outputs and from its inputs.
fn push_edge_arrows<'g>(
    text: &mut Vec<u8>,
    drawing: Drawing<'_, 'g>,
    linked: &mut NodeList<'g>,
    edge: Edge<'g>,
) -> Result<(), AllocError>
    ensures { OnOk result (text.new.items ≡ text.old.items
        ++ edge_arrows drawing.entry.discoveries.now drawing.entry.folds drawing.entry.nodes.now
        (edge_of edge.entry)) }
{
    linked.clear();
    push_outputs(text, drawing, linked, edge)?;
    linked.clear();
    push_inputs(text, drawing, linked, edge)
}

/// Appends the arrows from an edge to its outputs, unless it is folded with them. Skips nodes that
/// are linked already.
fn push_outputs<'g>(
    text: &mut Vec<u8>,
    drawing: Drawing<'_, 'g>,
    linked: &mut NodeList<'g>,
    edge: Edge<'g>,
) -> Result<(), AllocError>
    ensures { OnOk result (text.new.items ≡ text.old.items ++ arrows_to (edge_of edge.entry)
        (drawn_ends drawing.entry.nodes.now linked.old
        (ends_after drawing.entry.folds (edge_of edge.entry)))) }
{
    if is_folded(edge, drawing.folds) {
        return Ok(());
    }
    'outputs: for output in edge.outputs() {
        push_output(text, drawing, linked, edge, output)?;
    }
    Ok(())
}

/// Appends the arrow from an edge to an output, if the output is drawn and not linked yet.
fn push_output<'g>(
    text: &mut Vec<u8>,
    drawing: Drawing<'_, 'g>,
    linked: &mut NodeList<'g>,
    edge: Edge<'g>,
    output: File<'g>,
) -> Result<(), AllocError>
    ensures { OnOk result ((rest : List End) → text.new.items
        ++ arrows_to (edge_of edge.entry) (drawn_ends drawing.entry.nodes.now linked.new rest)
        ≡ text.old.items
        ++ arrows_to (edge_of edge.entry) (drawn_ends drawing.entry.nodes.now linked.old
        (end_at drawing.entry.folds [] (file_of output.entry) ∷ rest))) }
{
    let node = node_of(output, drawing.folds);
    if !drawing.nodes.has(node) {
        return Ok(());
    }
    if !linked.add(node)? {
        return Ok(());
    }
    push_arrow(text, Node::Edge(edge), node, b"")
}

/// Appends the arrows to an edge from its inputs: discovered inputs are dashed, order-only ones
/// dotted. Skips nodes that are linked already.
fn push_inputs<'g>(
    text: &mut Vec<u8>,
    drawing: Drawing<'_, 'g>,
    linked: &mut NodeList<'g>,
    edge: Edge<'g>,
) -> Result<(), AllocError>
    ensures { OnOk result (text.new.items ≡ text.old.items ++ arrows_from (edge_of edge.entry)
        (drawn_ends drawing.entry.nodes.now linked.old
        (ends_before drawing.entry.discoveries.now drawing.entry.folds (edge_of edge.entry)))) }
{
    let stated_count = stated_count(drawing.discoveries, edge);
    let (stated, discovered) = edge.implicit_inputs().split_at(stated_count);
    push_inputs_of(text, drawing, linked, edge, edge.explicit_inputs(), b"")?;
    push_inputs_of(text, drawing, linked, edge, stated, b"")?;
    push_inputs_of(text, drawing, linked, edge, discovered, b" [style=dashed]")?;
    let order_only = edge.order_only_inputs();
    push_inputs_of(text, drawing, linked, edge, order_only, b" [style=dotted]")
}

/// How many implicit inputs an edge has without the discovered ones.
fn stated_count(discoveries: &[EdgeDiscovery], edge: Edge<'_>) -> usize
    ensures { result ≡ stated_count (slice_get discoveries.now (edge_of edge.entry).number)
        (edge_of edge.entry) }
{
    match discoveries.get(edge.number().0) {
        Some(discovery) => discovery.stated_inputs,
        None => edge.implicit_inputs().len(),
    }
}

/// Appends the arrows to an edge from the given inputs, in the given style.
fn push_inputs_of<'g>(
    text: &mut Vec<u8>,
    drawing: Drawing<'_, 'g>,
    linked: &mut NodeList<'g>,
    edge: Edge<'g>,
    inputs: Files<'g>,
    style: &[u8],
) -> Result<(), AllocError>
    ensures { OnOk result ((rest : List End) → text.new.items
        ++ arrows_from (edge_of edge.entry) (drawn_ends drawing.entry.nodes.now linked.new rest)
        ≡ text.old.items
        ++ arrows_from (edge_of edge.entry) (drawn_ends drawing.entry.nodes.now linked.old
        (ends drawing.entry.folds style.now inputs.entry ++ rest))) }
{
    'inputs: for input in inputs {
        push_input(text, drawing, linked, edge, input, style)?;
    }
    Ok(())
}

/// Appends the arrow to an edge from an input, in the given style, if the input is drawn and not
/// linked yet.
fn push_input<'g>(
    text: &mut Vec<u8>,
    drawing: Drawing<'_, 'g>,
    linked: &mut NodeList<'g>,
    edge: Edge<'g>,
    input: File<'g>,
    style: &[u8],
) -> Result<(), AllocError>
    ensures { OnOk result ((rest : List End) → text.new.items
        ++ arrows_from (edge_of edge.entry) (drawn_ends drawing.entry.nodes.now linked.new rest)
        ≡ text.old.items
        ++ arrows_from (edge_of edge.entry) (drawn_ends drawing.entry.nodes.now linked.old
        (end_at drawing.entry.folds style.now (file_of input.entry) ∷ rest))) }
{
    let node = node_of(input, drawing.folds);
    if !drawing.nodes.has(node) {
        return Ok(());
    }
    if !linked.add(node)? {
        return Ok(());
    }
    push_arrow(text, node, Node::Edge(edge), style)
}

/// Appends an arrow between two nodes, in the given style.
fn push_arrow(
    text: &mut Vec<u8>,
    from: Node<'_>,
    to: Node<'_>,
    style: &[u8],
) -> Result<(), AllocError>
    ensures { OnOk result (text.new.items ≡ text.old.items
        ++ arrow_line (node_model from.entry) (node_model to.entry) style.now) }
{
    text.extend_from_slice(b"  ")?;
    push_name(text, from)?;
    text.extend_from_slice(b" -> ")?;
    push_name(text, to)?;
    text.extend_from_slice(style)?;
    text.extend_from_slice(b";\n")
}
