//! The lines of nodes.

ghost use Rattle.std.specs.Prelude.{◌≡◌, ◌++◌, [], OnOk, codes, unwrap_or};
ghost use Rattle.nj_ask.specs.Cited.{decimal, edge_look, edge_of, ellipse_look, file_of, first_output, left_out, more_text, node_line, node_look, node_model, node_name, paths_of, point_look, quoted};

use crate::listing::rule_of;
use crate::nodes::{Node, NodeList, is_folded, node_of};
use crate::quotes::{push_escapes, push_quoted};
use nj_graph::{Edge, File};
use std::alloc::AllocError;

/// Appends the line of one of the nodes.
pub(crate) fn push_node_line(
    text: &mut Vec<u8>,
    nodes: &NodeList<'_>,
    node: Node<'_>,
    folds: bool,
) -> Result<(), AllocError>
    ensures { OnOk result (text.new.items
        ≡ text.old.items ++ node_line folds nodes.now (node_model node.entry)) }
{
    text.extend_from_slice(b"  ")?;
    push_name(text, node)?;
    text.extend_from_slice(b" [")?;
    push_look(text, nodes, node, folds)?;
    text.extend_from_slice(b"];\n")
}

/// Appends the name of a node.
pub(crate) fn push_name(text: &mut Vec<u8>, node: Node<'_>) -> Result<(), AllocError>
    ensures { OnOk result (text.new.items ≡ text.old.items ++ node_name (node_model node.entry)) }
{
    match node {
        Node::Edge(edge) => push_number(text, b"e", edge.number().0),
        Node::File(file) => push_number(text, b"f", file.number().0),
    }
}

/// Appends a number after a text.
fn push_number(text: &mut Vec<u8>, before: &[u8], number: usize) -> Result<(), AllocError>
    ensures { OnOk result (text.new.items ≡ text.old.items ++ before.now ++ decimal number) }
{
    text.extend_from_slice(before)?;
    let alloc = *text.allocator();
    text.extend_from_slice(format!(in alloc; "{number}")?.as_bytes())
}

/// Appends the attributes of a node.
fn push_look(
    text: &mut Vec<u8>,
    nodes: &NodeList<'_>,
    node: Node<'_>,
    folds: bool,
) -> Result<(), AllocError>
    ensures { OnOk result (text.new.items
        ≡ text.old.items ++ node_look folds nodes.now (node_model node.entry)) }
{
    match node {
        Node::Edge(edge) => push_edge_look(text, nodes, edge, folds),
        Node::File(file) => push_file_look(text, file),
    }
}

/// Appends the attributes of a file.
fn push_file_look(text: &mut Vec<u8>, file: File<'_>) -> Result<(), AllocError>
    ensures { OnOk result (text.new.items
        ≡ text.old.items ++ codes "label=" ++ quoted (file_of file.entry).path) }
{
    text.extend_from_slice(b"label=")?;
    push_quoted(text, file.path())
}

/// Appends the attributes of an edge, with how many of its inputs are not drawn.
fn push_edge_look(
    text: &mut Vec<u8>,
    nodes: &NodeList<'_>,
    edge: Edge<'_>,
    folds: bool,
) -> Result<(), AllocError>
    ensures { OnOk result (text.new.items
        ≡ text.old.items ++ edge_look folds nodes.now (edge_of edge.entry)) }
{
    let more = left_out(nodes, edge, folds);
    if is_folded(edge, folds) {
        push_point(text, edge, more)
    } else {
        push_ellipse(text, edge, more)
    }
}

/// Appends the attributes of an edge that is a point.
fn push_point(text: &mut Vec<u8>, edge: Edge<'_>, more: usize) -> Result<(), AllocError>
    ensures { OnOk result (text.new.items
        ≡ text.old.items ++ point_look (edge_of edge.entry) more) }
{
    text.extend_from_slice(b"shape=point, tooltip=")?;
    push_quoted(text, first_output(edge))?;
    push_more(text, b", xlabel=\"", more, b"\"")
}

/// The path of the first output of an edge.
fn first_output(edge: Edge<'_>) -> &[u8]
    ensures { result.now ≡ unwrap_or (first_output (paths_of (edge_of edge.entry))) [] }
{
    match edge.outputs().first() {
        Some(file) => file.path(),
        None => b"",
    }
}

/// Appends the attributes of an edge that is an ellipse.
fn push_ellipse(text: &mut Vec<u8>, edge: Edge<'_>, more: usize) -> Result<(), AllocError>
    ensures { OnOk result (text.new.items
        ≡ text.old.items ++ ellipse_look (edge_of edge.entry) more) }
{
    text.extend_from_slice(b"shape=ellipse, label=\"")?;
    push_escapes(text, rule_of(edge))?;
    push_more(text, b"\\n", more, b"")?;
    text.push(b'"')?;
    Ok(())
}

/// Appends how many inputs are not drawn, between two texts; nothing if all are drawn.
fn push_more(
    text: &mut Vec<u8>,
    before: &[u8],
    count: usize,
    after: &[u8],
) -> Result<(), AllocError>
    ensures { OnOk result (text.new.items
        ≡ text.old.items ++ more_text before.now count after.now) }
{
    if count == 0 {
        return Ok(());
    }
    text.extend_from_slice(before)?;
    let alloc = *text.allocator();
    text.extend_from_slice(format!(in alloc; "and {count} more")?.as_bytes())?;
    text.extend_from_slice(after)
}

/// How many inputs of an edge are not drawn.
fn left_out(nodes: &NodeList<'_>, edge: Edge<'_>, folds: bool) -> usize
    ensures { result ≡ left_out folds nodes.now (edge_of edge.entry) }
{
    let inputs = edge.inputs();
    // so that the count is known to fit
    let _most = inputs.len();
    let mut count = 0_usize;
    'inputs: for input in inputs {
        if !nodes.has(node_of(input, folds)) {
            count += 1;
        }
    }
    count
}
