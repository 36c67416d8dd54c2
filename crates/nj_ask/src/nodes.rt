//! The nodes of a drawing.

ghost use Rattle.std.specs.Prelude.{◌≡◌, ◌<◌, ◌++◌, ◌∷◌, [], not, length, map, IfOk, OnErr, OnOk};
ghost use Rattle.nj_ask.specs.Cited.{edge_of, file_of, has_node, is_folded, mention, node_model, node_of, AreFlagsWithin, SameFlags, SetsFlag, UnsetsFlag};

use crate::manifest::is_set;
use nj_graph::{Edge, File};
use std::alloc::{AllocError, Global};
use std::marker::Model;

/// A node: that of an edge, or that of a file.
#[derive(Clone, Copy)]
pub(crate) enum Node<'g> {
    /// An edge; a phony one may be folded with its outputs.
    Edge(Edge<'g>),
    File(File<'g>),
}

/// The node of a file: its own, unless it is folded with the edge that makes it.
pub(crate) fn node_of(file: File<'_>, folds: bool) -> Node<'_>
    ensures { node_model result ≡ node_of folds (file_of file.entry) }
{
    match file.maker() {
        Some(edge) => {
            if is_folded(edge, folds) {
                Node::Edge(edge)
            } else {
                Node::File(file)
            }
        }
        None => Node::File(file),
    }
}

/// Whether an edge and its outputs have one node.
pub(crate) fn is_folded(edge: Edge<'_>, folds: bool) -> bool
    ensures { result ≡ is_folded folds (edge_of edge.entry) }
{
    folds && edge.is_phony()
}

/// Nodes in the order in which they were added, with flags for those in the list.
#[derive(Drop)]
pub(crate) struct NodeList<'g> {
    nodes: Vec<Node<'g>>,
    /// By edge or file number, whether the node is in the list. Past the last flag it is not.
    edges: Vec<bool>,
    files: Vec<bool>,
}

impl<'g> Model for NodeList<'g> {
    ghost use Rattle.std.specs.Prelude.{List, map};
    ghost use Rattle.nj_ask.specs.DrawnNodes.{Node};
    ghost use Rattle.nj_ask.specs.Inside.NodeLists.{AreNodeFlags, node_model};

    ghost Value = { List Node };

    ghost view = { λ l. map node_model l.nodes.items };

    ghost invariant = { λ l.
        AreNodeFlags (map node_model l.nodes.items) l.edges.items l.files.items };
}

impl<'g> NodeList<'g> {
    /// No nodes.
    pub(crate) fn new(alloc: Global) -> NodeList<'g>
        ensures { result ≡ [] }
    {
        NodeList {
            nodes: Vec::new(alloc),
            edges: Vec::new(alloc),
            files: Vec::new(alloc),
        }
    }

    /// The nodes.
    pub(crate) fn nodes(&self) -> &[Node<'g>]
        ensures { map node_model result.now ≡ self.now }
    {
        self.nodes.as_slice()
    }

    /// Whether a node is in the list.
    pub(crate) fn has(&self, node: Node<'_>) -> bool
        ensures { result ≡ has_node self.now (node_model node.entry) }
    {
        match node {
            Node::Edge(edge) => is_set(&self.edges, edge.number().0),
            Node::File(file) => is_set(&self.files, file.number().0),
        }
    }

    /// Adds a node, unless it is in the list. Returns whether it is new.
    pub(crate) fn add(&mut self, node: Node<'g>) -> Result<bool, AllocError>
        ensures is_new { IfOk result (λ is_new. is_new
            ≡ not (has_node self.old (node_model node.entry))) }
        ensures added { OnOk result (self.new ≡ mention self.old (node_model node.entry)) }
    {
        if self.has(node) {
            return Ok(false);
        }
        self.push(node)?;
        Ok(true)
    }

    /// Adds a node, even if it is in the list.
    pub(crate) fn push(&mut self, node: Node<'g>) -> Result<(), AllocError>
        ensures { OnOk result (self.new ≡ self.old ++ node_model node.entry ∷ []) }
    {
        match node {
            Node::Edge(edge) => push_flagged(
                &mut self.nodes,
                &mut self.edges,
                node,
                edge.number().0,
            ),
            Node::File(file) => push_flagged(
                &mut self.nodes,
                &mut self.files,
                node,
                file.number().0,
            ),
        }
    }

    /// Removes all nodes.
    pub(crate) fn clear(&mut self)
        ensures { self.new ≡ [] }
    {
        unset(&self.nodes, &mut self.edges, &mut self.files);
        self.nodes.clear();
    }
}

// ---- flags

/// Appends a node and sets the flag at an index. If that fails, the nodes and the set flags are
/// unchanged.
fn push_flagged<'g>(
    nodes: &mut Vec<Node<'g>>,
    flags: &mut Vec<bool>,
    node: Node<'g>,
    index: usize,
) -> Result<(), AllocError>
    ensures nodes { OnOk result (nodes.new.items ≡ nodes.old.items ++ node.entry ∷ []) }
    ensures no_node { OnErr result (nodes.new.items ≡ nodes.old.items) }
    ensures flags { OnOk result (SetsFlag index flags.old.items flags.new.items) }
    ensures no_flag { OnErr result (SameFlags flags.old.items flags.new.items) }
{
    extend_to(flags, index)?;
    nodes.push(node)?;
    flags[index] = true;
    Ok(())
}

/// Appends unset flags until an index has one.
fn extend_to(flags: &mut Vec<bool>, index: usize) -> Result<(), AllocError>
    ensures same { SameFlags flags.old.items flags.new.items }
    ensures there { OnOk result (index < length flags.new.items) }
{
    'missing: while flags.len() <= index {
        flags.push(false)?;
    }
    Ok(())
}

/// Clears the flags of nodes.
fn unset(nodes: &[Node<'_>], edges: &mut [bool], files: &mut [bool])
    ensures { AreFlagsWithin (map node_model nodes.now) edges.old files.old
        → AreFlagsWithin [] edges.new files.new }
{
    'nodes: for node in nodes {
        match *node {
            Node::Edge(edge) => unset_at(edges, edge.number().0),
            Node::File(file) => unset_at(files, file.number().0),
        }
    }
}

/// Clears the flag at an index, if any.
fn unset_at(flags: &mut [bool], index: usize)
    ensures { UnsetsFlag index flags.old flags.new }
{
    if index < flags.len() {
        flags[index] = false;
    }
}
