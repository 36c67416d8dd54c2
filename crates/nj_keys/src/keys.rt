//! The keys of edges, each from the keys of the edges that make its inputs.

ghost use Rattle.std.specs.Prelude.{◌≡◌, ℕ, IfNone, IfOk, IfSome, OnOk, Some, length};
ghost use Rattle.nj_keys.specs.Cited.{edges_of, edges_stated, GraphEdge, OfEdge, edge_of, file_of, IsKey, Needs, inputs_in, made_by, IsAcyclic, IsKept, IsMissing, KeepsKeys, MakesOne};

use crate::bases::Bases;
use crate::fields::{Key, fields_text};
use nj_graph::{Edge, File, Files};
use sha2::{Digest, Sha256};
use std::alloc::{AllocError, Global};

// An edge without a key, and the inputs whose makers may lack a key.
#[derive(Drop)]
struct Frame<'g> {
    edge: Edge<'g>,
    inputs: Files<'g>,
}

// Keeps the key of an edge, after the missing keys of all edges that it needs. `keys` has a place
// for each edge. Discovered inputs are not part of a key, but their makers get keys too.
pub(crate) fn keep_key(
    alloc: Global,
    edge: Edge<'_>,
    bases: &Bases,
    counts: &[usize],
    keys: &mut [Option<Key>],
) -> Result<(), AllocError>
    requires count { length keys.old ≡ length (edges_of (edge_of edge).graph) }
    requires acyclic { IsAcyclic (edges_of (edge_of edge).graph) }
    ensures keys { OfEdge (edge_of edge.entry) (λ entries number.
        KeepsKeys bases.now (edges_stated counts.now (edges_of (edge_of edge.entry).graph))
        entries keys.old
        → KeepsKeys bases.now (edges_stated counts.now (edges_of (edge_of edge.entry).graph))
        entries keys.new) }
    ensures kept { OnOk result (IsKept keys.new (edge_of edge.entry).number) }
{
    if keys[edge.number().0].is_some() {
        return Ok(());
    }
    let mut open = Vec::new(alloc);
    open.push(opened(edge))?;
    'open: while let Some(frame) = open.pop() {
        let user = frame.edge;
        let mut inputs = frame.inputs;
        match missing_maker(&mut inputs, keys) {
            Some(maker) => {
                open.push(Frame { edge: user, inputs })?;
                open.push(opened(maker))?;
            }
            None => keys[user.number().0] = Some(key_of(alloc, user, bases, counts, keys)?),
        }
    }
    Ok(())
}

// Returns an edge with all its inputs.
fn opened(edge: Edge<'_>) -> Frame<'_>
    ensures edge { edge_of result.edge ≡ edge_of edge.entry }
    ensures inputs { result.inputs ≡ inputs_in (edge_of edge.entry) }
{
    Frame {
        edge,
        inputs: edge.inputs(),
    }
}

// Returns the first maker of the given files that lacks a key, if any; its file becomes the first
// file.
fn missing_maker<'g>(files: &mut Files<'g>, keys: &[Option<Key>]) -> Option<Edge<'g>>
    ensures found { IfSome result (λ maker. MakesOne files.old (edge_of maker)) }
    ensures missing { IfSome result (λ maker. IsMissing keys.now (edge_of maker).number) }
    ensures none { IfNone result ((edge : GraphEdge) → MakesOne files.old edge
        → IsMissing keys.now edge.number → ⊥) }
    ensures left { (edge : GraphEdge) → MakesOne files.old edge
        → IsMissing keys.now edge.number → MakesOne files.new edge }
    ensures fewer { (edge : GraphEdge) → MakesOne files.new edge → MakesOne files.old edge }
{
    'files: while let Some(file) = files.first() {
        if let Some(maker) = maker_without_key(file, keys) {
            return Some(maker);
        }
        files.next();
    }
    None
}

// Returns the edge that makes a file, if the edge lacks a key.
fn maker_without_key<'g>(file: File<'g>, keys: &[Option<Key>]) -> Option<Edge<'g>>
    ensures maker { IfSome result (λ maker. made_by (file_of file.entry) ≡ Some (edge_of maker)) }
    ensures missing { IfSome result (λ maker. IsMissing keys.now (edge_of maker).number) }
    ensures none { IfNone result ((edge : GraphEdge) → made_by (file_of file.entry) ≡ Some edge
        → IsMissing keys.now edge.number → ⊥) }
{
    let maker = file.maker()?;
    match keys.get(maker.number().0) {
        Some(None) => Some(maker),
        _ => None,
    }
}

// Returns the key of an edge. The keys of the edges that make its inputs are kept.
fn key_of(
    alloc: Global,
    edge: Edge<'_>,
    bases: &Bases,
    counts: &[usize],
    keys: &[Option<Key>],
) -> Result<Key, AllocError>
    requires { (maker : ℕ)
        → Needs (edges_of (edge_of edge).graph) (edge_of edge).number maker
        → IsKept keys.now maker }
    ensures { OfEdge (edge_of edge.entry) (λ entries number.
        KeepsKeys bases.now (edges_stated counts.now (edges_of (edge_of edge.entry).graph))
        entries keys.now → IfOk result (λ key. IsKey bases.now
        (edges_stated counts.now (edges_of (edge_of edge.entry).graph)) entries number key)) }
{
    let fields = fields_text(alloc, edge, bases, counts, keys)?;
    Ok(Sha256::digest(fields.as_slice()))
}
