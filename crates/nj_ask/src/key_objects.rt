//! Commands with their keys as objects in JSON, a line each.

ghost use Rattle.std.specs.Prelude.{◌≡◌, ◌<◌, ◌++◌, true, false, All, IfOk, OnOk, codes, drop, length, map, slice_get};
ghost use Rattle.nj_ask.specs.Cited.{AddsFiles, AddsKey, AddsMember, AddsValue, OfStatements, array, path_items, compact_text, discovered_value, edge_at, edges_of, files_of, key_object, key_objects, line, path_at, stated_edge};

use crate::discovered::DiscoveredGraph;
use crate::finding_lines::push_text;
use crate::json_text::{add_paths, begin_member, push_paths};
use crate::key_inputs::push_inputs;
use crate::key_texts::{add_bases, add_texts, key_texts};
use nj_graph::{EdgeGraph, EdgeNo, FileNo};
use nj_keys::{Bases, EdgeKey};
use nj_names::RoundSet;
use nj_tools::{DiscoveryState, EdgeDiscovery};
use std::alloc::{AllocError, Global};

/// An object for each key, a line each. `counts` says how many implicit inputs each edge has without
/// those that builds discovered. Each of the bases has one directory.
pub(crate) fn key_objects(
    alloc: Global,
    known: &DiscoveredGraph,
    counts: &[usize],
    bases: &[Bases],
    keys: &[EdgeKey],
) -> Result<Vec<u8>, AllocError>
    requires counts { counts.now
        ≡ map (λ discovery. discovery.stated_inputs) known.now.discoveries.items }
    requires keys { All (λ next. next.edge.0 < length (edges_of known.now.graph)) keys.now }
    ensures { OfStatements known.now.graph (λ entries. IfOk result (λ text. text.items
        ≡ key_objects known.now.graph entries known.now.discoveries.items bases.now keys.now)) }
{
    let mut found = RoundSet::none_below(alloc, known.graph.file_count())?;
    let mut text = Vec::new(alloc);
    'keys: for next in keys {
        push_object(&mut text, known, counts, bases, *next, &mut found)?;
    }
    Ok(text)
}

/// Appends the object of a command with its key.
fn push_object(
    text: &mut Vec<u8>,
    known: &DiscoveredGraph,
    counts: &[usize],
    bases: &[Bases],
    next: EdgeKey,
    found: &mut RoundSet,
) -> Result<(), AllocError>
    requires counts { counts.now
        ≡ map (λ discovery. discovery.stated_inputs) known.now.discoveries.items }
    requires edge { next.edge.0 < length (edges_of known.now.graph) }
    requires limit { found.old.limit ≡ length (files_of known.now.graph) }
    ensures limit { found.new.limit ≡ found.old.limit }
    ensures object { OfStatements known.now.graph (λ entries. OnOk result (text.new.items
        ≡ text.old.items ++ line (compact_text (key_object known.now.graph entries
        known.now.discoveries.items bases.now next)))) }
{
    let texts = key_texts(*text.allocator(), known.graph.edge_at(next.edge))?;
    add_key(text, &next.key)?;
    add_files(text, &known.graph, counts, next.edge, found)?;
    add_texts(text, &texts)?;
    let discovery = discovery_of(&known.discoveries, next.edge);
    add_discovered(text, &known.graph, discovery, next.edge)?;
    add_bases(text, bases, &texts)?;
    text.extend_from_slice(b"}\n")?;
    Ok(())
}

/// What builds discovered for an edge; `None` if nothing was joined.
fn discovery_of(discoveries: &[EdgeDiscovery], edge: EdgeNo) -> Option<EdgeDiscovery>
    ensures { result ≡ slice_get discoveries.now edge.0 }
{
    discoveries.get(edge.0).copied()
}

/// Begins an object with a key.
fn add_key(text: &mut Vec<u8>, key: &[u8]) -> Result<(), AllocError>
    ensures { OnOk result (AddsKey key.now text.old.items text.new.items) }
{
    let digits = hex::encode(*text.allocator(), key)?;
    text.push(b'{')?;
    begin_member(text, false, "key")?;
    push_text(text, &digits)
}

/// Adds the outputs and the inputs of an edge as members after others.
fn add_files(
    text: &mut Vec<u8>,
    graph: &EdgeGraph,
    counts: &[usize],
    edge: EdgeNo,
    found: &mut RoundSet,
) -> Result<(), AllocError>
    requires edge { edge.0 < length graph.now.edges }
    requires limit { found.old.limit ≡ length graph.now.files }
    ensures limit { found.new.limit ≡ found.old.limit }
    ensures files { OnOk result (AddsFiles graph.now.edges found.old.limit
        (stated_edge graph.now.edges counts.now edge.0) text.old.items text.new.items) }
{
    add_paths(text, "outputs", graph, graph.explicit_output_files(edge))?;
    add_paths(
        text,
        "implicit_outputs",
        graph,
        graph.implicit_output_files(edge),
    )?;
    begin_member(text, true, "inputs")?;
    text.push(b'[')?;
    push_inputs(text, graph, counts, edge, found)?;
    text.push(b']')?;
    Ok(())
}

/// The files from a place on.
fn files_from(files: &[FileNo], place: usize) -> &[FileNo]
    ensures { result.now ≡ drop place files.entry.now }
{
    match files.get(place..) {
        Some(rest) => rest,
        None => &[],
    }
}

/// Adds the inputs that builds discovered for an edge as a member after others.
fn add_discovered(
    text: &mut Vec<u8>,
    graph: &EdgeGraph,
    discovery: Option<EdgeDiscovery>,
    edge: EdgeNo,
) -> Result<(), AllocError>
    requires { edge.0 < length graph.now.edges }
    ensures { OnOk result (AddsMember true (codes "discovered")
        (discovered_value discovery (edge_at graph.now.edges edge.0))
        text.old.items text.new.items) }
{
    begin_member(text, true, "discovered")?;
    push_discovered(text, graph, discovery, edge)
}

/// Appends the inputs that builds discovered for an edge, or `null`.
fn push_discovered(
    text: &mut Vec<u8>,
    graph: &EdgeGraph,
    discovery: Option<EdgeDiscovery>,
    edge: EdgeNo,
) -> Result<(), AllocError>
    requires { edge.0 < length graph.now.edges }
    ensures { OnOk result (AddsValue
        (discovered_value discovery (edge_at graph.now.edges edge.0))
        text.old.items text.new.items) }
{
    match discovery {
        Some(discovery) => match discovery.state {
            DiscoveryState::Known => push_known(text, graph, discovery.stated_inputs, edge),
            _ => text.extend_from_slice(b"null"),
        },
        None => text.extend_from_slice(b"null"),
    }
}

/// Appends the inputs that builds discovered for an edge, which come after the stated ones.
fn push_known(
    text: &mut Vec<u8>,
    graph: &EdgeGraph,
    stated: usize,
    edge: EdgeNo,
) -> Result<(), AllocError>
    requires { edge.0 < length graph.now.edges }
    ensures { OnOk result (AddsValue
        (array (path_items (drop stated (edge_at graph.now.edges edge.0).implicit_inputs)))
        text.old.items text.new.items) }
{
    let inputs = graph.implicit_input_files(edge);
    push_paths(text, graph, files_from(inputs, stated))
}
