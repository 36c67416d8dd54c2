//! The contents of an edge's key.

ghost use Rattle.std.specs.Prelude.{◌≡◌, ◌++◌, codes, IfOk, OnOk, length, map, slice_get};
ghost use Rattle.nj_keys.specs.Cited.{edges_of, OfEdge, edge_at, edge_of, edges_stated, file_of, files_in, paths_of, flat_map, outputs_of, maker_of, mapped, bars, field, fields_of, fields_text, input_text, inputs_with_keys, maker_key, number, response_of, variable_of, kept_key, input_texts, path_texts};

use crate::bases::Bases;
use itoa::Buffer;
use nj_graph::{Edge, EdgeNo, File, Files, Kind};
use std::alloc::{AllocError, Global};

// The key of an edge.
pub(crate) type Key = [u8; 32];

/// Returns the text of the fields of an edge, without discovered inputs. The keys of the edges that
/// make its inputs are kept.
pub(crate) fn fields_text(
    alloc: Global,
    edge: Edge<'_>,
    bases: &Bases,
    counts: &[usize],
    keys: &[Option<Key>],
) -> Result<Vec<u8>, AllocError>
    ensures { OfEdge (edge_of edge.entry) (λ entries number.
        IfOk result (λ text. text.items ≡ fields_text (fields_of bases.now
        (edges_stated counts.now (edges_of (edge_of edge.entry).graph)) entries
        (kept_key keys.now) number))) }
{
    let mut text = Vec::new(alloc);
    push_command(&mut text, edge, bases)?;
    push_response(&mut text, edge, bases)?;
    push_outputs(&mut text, edge, bases)?;
    push_inputs(&mut text, edge, bases, counts, keys)?;
    Ok(text)
}

// Appends the command of an edge.
fn push_command(text: &mut Vec<u8>, edge: Edge<'_>, bases: &Bases) -> Result<(), AllocError>
    ensures { OfEdge (edge_of edge.entry) (λ entries number.
        OnOk result (text.new.items ≡ text.old.items ++ field (mapped bases.now (variable_of
        (edges_of (edge_of edge.entry).graph) entries number (codes "command"))))) }
{
    let command = variable_of(*text.allocator(), edge, b"command")?;
    push_mapped(text, bases, &command)
}

// Appends the name and the content of the response file of an edge.
fn push_response(text: &mut Vec<u8>, edge: Edge<'_>, bases: &Bases) -> Result<(), AllocError>
    ensures { OfEdge (edge_of edge.entry) (λ entries number.
        OnOk result (text.new.items ≡ text.old.items ++ field (mapped bases.now
        (variable_of (edges_of (edge_of edge.entry).graph) entries number (codes "rspfile")))
        ++ field (mapped bases.now
        (response_of (edges_of (edge_of edge.entry).graph) entries number)))) }
{
    let file = variable_of(*text.allocator(), edge, b"rspfile")?;
    push_mapped(text, bases, &file)?;
    if file.as_slice().is_empty() {
        return push_mapped(text, bases, b"");
    }
    let content = variable_of(*text.allocator(), edge, b"rspfile_content")?;
    push_mapped(text, bases, &content)
}

// Returns the value of a variable of an edge; it is empty for a phony edge.
fn variable_of(alloc: Global, edge: Edge<'_>, name: &[u8]) -> Result<Vec<u8>, AllocError>
    ensures { OfEdge (edge_of edge.entry) (λ entries number. IfOk result (λ text. text.items
        ≡ variable_of (edges_of (edge_of edge.entry).graph) entries number name.now)) }
{
    if edge.is_phony() {
        return Ok(Vec::new(alloc));
    }
    edge.variable(alloc, name)
}

// Appends the number of the outputs of an edge, and their paths.
fn push_outputs(text: &mut Vec<u8>, edge: Edge<'_>, bases: &Bases) -> Result<(), AllocError>
    ensures { OnOk result (text.new.items ≡ text.old.items
        ++ number (length (outputs_of (paths_of (edge_of edge.entry))))
        ++ flat_map field (map (mapped bases.now) (outputs_of (paths_of (edge_of edge.entry))))) }
{
    let outputs = edge.outputs();
    push_number(text, outputs.len())?;
    push_paths(text, outputs, bases)
}

// Appends the paths of files.
fn push_paths(text: &mut Vec<u8>, files: Files<'_>, bases: &Bases) -> Result<(), AllocError>
    ensures { OnOk result (text.new.items ≡ text.old.items ++ path_texts bases.now files.entry) }
{
    'files: for file in files {
        push_mapped(text, bases, file.path())?;
    }
    Ok(())
}

// Appends the inputs of an edge, kind by kind, without discovered inputs.
fn push_inputs(
    text: &mut Vec<u8>,
    edge: Edge<'_>,
    bases: &Bases,
    counts: &[usize],
    keys: &[Option<Key>],
) -> Result<(), AllocError>
    ensures { OnOk result (text.new.items ≡ text.old.items ++ flat_map input_text
        (inputs_with_keys bases.now (edges_of (edge_of edge.entry).graph) (kept_key keys.now)
        (edge_at (edges_stated counts.now (edges_of (edge_of edge.entry).graph))
        (edge_of edge.entry).number))) }
{
    push_files(text, Kind::Explicit, edge.explicit_inputs(), bases, keys)?;
    push_files(
        text,
        Kind::Implicit,
        stated_inputs(edge, counts),
        bases,
        keys,
    )?;
    push_files(text, Kind::OrderOnly, edge.order_only_inputs(), bases, keys)
}

/// Returns the implicit inputs that the manifest itself states for an edge: as many as `counts` says,
/// or all if it has no count for the edge.
pub(crate) fn stated_inputs<'g>(edge: Edge<'g>, counts: &[usize]) -> Files<'g>
    ensures { result ≡ files_in (edge_of edge.entry).graph
        (edge_at (edges_stated counts.now (edges_of (edge_of edge.entry).graph))
        (edge_of edge.entry).number).implicit_inputs }
{
    let inputs = edge.implicit_inputs();
    match count_of(counts, edge) {
        Some(count) => inputs.split_at(count).0,
        None => inputs,
    }
}

// Returns the count for an edge; `None` if there is none.
fn count_of(counts: &[usize], edge: Edge<'_>) -> Option<usize>
    ensures { result ≡ slice_get counts.now (edge_of edge.entry).number }
{
    counts.get(edge.number().0).copied()
}

// Appends inputs of a kind: for each its kind, its path and the key of the edge that makes it.
fn push_files(
    text: &mut Vec<u8>,
    kind: Kind,
    files: Files<'_>,
    bases: &Bases,
    keys: &[Option<Key>],
) -> Result<(), AllocError>
    ensures { OnOk result (text.new.items ≡ text.old.items
        ++ input_texts bases.now (kept_key keys.now) kind files.entry) }
{
    'files: for file in files {
        push_field(text, bars(kind))?;
        push_mapped(text, bases, file.path())?;
        push_field(text, maker_key(keys, file))?;
    }
    Ok(())
}

// Returns the sign before the inputs of a kind in a manifest.
fn bars(kind: Kind) -> &'static [u8]
    ensures { result.now ≡ bars kind }
{
    match kind {
        Kind::Explicit => b"",
        Kind::Implicit => b"|",
        Kind::OrderOnly => b"||",
    }
}

// Appends a field with a number in place of each base that counts.
fn push_mapped(text: &mut Vec<u8>, bases: &Bases, bytes: &[u8]) -> Result<(), AllocError>
    ensures { OnOk result (text.new.items ≡ text.old.items ++ field (mapped bases.now bytes.now)) }
{
    let mut mapped = Vec::new(*text.allocator());
    bases.append_mapped(&mut mapped, bytes)?;
    push_field(text, &mapped)
}

/// Appends a field: its length, a colon, its bytes.
pub(crate) fn push_field(text: &mut Vec<u8>, bytes: &[u8]) -> Result<(), AllocError>
    ensures { OnOk result (text.new.items ≡ text.old.items ++ field bytes.now) }
{
    push_number(text, bytes.len())?;
    text.extend_from_slice(bytes)?;
    Ok(())
}

/// Appends a number and a colon.
pub(crate) fn push_number(text: &mut Vec<u8>, count: usize) -> Result<(), AllocError>
    ensures { OnOk result (text.new.items ≡ text.old.items ++ number count) }
{
    text.extend_from_slice(Buffer::new().format(count).as_bytes())?;
    text.push(b':')?;
    Ok(())
}

// Returns the kept key of the edge that makes a file; it is empty if no key is kept.
fn maker_key<'a>(keys: &'a [Option<Key>], file: File<'_>) -> &'a [u8]
    ensures { result.now ≡ maker_key (kept_key keys.now)
        (maker_of (edges_of (file_of file.entry).graph) (file_of file.entry).path) }
{
    match file.maker() {
        Some(edge) => kept_key(keys, edge.number()),
        None => b"",
    }
}

// Returns the kept key of an edge; it is empty if no key is kept.
pub(crate) fn kept_key<'a>(keys: &'a [Option<Key>], edge: EdgeNo) -> &'a [u8]
    ensures { result.now ≡ kept_key keys.now edge.0 }
{
    match keys.get(edge.0) {
        Some(Some(key)) => key,
        _ => b"",
    }
}
