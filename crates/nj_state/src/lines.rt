//! The lines about stale edges.

ghost use Rattle.std.specs.Prelude.{◌≡◌, ◌<◌, ◌++◌, All, IfOk, List, OnOk, ℕ, length, option_map, slice_get};
ghost use Rattle.nj_state.specs.Cited.{AreFiles, edge_at, flat_map, input_text, input_words, inputs_of, name_at, newest_path, newest_text, output_text, outputs_of, reason_text, stale_line, why_text};

use crate::commands::StaleEdge;
use nj_graph::{EdgeGraph, EdgeNo, FileNo};
use nj_stale::Reason;
use std::alloc::{AllocError, Global};

/// Returns the lines of stale edges of a graph, with their reasons if `why` is set. Fails only if
/// an allocation fails.
pub fn stale_lines(
    alloc: Global,
    graph: &EdgeGraph,
    stale: &[StaleEdge],
    why: bool,
) -> Result<Vec<u8>, AllocError>
    requires { All (λ item. item.edge.0 < length graph.now.edges) stale.now }
    ensures { IfOk result (λ text.
        text.items ≡ flat_map (stale_line why graph.now.edges) stale.now) }
{
    let mut text = Vec::new(alloc);
    'edges: for item in stale {
        push_stale_line(&mut text, graph, *item, why)?;
    }
    Ok(text)
}

/// Appends the line of a stale edge of a graph: its first output, and its reason if `why` is set.
pub fn push_stale_line(
    text: &mut Vec<u8>,
    graph: &EdgeGraph,
    stale: StaleEdge,
    why: bool,
) -> Result<(), AllocError>
    requires { stale.edge.0 < length graph.now.edges }
    ensures { OnOk result (text.new.items
        ≡ text.old.items ++ stale_line why graph.now.edges stale) }
{
    text.extend_from_slice(path_in(graph, graph.outputs(stale.edge), 0))?;
    push_why(text, graph, stale, why)?;
    text.push(b'\n')?;
    Ok(())
}

// Appends why an edge is stale, if that is requested.
fn push_why(
    text: &mut Vec<u8>,
    graph: &EdgeGraph,
    stale: StaleEdge,
    why: bool,
) -> Result<(), AllocError>
    requires { stale.edge.0 < length graph.now.edges }
    ensures { OnOk result (text.new.items
        ≡ text.old.items ++ why_text why graph.now.edges stale) }
{
    if !why {
        return Ok(());
    }
    text.extend_from_slice(b": ")?;
    push_reason(text, graph, stale)
}

// Appends the reason of a stale edge.
fn push_reason(text: &mut Vec<u8>, graph: &EdgeGraph, stale: StaleEdge) -> Result<(), AllocError>
    requires { stale.edge.0 < length graph.now.edges }
    ensures { OnOk result (text.new.items ≡ text.old.items ++ reason_text graph.now.edges
        (edge_at graph.now.edges stale.edge.0) stale.newest stale.reason) }
{
    let edge = stale.edge;
    match stale.reason {
        Reason::UnknownInputs => text.extend_from_slice(b"its discovered inputs are not known"),
        Reason::StaleInput(place) => push_input(text, graph, edge, place),
        Reason::MissingOutput(place) => push_output(text, graph, edge, place, b" is missing"),
        Reason::OlderOutput(_) => push_newest(text, graph, stale, b" is newer"),
        Reason::OtherCommand(_) => text.extend_from_slice(b"the command changed"),
        Reason::EarlierBuild(_) => {
            push_newest(text, graph, stale, b" is newer than the last build")
        }
        Reason::NotLogged(place) => {
            push_output(text, graph, edge, place, b" is not in the build log")
        }
    }
}

// Appends the newest input of a stale edge, and the words about it.
fn push_newest(
    text: &mut Vec<u8>,
    graph: &EdgeGraph,
    stale: StaleEdge,
    words: &[u8],
) -> Result<(), AllocError>
    requires { stale.edge.0 < length graph.now.edges }
    ensures { OnOk result (text.new.items ≡ text.old.items
        ++ newest_text (edge_at graph.now.edges stale.edge.0) stale.newest words.now) }
{
    text.extend_from_slice(newest_path(graph, stale.edge, stale.newest))?;
    text.extend_from_slice(words)
}

// Returns the path of the newest input of an edge, given its place; empty without a place.
fn newest_path(graph: &EdgeGraph, edge: EdgeNo, newest: Option<usize>) -> &[u8]
    requires { edge.0 < length graph.now.edges }
    ensures { result.now ≡ newest_path (edge_at graph.now.edges edge.0) newest }
{
    match newest {
        Some(place) => path_in(graph, graph.inputs(edge), place),
        None => b"",
    }
}

// Appends the output at a place, and the words about it.
fn push_output(
    text: &mut Vec<u8>,
    graph: &EdgeGraph,
    edge: EdgeNo,
    place: usize,
    words: &[u8],
) -> Result<(), AllocError>
    requires { edge.0 < length graph.now.edges }
    ensures { OnOk result (text.new.items ≡ text.old.items
        ++ output_text (edge_at graph.now.edges edge.0) place words.now) }
{
    text.extend_from_slice(path_in(graph, graph.outputs(edge), place))?;
    text.extend_from_slice(words)
}

// Appends the input at a place, and the words about it.
fn push_input(
    text: &mut Vec<u8>,
    graph: &EdgeGraph,
    edge: EdgeNo,
    place: usize,
) -> Result<(), AllocError>
    requires { edge.0 < length graph.now.edges }
    ensures { OnOk result (text.new.items ≡ text.old.items ++ input_text graph.now.edges
        (slice_get (inputs_of (edge_at graph.now.edges edge.0)) place)) }
{
    match file_in(graph.inputs(edge), place) {
        Some(file) => push_stale_file(text, graph, file),
        None => Ok(()),
    }
}

// Appends a file, and the words about it as an input.
fn push_stale_file(text: &mut Vec<u8>, graph: &EdgeGraph, file: FileNo) -> Result<(), AllocError>
    requires { file.0 < length graph.now.files }
    ensures { OnOk result (text.new.items ≡ text.old.items
        ++ input_text graph.now.edges (slice_get graph.now.files file.0)) }
{
    text.extend_from_slice(graph.path(file))?;
    text.extend_from_slice(input_words(graph.maker(file)))
}

// Returns the words about an input.
fn input_words(maker: Option<EdgeNo>) -> &'static [u8]
    ensures { result.now ≡ input_words (option_map (λ edge. edge.0) maker) }
{
    match maker {
        Some(_) => b" is stale",
        None => b" is missing",
    }
}

// Returns the path of the file at a place in a list; past the last file the path is empty.
fn path_in<'g>(graph: &'g EdgeGraph, files: &[FileNo], place: usize) -> &'g [u8]
    requires { All (λ file. file.0 < length graph.now.files) files.now }
    ensures { (paths : List (List ℕ)) → AreFiles graph.entry.now.files files.now paths
        → result.now ≡ name_at paths place }
{
    match file_in(files, place) {
        Some(file) => graph.path(file),
        None => b"",
    }
}

// Returns the file at a place in a list, or `None` past the last file.
fn file_in(files: &[FileNo], place: usize) -> Option<FileNo>
    ensures { result ≡ slice_get files.now place }
{
    files.get(place).copied()
}
