//! The inputs of a command as items of an array in JSON.

ghost use Rattle.std.specs.Prelude.{◌≡◌, ◌<◌, ◌++◌, true, false, All, IfOk, OnOk, drop, length, map};
ghost use Rattle.nj_ask.specs.Cited.{KeyInput, AddsInputs, AddsItem, input_value, inputs_among, key_inputs, kind_name, name_at, path_at, paths_found, stated_edge, with_led};

use crate::finding_lines::{push_bytes, push_text};
use crate::json_text::push_comma;
use crate::looked_through::{add_led, is_phony_made};
use crate::stated::stated_inputs;
use nj_graph::{EdgeGraph, EdgeNo, FileNo, Kind};
use nj_names::RoundSet;
use std::alloc::AllocError;

/// Appends the files for which the inputs of an edge stand, without the inputs that builds discovered,
/// and returns whether there are any. `found` has room for all files of the graph.
pub(crate) fn push_inputs(
    text: &mut Vec<u8>,
    graph: &EdgeGraph,
    stated: &[usize],
    edge: EdgeNo,
    found: &mut RoundSet,
) -> Result<bool, AllocError>
    requires limit { found.old.limit ≡ length graph.now.files }
    requires edge { edge.0 < length graph.now.edges }
    ensures limit { found.new.limit ≡ found.old.limit }
    ensures text { IfOk result (AddsInputs false (key_inputs graph.now.edges
        found.old.limit (stated_edge graph.now.edges stated.now edge.0))
        text.old.items text.new.items) }
{
    found.clear();
    let explicit = graph.explicit_input_files(edge);
    let later = push_led(text, graph, explicit, Kind::Explicit, found, false)?;
    let implicit = stated_inputs(graph, stated, edge);
    let later = push_led(text, graph, implicit, Kind::Implicit, found, later)?;
    let order_only = graph.order_only_input_files(edge);
    push_led(text, graph, order_only, Kind::OrderOnly, found, later)
}

/// Adds the files to which the given inputs of a kind lead, and appends those of the new files that no
/// phony edge makes. Returns whether an item is before what follows.
fn push_led(
    text: &mut Vec<u8>,
    graph: &EdgeGraph,
    files: &[FileNo],
    kind: Kind,
    found: &mut RoundSet,
    later: bool,
) -> Result<bool, AllocError>
    requires limit { found.old.limit ≡ length graph.now.files }
    requires files { All (λ file. file.0 < length graph.now.files) files.now }
    ensures limit { found.new.limit ≡ found.old.limit }
    ensures found { OnOk result (paths_found graph.now.files found.new
        ≡ with_led graph.now.edges found.old.limit (paths_found graph.now.files found.old)
        (map (path_at graph.now.files) files.now)) }
    ensures text { IfOk result (AddsInputs later (inputs_among graph.now.edges kind
        (drop (length (paths_found graph.now.files found.old))
        (paths_found graph.now.files found.new))) text.old.items text.new.items) }
{
    let place = found.numbers().len();
    add_led(graph, found, files)?;
    push_files(
        text,
        graph,
        numbers_from(found.numbers(), place),
        kind,
        later,
    )
}

/// The numbers from a place on.
fn numbers_from(numbers: &[usize], place: usize) -> &[usize]
    ensures { result.now ≡ drop place numbers.entry.now }
{
    match numbers.get(place..) {
        Some(rest) => rest,
        None => &[],
    }
}

/// Appends those of the files with the given numbers that no phony edge makes. Returns whether an item
/// is before what follows.
fn push_files(
    text: &mut Vec<u8>,
    graph: &EdgeGraph,
    numbers: &[usize],
    kind: Kind,
    later: bool,
) -> Result<bool, AllocError>
    requires { All (λ number. number < length graph.now.files) numbers.now }
    ensures { IfOk result (AddsInputs later
        (inputs_among graph.now.edges kind (map (name_at graph.now.files) numbers.now))
        text.old.items text.new.items) }
{
    let mut after = later;
    'files: for number in numbers {
        let file = FileNo(*number);
        if !is_phony_made(graph, file) {
            push_input(text, after, kind, graph.path(file))?;
            after = true;
        }
    }
    Ok(after)
}

/// Appends an input as an item.
fn push_input(text: &mut Vec<u8>, later: bool, kind: Kind, path: &[u8]) -> Result<(), AllocError>
    ensures { OnOk result (AddsItem later
        (input_value (record { kind = kind; path = path.now }))
        text.old.items text.new.items) }
{
    push_comma(text, later)?;
    text.extend_from_slice(b"{\"path\":")?;
    push_bytes(text, path)?;
    text.extend_from_slice(b",\"kind\":")?;
    push_text(text, kind_name(kind))?;
    text.push(b'}')?;
    Ok(())
}

/// The word of a kind.
fn kind_name(kind: Kind) -> &'static str
    ensures { result.now ≡ kind_name kind }
{
    match kind {
        Kind::Explicit => "explicit",
        Kind::Implicit => "implicit",
        Kind::OrderOnly => "order_only",
    }
}
