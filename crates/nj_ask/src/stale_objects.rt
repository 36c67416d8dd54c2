//! Stale edges as objects in JSON.

ghost use Rattle.std.specs.Prelude.{◌≡◌, ◌<◌, ◌++◌, ℕ, All, IfOk, IfSome, List, OnOk, length, option_and_then, option_map, slice_get, slice_index};
ghost use Rattle.nj_ask.specs.Cited.{AreFiles, EdgeFacts, HasCounts, IsJudged, IsStateOf, LineModel, State, compact_text, edge_at, entry_of, evidence_of, input_word, inputs_of, integer, line, maker_of, newer_time, newest_file, number_value, older_time, path_at, path_value, reason_file, reason_word, stale_object, stale_objects, time_by, time_of, unsigned};

use crate::finding_lines::{push_bytes, push_text};
use crate::missing::{first_output, number_at};
use nj_build_log::{BuildLog, Entry};
use nj_graph::{EdgeGraph, EdgeNo, FileNo};
use nj_state::{JudgedBuild, Reason, StaleEdge};
use std::alloc::{AllocError, Global};

/// An object for each stale edge of a judged build, a line each.
pub(crate) fn stale_objects(
    alloc: Global,
    graph: &EdgeGraph,
    build: &JudgedBuild,
    log: &BuildLog,
    stale: &[StaleEdge],
) -> Result<Vec<u8>, AllocError>
    requires counts { HasCounts graph.now build.now }
    requires edges { All (λ item. item.edge.0 < length graph.now.edges) stale.now }
    ensures { (facts : List EdgeFacts) (s : State) → IsJudged graph.now facts log.now.lines build.now
        → IsStateOf (evidence_of graph.now facts build.now.times.items log.now.lines) s
        → IfOk result (λ text. text.items ≡ stale_objects
        (evidence_of graph.now facts build.now.times.items log.now.lines) s stale.now) }
{
    let mut text = Vec::new(alloc);
    'edges: for item in stale {
        push_object(&mut text, graph, build, log, *item)?;
    }
    Ok(text)
}

/// Appends the object of a stale edge.
fn push_object(
    text: &mut Vec<u8>,
    graph: &EdgeGraph,
    build: &JudgedBuild,
    log: &BuildLog,
    stale: StaleEdge,
) -> Result<(), AllocError>
    requires counts { HasCounts graph.now build.now }
    requires edge { stale.edge.0 < length graph.now.edges }
    ensures { (facts : List EdgeFacts) (s : State) → IsJudged graph.now facts log.now.lines build.now
        → IsStateOf (evidence_of graph.now facts build.now.times.items log.now.lines) s
        → OnOk result (text.new.items ≡ text.old.items ++ line (compact_text (stale_object
        (evidence_of graph.now facts build.now.times.items log.now.lines) s stale))) }
{
    text.extend_from_slice(b"{\"output\":")?;
    push_bytes(text, first_output(graph, stale.edge))?;
    text.extend_from_slice(b",\"reason\":")?;
    push_text(text, reason_word(graph, stale))?;
    text.extend_from_slice(b",\"file\":")?;
    push_path(text, graph, reason_file(graph, stale))?;
    text.extend_from_slice(b",\"time\":")?;
    push_older_time(text, graph, build, log, stale)?;
    text.extend_from_slice(b",\"file_time\":")?;
    push_newer_time(text, graph, build, stale)?;
    text.extend_from_slice(b"}\n")?;
    Ok(())
}

// ---- the reason

/// The word of the reason of a stale edge.
fn reason_word(graph: &EdgeGraph, stale: StaleEdge) -> &'static str
    requires { stale.edge.0 < length graph.now.edges }
    ensures { result.now ≡ reason_word graph.now.edges
        (edge_at graph.now.edges stale.edge.0) stale.reason }
{
    match stale.reason {
        Reason::UnknownInputs => "unknown-inputs",
        Reason::StaleInput(place) => input_word(maker_of_input(graph, stale.edge, place)),
        Reason::MissingOutput(_) => "missing-output",
        Reason::OlderOutput(_) => "older-output",
        Reason::OtherCommand(_) => "other-command",
        Reason::EarlierBuild(_) => "earlier-build",
        Reason::NotLogged(_) => "not-logged",
    }
}

/// The word for a stale input, by the edge that makes it.
fn input_word(maker: Option<EdgeNo>) -> &'static str
    ensures { result.now ≡ input_word (option_map (λ edge. edge.0) maker) }
{
    match maker {
        Some(_) => "stale-input",
        None => "missing-input",
    }
}

/// The edge that makes the input at a place; `None` for a source, and past the last input.
fn maker_of_input(graph: &EdgeGraph, edge: EdgeNo, place: usize) -> Option<EdgeNo>
    requires { edge.0 < length graph.now.edges }
    ensures { option_map (λ maker. maker.0) result ≡ option_and_then
        (maker_of graph.now.edges) (slice_get (inputs_of (edge_at graph.now.edges edge.0)) place) }
{
    match file_at(graph, graph.inputs(edge), place) {
        Some(file) => graph.maker(file),
        None => None,
    }
}

/// The file that gives the reason of a stale edge, if any.
fn reason_file(graph: &EdgeGraph, stale: StaleEdge) -> Option<FileNo>
    requires { stale.edge.0 < length graph.now.edges }
    ensures path { option_map (path_at graph.now.files) result ≡ reason_file
        (edge_at graph.now.edges stale.edge.0) stale.newest stale.reason }
    ensures known { IfSome result (λ file. file.0 < length graph.now.files) }
{
    match stale.reason {
        Reason::UnknownInputs | Reason::OtherCommand(_) => None,
        Reason::StaleInput(place) => file_at(graph, graph.inputs(stale.edge), place),
        Reason::MissingOutput(place) | Reason::NotLogged(place) => {
            file_at(graph, graph.outputs(stale.edge), place)
        }
        Reason::OlderOutput(_) | Reason::EarlierBuild(_) => newest_file(graph, stale),
    }
}

/// The newest of the inputs that count, if any.
fn newest_file(graph: &EdgeGraph, stale: StaleEdge) -> Option<FileNo>
    requires { stale.edge.0 < length graph.now.edges }
    ensures path { option_map (path_at graph.now.files) result
        ≡ newest_file (edge_at graph.now.edges stale.edge.0) stale.newest }
    ensures known { IfSome result (λ file. file.0 < length graph.now.files) }
{
    match stale.newest {
        Some(place) => file_at(graph, graph.inputs(stale.edge), place),
        None => None,
    }
}

/// The file at a place in a list, or `None` past its end.
fn file_at(graph: &EdgeGraph, files: &[FileNo], place: usize) -> Option<FileNo>
    requires { All (λ file. file.0 < length graph.now.files) files.now }
    ensures path { (paths : List (List ℕ)) → AreFiles graph.now.files files.now paths
        → option_map (path_at graph.now.files) result ≡ slice_get paths place }
    ensures known { IfSome result (λ file. file.0 < length graph.now.files) }
{
    number_at(files, place)
}

/// Appends a path as a value, if any.
fn push_path(text: &mut Vec<u8>, graph: &EdgeGraph, file: Option<FileNo>) -> Result<(), AllocError>
    requires { IfSome file (λ file. file.0 < length graph.now.files) }
    ensures { OnOk result (text.new.items ≡ text.old.items
        ++ compact_text (path_value (option_map (path_at graph.now.files) file))) }
{
    match file {
        Some(file) => push_bytes(text, graph.path(file)),
        None => text.extend_from_slice(b"null"),
    }
}

// ---- times

/// Appends the time of an output that is older than the newest input: on the disk, or by the log that
/// of its last build.
fn push_older_time(
    text: &mut Vec<u8>,
    graph: &EdgeGraph,
    build: &JudgedBuild,
    log: &BuildLog,
    stale: StaleEdge,
) -> Result<(), AllocError>
    requires counts { HasCounts graph.now build.now }
    requires edge { stale.edge.0 < length graph.now.edges }
    ensures { (facts : List EdgeFacts) → OnOk result (text.new.items ≡ text.old.items
        ++ compact_text (number_value (older_time
        (evidence_of graph.now facts build.now.times.items log.now.lines)
        (edge_at graph.now.edges stale.edge.0) stale.reason))) }
{
    let outputs = graph.outputs(stale.edge);
    match stale.reason {
        Reason::OlderOutput(place) => {
            push_number(
                text,
                disk_time(graph, build, file_at(graph, outputs, place)),
            )
        }
        Reason::EarlierBuild(place) => {
            push_integer(
                text,
                logged_time(graph, log, file_at(graph, outputs, place)),
            )
        }
        _ => text.extend_from_slice(b"null"),
    }
}

/// Appends the time of the newest input, if the reason of a stale edge compares it.
fn push_newer_time(
    text: &mut Vec<u8>,
    graph: &EdgeGraph,
    build: &JudgedBuild,
    stale: StaleEdge,
) -> Result<(), AllocError>
    requires counts { HasCounts graph.now build.now }
    requires edge { stale.edge.0 < length graph.now.edges }
    ensures { (facts : List EdgeFacts) (lines : List LineModel) (s : State)
        → IsJudged graph.now facts lines build.now
        → IsStateOf (evidence_of graph.now facts build.now.times.items lines) s
        → OnOk result (text.new.items ≡ text.old.items ++ compact_text (number_value
        (newer_time s (edge_at graph.now.edges stale.edge.0) stale.newest stale.reason))) }
{
    match stale.reason {
        Reason::OlderOutput(_) | Reason::EarlierBuild(_) => {
            push_number(text, input_time(graph, build, newest_file(graph, stale)))
        }
        _ => text.extend_from_slice(b"null"),
    }
}

/// The time of a file on the disk.
fn disk_time(graph: &EdgeGraph, build: &JudgedBuild, file: Option<FileNo>) -> Option<u64>
    requires counts { HasCounts graph.now build.now }
    requires file { IfSome file (λ file. file.0 < length graph.now.files) }
    ensures { result ≡ option_map (time_of graph.now.files build.now.times.items)
        (option_map (path_at graph.now.files) file) }
{
    // no path has two files
    let _file_count = graph.file_count();
    match file {
        Some(file) => Some(time_as_input(build, file, None)),
        None => None,
    }
}

/// The time that a file has as an input: the time on the disk, or what its maker lends.
fn input_time(graph: &EdgeGraph, build: &JudgedBuild, file: Option<FileNo>) -> Option<u64>
    requires counts { HasCounts graph.now build.now }
    requires file { IfSome file (λ file. file.0 < length graph.now.files) }
    ensures { (facts : List EdgeFacts) (lines : List LineModel) (s : State)
        → IsJudged graph.now facts lines build.now
        → IsStateOf (evidence_of graph.now facts build.now.times.items lines) s
        → result ≡ option_map s.time (option_map (path_at graph.now.files) file) }
{
    // no path has two files
    let _file_count = graph.file_count();
    match file {
        Some(file) => Some(time_as_input(build, file, graph.maker(file))),
        None => None,
    }
}

/// The same, by the edge that makes the file.
fn time_as_input(build: &JudgedBuild, file: FileNo, maker: Option<EdgeNo>) -> u64
    requires file { file.0 < length build.now.times.items }
    requires maker { IfSome maker (λ edge. edge.0 < length build.now.lent.items) }
    ensures { result ≡ time_by (option_map (λ edge. edge.0) maker)
        (slice_index build.now.times.items file.0) build.now.lent.items }
{
    let disk = build.times[file.0];
    match maker {
        Some(edge) => { if disk == 0 { build.lent[edge.0] } else { disk } }
        None => disk,
    }
}

/// The time of the last build of an output, by the log.
fn logged_time(graph: &EdgeGraph, log: &BuildLog, output: Option<FileNo>) -> Option<i64>
    requires { IfSome output (λ file. file.0 < length graph.now.files) }
    ensures { result ≡ option_map (λ entry. entry.time) (option_and_then
        (entry_of log.now.lines) (option_map (path_at graph.now.files) output)) }
{
    match output {
        Some(file) => entry_time(log.entry(graph.path(file))),
        None => None,
    }
}

/// The time of an entry.
fn entry_time(entry: Option<Entry>) -> Option<i64>
    ensures { result ≡ option_map (λ entry. entry.time) entry }
{
    match entry {
        Some(entry) => Some(entry.time),
        None => None,
    }
}

/// Appends a number as a value, if any.
fn push_number(text: &mut Vec<u8>, number: Option<u64>) -> Result<(), AllocError>
    ensures { OnOk result (text.new.items ≡ text.old.items
        ++ compact_text (number_value (option_map unsigned number))) }
{
    let Some(number) = number else {
        return text.extend_from_slice(b"null");
    };
    let digits = format!(in *text.allocator(); "{number}")?;
    text.extend_from_slice(digits.as_bytes())
}

/// Appends an integer as a value, if any.
fn push_integer(text: &mut Vec<u8>, number: Option<i64>) -> Result<(), AllocError>
    ensures { OnOk result (text.new.items ≡ text.old.items
        ++ compact_text (number_value (option_map integer number))) }
{
    let Some(number) = number else {
        return text.extend_from_slice(b"null");
    };
    let digits = format!(in *text.allocator(); "{number}")?;
    text.extend_from_slice(digits.as_bytes())
}
