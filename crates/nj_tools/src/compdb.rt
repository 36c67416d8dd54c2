//! Compilation databases.

ghost use Rattle.std.specs.Prelude.{◌≡◌, ◌++◌, ℕ, List, Some, map, option_map, slice_get, string_bytes, IfOk, IfSome, OnOk};
ghost use Rattle.nj_tools.specs.Cited.{IsGraphOf, OfStatements, OfEdge, ReadStatement, GraphModel, edge_in, edge_of, files_in, text_fault, Refuses, edges_read, IsSame, PutsText, has_object, compilation_of, compdb_text, unheld_edge, WritesCompdb, command_text, first_path, held_compilation, list_text, object_of_strings};

use crate::chosen_rules::ChosenRules;
use crate::json_strings::{held_string, json_string};
use crate::output::Output;
use crate::sinks::Sink;
use crate::tool_fault::ToolFault;
use nj_graph::{Cause, Edge, Files, Graph, GraphFault};
use std::alloc::{AllocError, Global};
use std::marker::Model;

/// Writes a compilation database: a list in JSON with an object for each edge that has a command
/// and an input and whose rule is named, or, if no rule is named, for each edge with a command and
/// an input. With `expand`, a command has the contents of its response file in place of the file's
/// name ("Extra tools" in the Ninja manual, `compdb`).
///
/// # Errors
///
/// `TextNotUtf8` if the command, the first input or the first output of an edge is not UTF-8: the
/// sink accepted the objects before it, without the end of the list. `Write` if the sink failed,
/// and `OutOfMemory` if an allocation failed; the sink has then accepted a prefix of the text.
#[tactic(auto, using(crate::proofs::CompdbLemmas::list_no_memory))]
pub fn write_compdb<S: Sink>(
    alloc: Global,
    graph: &Graph,
    directory: &str,
    rules: &[String],
    expand: bool,
    out: &mut S,
) -> Result<(), ToolFault>
    ensures { OfStatements graph.now (λ entries. WritesCompdb (S.state out.old) (S.state out.new)
        (compdb_text entries directory.now (map string_bytes rules.now) expand)
        (option_map (text_fault entries) (unheld_edge entries (map string_bytes rules.now) expand))
        result) }
{
    let chosen = ChosenRules::new(alloc, rules)?;
    let directory = json_string(alloc, directory)?;
    let mut text = Vec::new(alloc);
    let mut output = Output::new(out, &mut text);
    let unheld = write_list(alloc, graph, &chosen, &directory, expand, &mut output)?;
    output.flush()?;
    refuse(alloc, unheld)
}

/// Refuses an edge that JSON cannot contain, if any. The fault is at its build statement.
pub(crate) fn refuse(alloc: Global, unheld: Option<Edge<'_>>) -> Result<(), ToolFault>
    ensures { (entries : List ReadStatement)
        → IfSome unheld.entry (λ edge. IsGraphOf (edge_of edge).graph entries)
        → Refuses (option_map (λ edge. text_fault entries (edge_of edge).number) unheld.entry)
        result }
{
    let Some(edge) = unheld else {
        return Ok(());
    };
    let place = edge.place().to_place(alloc)?;
    Err(ToolFault::TextNotUtf8(GraphFault {
        place: Some(place),
        cause: Cause::TextNotUtf8,
    }))
}

// Writes the list. Returns the first edge that JSON cannot contain, before which it stops; `None`
// if JSON can contain all of them.
fn write_list<'g, S: Sink>(
    alloc: Global,
    graph: &'g Graph,
    chosen: &ChosenRules<'_>,
    directory: &[u8],
    expand: bool,
    out: &mut Output<'_, S>,
) -> Result<Option<Edge<'g>>, ToolFault>
    ensures same { IsSame out.old out.new }
    ensures text { OfStatements graph.entry.now (λ entries. PutsText S.state out.old out.new
        (list_text entries directory.now chosen.now expand) result) }
    ensures unheld { OfStatements graph.entry.now (λ entries. IfOk result (λ edge.
        option_map edge_of edge
        ≡ option_map (edge_in graph.entry.now) (unheld_edge entries chosen.now expand))) }
{
    out.pending.push(b'[')?;
    let mut separator = b"\n".as_slice();
    'edges: for edge in graph.edges() {
        if has_object(edge, chosen) {
            let Some(strings) = strings_of(alloc, edge, expand)? else {
                return Ok(Some(edge));
            };
            append_object(out.pending, separator, directory, &strings)?;
            out.write_block()?;
            separator = b",\n";
        }
    }
    out.pending.extend_from_slice(b"\n]\n")?;
    Ok(None)
}

// Whether an edge has an object: it has a command and an input, and its rule is chosen.
fn has_object(edge: Edge<'_>, chosen: &ChosenRules<'_>) -> bool
    ensures { OfEdge (edge_of edge.entry) (λ entries number.
        Some result ≡ option_map (has_object entries chosen.now)
        (slice_get (edges_read entries) number)) }
{
    !edge.is_phony() && !edge.inputs().is_empty() && chosen.includes(edge.rule_name())
}

// The written strings of an edge, as in JSON.
#[derive(Drop)]
struct Strings {
    command: Vec<u8>,
    file: Vec<u8>,
    output: Vec<u8>,
}

impl Model for Strings {
    ghost use Rattle.nj_tools.specs.Compdb.{Compilation};

    ghost Value = { Compilation };

    ghost view = { λ s. record {
      command = s.command.items;
      file = s.file.items;
      output = s.output.items;
    } };
}

// The command of an edge, and its first input and output; `None` if one of them is not UTF-8.
fn strings_of(alloc: Global, edge: Edge<'_>, expand: bool) -> Result<Option<Strings>, AllocError>
    ensures { OfEdge (edge_of edge.entry) (λ entries number. IfOk result (λ strings.
        strings ≡ held_compilation (compilation_of entries expand number))) }
{
    let command = command_text(alloc, edge, expand)?;
    let Some(command) = held_string(alloc, &command)? else {
        return Ok(None);
    };
    let Some(file) = held_string(alloc, first_path(edge.inputs()))? else {
        return Ok(None);
    };
    let Some(output) = held_string(alloc, first_path(edge.outputs()))? else {
        return Ok(None);
    };
    Ok(Some(Strings {
        command,
        file,
        output,
    }))
}

// The command of an edge, with the contents of its response file in place of the name if `expand`
// is set.
fn command_text(alloc: Global, edge: Edge<'_>, expand: bool) -> Result<Vec<u8>, AllocError>
    ensures { OfEdge (edge_of edge.entry) (λ entries number.
        IfOk result (λ text. text.items ≡ command_text entries expand number)) }
{
    if expand {
        edge.command_with_rsp(alloc)
    } else {
        edge.command(alloc)
    }
}

// The path of the first of the given files; empty without files.
fn first_path<'g>(files: Files<'g>) -> &'g [u8]
    ensures { (graph : GraphModel) (paths : List (List ℕ)) → files.entry ≡ files_in graph paths
        → result.now ≡ first_path paths }
{
    match files.first() {
        Some(file) => file.path(),
        None => b"",
    }
}

// Appends an object after the previous object.
fn append_object(
    text: &mut Vec<u8>,
    separator: &[u8],
    directory: &[u8],
    strings: &Strings,
) -> Result<(), AllocError>
    ensures { OnOk result (text.new.items
        ≡ text.old.items ++ (separator.now ++ object_of_strings directory.now strings.now)) }
{
    text.extend_from_slice(separator)?;
    text.extend_from_slice(b"  {\n")?;
    append_member(text, b"    \"directory\": ", directory, b",\n")?;
    append_member(text, b"    \"command\": ", &strings.command, b",\n")?;
    append_member(text, b"    \"file\": ", &strings.file, b",\n")?;
    append_member(text, b"    \"output\": ", &strings.output, b"\n")?;
    text.extend_from_slice(b"  }")
}

// Appends a name, its string, and the text after it.
fn append_member(
    text: &mut Vec<u8>,
    name: &[u8],
    string: &[u8],
    after: &[u8],
) -> Result<(), AllocError>
    ensures { OnOk result (text.new.items
        ≡ text.old.items ++ (name.now ++ string.now ++ after.now)) }
{
    text.extend_from_slice(name)?;
    text.extend_from_slice(string)?;
    text.extend_from_slice(after)
}
