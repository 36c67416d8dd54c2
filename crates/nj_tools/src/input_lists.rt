//! The inputs of needed edges.

ghost use Rattle.std.specs.Prelude.{◌≡◌, ℕ, ◌<◌, ◌++◌, List, All, length, map, flat_map, IfOk, OnOk, bytes_eq, if◌then◌else◌};
ghost use Rattle.nj_tools.specs.Cited.{path_at, edges_of, files_of, IsSame, PutsText, HasExactly, file_of, inputs_of_all, new_path, new_paths, with_name, with_paths, each_once, sorted, printed, printed_strings, printed_text, terminated, inputs_text, WritesText};

use crate::file_list::Collected;
use crate::file_set::FileSet;
use crate::output::Output;
use crate::sinks::Sink;
use crate::sorted_paths::{sorted_paths, sorted_quotes};
use crate::tool_fault::ToolFault;
use nj_graph::{File, FileNo, Files, Graph};
use nj_needs::Needs;
use nj_requests::InputsStyle;
use nj_text::quote_into;
use std::alloc::{AllocError, Global};

/// Writes the inputs of the edges whose commands the given targets need, without duplicates, in the
/// given style ("Extra tools" in the Ninja manual, `inputs`). In the order of dependencies, the
/// inputs are not collected in a list.
///
/// # Errors
///
/// `Write` if the sink failed, and `OutOfMemory` if an allocation failed. The sink has then
/// accepted a prefix of the text.
pub fn write_inputs<S: Sink>(
    alloc: Global,
    graph: &Graph,
    targets: &[FileNo],
    style: InputsStyle,
    out: &mut S,
) -> Result<(), ToolFault>
    requires { All (λ file. file.0 < length (files_of graph.now)) targets.now }
    ensures { WritesText (S.state out.old) (S.state out.new)
        (inputs_text style (edges_of graph.now) (map (path_at (files_of graph.now)) targets.now))
        result }
{
    let needs = Needs::new(alloc, graph, targets)?;
    let mut text = Vec::new(alloc);
    let mut output = Output::new(out, &mut text);
    write_arranged(alloc, graph, needs, style, &mut output)?;
    output.flush()
}

// Writes the inputs of the remaining edges of a walk, in the order of the style.
fn write_arranged<S: Sink>(
    alloc: Global,
    graph: &Graph,
    needs: Needs<'_>,
    style: InputsStyle,
    out: &mut Output<'_, S>,
) -> Result<(), ToolFault>
    requires { needs.graph ≡ graph.now.built.graph }
    ensures same { IsSame out.old out.new }
    ensures text { PutsText S.state out.old out.new (flat_map (terminated style)
        (printed_strings style (inputs_of_all (edges_of graph.now) needs.entry.left))) result }
{
    if style.dependency_order {
        write_as_needed(alloc, graph, needs, style, out)
    } else {
        let inputs = needed_inputs(alloc, graph, needs)?;
        write_sorted(alloc, inputs.files(), style, out)
    }
}

// ---- in the order of dependencies

// Writes the inputs in the order of the edges that need them.
fn write_as_needed<S: Sink>(
    alloc: Global,
    graph: &Graph,
    needs: Needs<'_>,
    style: InputsStyle,
    out: &mut Output<'_, S>,
) -> Result<(), ToolFault>
    requires { needs.graph ≡ graph.now.built.graph }
    ensures same { IsSame out.old out.new }
    ensures text { PutsText S.state out.old out.new
        (printed_text style (each_once bytes_eq
        (inputs_of_all (edges_of graph.now) needs.entry.left)))
        result }
{
    let mut written = FileSet::new(alloc, graph)?;
    'edges: for edge in needs {
        append_new_files(
            out.pending,
            graph.edge_at(edge).inputs(),
            style,
            &mut written,
        )?;
        out.write_block()?;
    }
    Ok(())
}

// Appends the files that the set does not have, without duplicates, and adds them to the set.
fn append_new_files(
    text: &mut Vec<u8>,
    files: Files<'_>,
    style: InputsStyle,
    written: &mut FileSet<'_>,
) -> Result<(), AllocError>
    requires { All (λ file. file.graph ≡ written.old.graph) files }
    ensures graph { written.new.graph ≡ written.old.graph }
    ensures more { (earlier : List (List ℕ)) → HasExactly written.old earlier → OnOk result
        (HasExactly written.new (with_paths earlier (map (λ file. file.path) files.entry))) }
    ensures text { (earlier : List (List ℕ)) → HasExactly written.old earlier → OnOk result
        (text.new.items ≡ text.old.items ++ printed_text style
        (new_paths earlier (map (λ file. file.path) files.entry))) }
{
    'files: for file in files {
        append_new_file(text, file, style, written)?;
    }
    Ok(())
}

// Appends a file that the set does not have, and adds it to the set.
fn append_new_file(
    text: &mut Vec<u8>,
    file: File<'_>,
    style: InputsStyle,
    written: &mut FileSet<'_>,
) -> Result<(), AllocError>
    requires { (file_of file).graph ≡ written.old.graph }
    ensures graph { written.new.graph ≡ written.old.graph }
    ensures more { (earlier : List (List ℕ)) → HasExactly written.old earlier → OnOk result
        (HasExactly written.new (with_name earlier (file_of file.entry).path)) }
    ensures text { (earlier : List (List ℕ)) → HasExactly written.old earlier → OnOk result
        (text.new.items ≡ text.old.items
        ++ printed_text style (new_path earlier (file_of file.entry).path)) }
{
    if written.has(file) {
        return Ok(());
    }
    append_path(text, file.path(), style)?;
    written.insert(file);
    Ok(())
}

// Appends a printed path with its terminator.
fn append_path(text: &mut Vec<u8>, path: &[u8], style: InputsStyle) -> Result<(), AllocError>
    ensures { OnOk result
        (text.new.items ≡ text.old.items ++ terminated style (printed style path.now)) }
{
    if style.shell_escape {
        quote_into(text, path)?;
    } else {
        text.extend_from_slice(path)?;
    }
    text.push(terminator(style))?;
    Ok(())
}

// ---- in byte order

// The inputs of the remaining edges of a walk.
fn needed_inputs<'g>(
    alloc: Global,
    graph: &'g Graph,
    needs: Needs<'_>,
) -> Result<Collected<'g>, AllocError>
    requires { needs.graph ≡ graph.now.built.graph }
    ensures graph { IfOk result (λ inputs. inputs.graph ≡ graph.entry.now) }
    ensures paths { IfOk result (λ inputs. inputs.paths
        ≡ each_once bytes_eq (inputs_of_all (edges_of graph.entry.now) needs.entry.left)) }
{
    let mut inputs = Collected::new(alloc, graph)?;
    'edges: for edge in needs {
        inputs.add_all(graph.edge_at(edge).inputs())?;
    }
    Ok(inputs)
}

// Writes the printed paths of files, in their byte order.
fn write_sorted<S: Sink>(
    alloc: Global,
    files: Files<'_>,
    style: InputsStyle,
    out: &mut Output<'_, S>,
) -> Result<(), ToolFault>
    ensures same { IsSame out.old out.new }
    ensures text { PutsText S.state out.old out.new
        (flat_map (terminated style)
        (sorted (map (printed style) (map (λ file. file.path) files.entry)))) result }
{
    if style.shell_escape {
        let quotes = sorted_quotes(alloc, files)?;
        write_quotes(&quotes.quoted, style, out)?;
        out.texts(&quotes.plain, terminator(style))
    } else {
        let paths = sorted_paths(alloc, files)?;
        out.texts(&paths, terminator(style))
    }
}

// Writes quotes, each with its terminator.
fn write_quotes<S: Sink>(
    quotes: &[Vec<u8>],
    style: InputsStyle,
    out: &mut Output<'_, S>,
) -> Result<(), ToolFault>
    ensures same { IsSame out.old out.new }
    ensures text { PutsText S.state out.old out.new
        (flat_map (terminated style) (map (λ quote. quote.items) quotes.now)) result }
{
    'quotes: for quote in quotes {
        out.ended(quote, terminator(style))?;
    }
    Ok(())
}

// The byte that ends each text.
fn terminator(style: InputsStyle) -> u8
    ensures { result ≡ (if style.zero then 0 else 10) }
{
    if style.zero { 0 } else { b'\n' }
}
