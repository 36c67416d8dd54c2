//! Objects and arrays in JSON that are written part by part.

ghost use Rattle.std.specs.Prelude.{◌≡◌, ◌<◌, ◌++◌, true, All, OnOk, length, map};
ghost use Rattle.nj_ask.specs.Cited.{AddsItem, AddsMember, AddsValue, BeginsMember, array, boolean, comma_if, number, path_at, path_items, string, text_value, unsigned};

use crate::finding_lines::{push_bytes, push_text};
use nj_graph::{EdgeGraph, FileNo};
use std::alloc::AllocError;

/// Begins a member of an object: a comma where another member is before it, its name and a colon.
pub(crate) fn begin_member(text: &mut Vec<u8>, later: bool, name: &str) -> Result<(), AllocError>
    ensures { OnOk result (BeginsMember later name.now text.old.items text.new.items) }
{
    push_comma(text, later)?;
    push_text(text, name)?;
    text.push(b':')?;
    Ok(())
}

/// Appends a comma, where something is before.
pub(crate) fn push_comma(text: &mut Vec<u8>, later: bool) -> Result<(), AllocError>
    ensures { OnOk result (text.new.items ≡ text.old.items ++ comma_if later) }
{
    if later {
        text.push(b',')?;
    }
    Ok(())
}

/// Adds a text, with U+FFFD for invalid UTF-8, as a member after others.
pub(crate) fn add_text(text: &mut Vec<u8>, name: &str, value: &[u8]) -> Result<(), AllocError>
    ensures { OnOk result (AddsMember true name.now (text_value value.now)
        text.old.items text.new.items) }
{
    begin_member(text, true, name)?;
    push_bytes(text, value)
}

/// Adds a truth value as a member after others.
pub(crate) fn add_bool(text: &mut Vec<u8>, name: &str, value: bool) -> Result<(), AllocError>
    ensures { OnOk result (AddsMember true name.now (boolean value)
        text.old.items text.new.items) }
{
    begin_member(text, true, name)?;
    push_bool(text, value)
}

/// Appends a truth value.
fn push_bool(text: &mut Vec<u8>, value: bool) -> Result<(), AllocError>
    ensures { OnOk result (AddsValue (boolean value) text.old.items text.new.items) }
{
    if value {
        text.extend_from_slice(b"true")
    } else {
        text.extend_from_slice(b"false")
    }
}

/// Adds the paths of files, as an array, as a member after others.
pub(crate) fn add_paths(
    text: &mut Vec<u8>,
    name: &str,
    graph: &EdgeGraph,
    files: &[FileNo],
) -> Result<(), AllocError>
    requires { All (λ file. file.0 < length graph.now.files) files.now }
    ensures { OnOk result (AddsMember true name.now
        (array (path_items (map (path_at graph.now.files) files.now)))
        text.old.items text.new.items) }
{
    begin_member(text, true, name)?;
    push_paths(text, graph, files)
}

/// Appends the paths of files, as an array.
pub(crate) fn push_paths(
    text: &mut Vec<u8>,
    graph: &EdgeGraph,
    files: &[FileNo],
) -> Result<(), AllocError>
    requires { All (λ file. file.0 < length graph.now.files) files.now }
    ensures { OnOk result (AddsValue (array (path_items (map (path_at graph.now.files) files.now)))
        text.old.items text.new.items) }
{
    text.push(b'[')?;
    let mut later = false;
    'files: for file in files {
        push_path(text, later, graph.path(*file))?;
        later = true;
    }
    text.push(b']')?;
    Ok(())
}

/// Appends a path as an item of an array.
fn push_path(text: &mut Vec<u8>, later: bool, path: &[u8]) -> Result<(), AllocError>
    ensures { OnOk result (AddsItem later (text_value path.now) text.old.items text.new.items) }
{
    push_comma(text, later)?;
    push_bytes(text, path)
}

/// Appends a number as an item of an array.
pub(crate) fn push_number(text: &mut Vec<u8>, later: bool, value: usize) -> Result<(), AllocError>
    ensures { OnOk result (AddsItem later (number (unsigned value))
        text.old.items text.new.items) }
{
    push_comma(text, later)?;
    push_digits(text, value)
}

/// Appends a number.
fn push_digits(text: &mut Vec<u8>, value: usize) -> Result<(), AllocError>
    ensures { OnOk result (AddsValue (number (unsigned value)) text.old.items text.new.items) }
{
    let digits = format!(in *text.allocator(); "{value}")?;
    text.extend_from_slice(digits.as_bytes())
}
