//! What is new in a manifest since an older one, of which a file has the keys.

ghost use Rattle.std.specs.Prelude.{◌≡◌, ◌++◌, [], None, IfErr, IfOk, codes, map, string_bytes, unwrap_or};
ghost use Rattle.nj_ask.specs.Cited.{AreEdgesOf, AreNewCommands, Fault, FailsBy, IsNewSince, IsWrongLine, LacksKeys, OfStatements, OtherCommandsAreOld, affected_model, change_misuse, clean_path_of, decimal, named_files, new_model, SameNames, edge_numbers, first_wrong, has_output, is_wrong, key_of, keys_in, lines_in, manifest_edges, new_edges, texts, wrong_line};

use crate::discovered::DiscoveredGraph;
use crate::failure::Failure;
use crate::keys::{bases_of, stated_counts};
use crate::option_files::OptionFiles;
use crate::settled::settles;
use crate::status::Status;
use hex::FromHex;
use nj_graph::{EdgeNo, FileTimes, HashKeys};
use nj_keys::{Bases, EdgeKey, all_keys};
use nj_names::Names;
use nj_questions::AffectedOptions;
use std::alloc::{AllocError, Global};

/// What is new since an older manifest.
#[derive(Drop)]
pub(crate) struct Since {
    /// The commands that it does not have.
    pub commands: Vec<EdgeNo>,
    /// Whether the manifest is up to date with the files that it is made from.
    pub is_settled: bool,
}

/// What is new since the manifest of which the file of `--since` has the keys, if the options name
/// one. Looks up the files that the manifest is made from.
///
/// # Errors
///
/// `Refused` if the file is not one that `keys` wrote, and `OutOfMemory` if an allocation failed.
pub(crate) fn new_since<T: FileTimes>(
    alloc: Global,
    known: &DiscoveredGraph,
    times: &T,
    folder: &[u8],
    options: &AffectedOptions,
    named: &OptionFiles,
) -> Result<Since, Failure>
    requires { change_misuse (affected_model options.now) ≡ None }
    ensures new { OfStatements known.now.graph (λ entries. IfOk result (λ since.
        IsNewSince known.now (manifest_edges known.now) entries (T.times times.now) folder.now
        (affected_model options.now).bases (named_files named.now).since (new_model since))) }
    ensures known { IfOk result (λ since. AreEdgesOf known.now.graph since.commands.items) }
    ensures wrong { IfErr result (FailsBy Fault (LacksKeys (affected_model options.now).since
        (named_files named.now).since)) }
{
    let Some(text) = &named.since else {
        return Ok(Since {
            commands: Vec::new(alloc),
            is_settled: false,
        });
    };
    let commands = match commands_since(alloc, known, options, text) {
        Ok(commands) => commands,
        Err(failure) => return Err(failure),
    };
    let is_settled = settles(alloc, known, times, folder, &commands)?;
    Ok(Since {
        commands,
        is_settled,
    })
}

/// The commands whose keys the text of the file of `--since` does not have.
fn commands_since(
    alloc: Global,
    known: &DiscoveredGraph,
    options: &AffectedOptions,
    text: &[u8],
) -> Result<Vec<EdgeNo>, Failure>
    requires { change_misuse (affected_model options.now) ≡ None }
    ensures right { IfOk result (λ _. first_wrong 1 (lines_in text.now) ≡ None) }
    ensures new { OfStatements known.now.graph (λ entries. IfOk result (λ commands.
        AreNewCommands known.now.graph (manifest_edges known.now) entries
        (map clean_path_of (affected_model options.now).bases) (keys_in (lines_in text.now))
        (edge_numbers commands.items))) }
    ensures known { IfOk result (λ commands. AreEdgesOf known.now.graph commands.items) }
    ensures wrong { IfErr result (FailsBy Fault (IsWrongLine
        (unwrap_or (affected_model options.now).since []) text.now)) }
{
    let old = match read_keys(alloc, known.keys, since_path(options), text) {
        Ok(old) => old,
        Err(failure) => return Err(failure),
    };
    let bases = match bases_of(alloc, &options.bases) {
        Ok(bases) => bases,
        Err(failure) => return Err(failure),
    };
    Ok(new_commands(alloc, known, &bases, &old)?)
}

/// The path of the file of `--since`; empty if none is named.
fn since_path(options: &AffectedOptions) -> &str
    ensures { result.now ≡ unwrap_or (affected_model options.entry.now).since [] }
{
    match &options.since {
        Some(path) => path.as_str(),
        None => "",
    }
}

// ---- the older keys

/// A table of the keys in a file at a path, with the given hash keys. The text of the file is given.
///
/// # Errors
///
/// `Refused` at the first line that is neither empty nor a key and an output, and `OutOfMemory` if an
/// allocation failed.
pub(crate) fn read_keys(
    alloc: Global,
    keys: HashKeys,
    path: &str,
    text: &[u8],
) -> Result<Names, Failure>
    ensures right { IfOk result (λ _. first_wrong 1 (lines_in text.now) ≡ None) }
    ensures names { IfOk result (λ names. SameNames names (keys_in (lines_in text.now))) }
    ensures wrong { IfErr result (FailsBy Fault (IsWrongLine path.now text.now)) }
{
    let lines = lines_in(alloc, text)?;
    match first_wrong(&lines) {
        Some(number) => Err(of_line(alloc, path, number)),
        None => Ok(keys_in(alloc, keys, &lines)?),
    }
}

/// The lines of a text, without their ends.
fn lines_in(alloc: Global, text: &[u8]) -> Result<Vec<&[u8]>, AllocError>
    ensures { IfOk result (λ lines. texts lines.items ≡ lines_in text.entry.now) }
{
    text.split(|byte| *byte == b'\n').collect(alloc)
}

/// The number of the first line that is neither empty nor a key and an output, counted from 1.
fn first_wrong(lines: &[&[u8]]) -> Option<usize>
    ensures { result ≡ first_wrong 1 (texts lines.now) }
{
    'lines: for index in 0..lines.len() {
        if is_wrong(lines[index]) {
            return Some(index + 1);
        }
    }
    None
}

/// Whether a line is neither empty nor a key and an output.
fn is_wrong(line: &[u8]) -> bool
    ensures { result ≡ is_wrong line.now }
{
    !line.is_empty() && key_of(line).is_none()
}

/// The key in a line that begins with one.
fn key_of(line: &[u8]) -> Option<[u8; 32]>
    ensures { result ≡ key_of line.now }
{
    if !has_output(line) {
        return None;
    }
    match <[u8; 32]>::from_hex(&line[..64]) {
        Ok(key) => Some(key),
        Err(_) => None,
    }
}

/// Whether a space and at least one byte come after 64 bytes.
fn has_output(line: &[u8]) -> bool
    ensures { result ≡ has_output line.now }
{
    line.len() > 65 && line[64] == b' '
}

/// The refusal of a file for the line with the given number.
fn of_line(alloc: Global, path: &str, number: usize) -> Failure
    ensures { FailsBy Fault (λ line. line ≡ wrong_line path.now number) result }
{
    match place_text(alloc, path, number) {
        Ok(place) => {
            let text = b": not a key and an output";
            Failure::in_words(alloc, b"", place.as_bytes(), text, Status::Fault)
        }
        Err(_) => Failure::OutOfMemory,
    }
}

/// A path and the number of a line.
fn place_text(alloc: Global, path: &str, number: usize) -> Result<String, AllocError>
    ensures { IfOk result (λ text.
        string_bytes text ≡ path.now ++ codes ":" ++ decimal number) }
{
    format!(in alloc; "{path}:{number}")
}

/// A table of the keys in some lines.
fn keys_in(alloc: Global, keys: HashKeys, lines: &[&[u8]]) -> Result<Names, AllocError>
    ensures { IfOk result (λ names. SameNames names (keys_in (texts lines.now))) }
{
    let mut names = Names::new(alloc, keys);
    'lines: for line in lines {
        match key_of(line) {
            Some(key) => {
                names.add(&key)?;
            }
            None => {}
        }
    }
    Ok(names)
}

// ---- new commands

/// The commands of a graph whose keys, with the given bases, are not in a table of older ones.
pub(crate) fn new_commands(
    alloc: Global,
    known: &DiscoveredGraph,
    bases: &Bases,
    old: &Names,
) -> Result<Vec<EdgeNo>, AllocError>
    ensures new { OfStatements known.now.graph (λ entries. IfOk result (λ commands.
        AreNewCommands known.now.graph (manifest_edges known.now) entries bases.now old.now
        (edge_numbers commands.items))) }
    ensures known { IfOk result (λ commands. AreEdgesOf known.now.graph commands.items) }
{
    let counts = stated_counts(alloc, &known.discoveries)?;
    let keys = all_keys(alloc, &known.graph, bases, &[], &counts)?;
    unknown_among(alloc, &keys, old)
}

/// The edges with those of the given keys that a table does not have.
fn unknown_among(alloc: Global, keys: &[EdgeKey], old: &Names) -> Result<Vec<EdgeNo>, AllocError>
    ensures { IfOk result (λ edges. edges.items ≡ new_edges old.now keys.now) }
{
    let mut edges = Vec::new(alloc);
    'keys: for next in keys {
        if old.number(&next.key).is_none() {
            edges.push(next.edge)?;
        }
    }
    Ok(edges)
}

// ---- its meaning

/// A command that is not new since an older manifest has a key that is in the file of `--since`.
pub fn since_law()
    ensures { OtherCommandsAreOld }
{}
