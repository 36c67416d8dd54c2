//! The files that commands may name.

ghost use Rattle.std.specs.Prelude.{◌≡◌, [], OnOk, map, option_copied};
ghost use Rattle.nj_audit.specs.Cited.{after_token, after_word, command_names, cons_option, file_of, is_meant, names_in_parts, names_in_text, names_in_word, names_of_next, names_of_token, names_of_word, names_within, script_names, seen_from, token_model, AddsFiles};

use crate::named_paths::{PathBuffers, path_seen};
use crate::read_words::NextWord;
use crate::shell_words::{Token, take_token};
use crate::word_names::{after_sign, attached_to, has_sign, is_bare, split_part};
use nj_graph::{File, Graph};
use std::alloc::AllocError;

/// Appends the files of a graph that the words of a command may name, where the command reads them.
pub fn add_named_files<'g>(
    files: &mut Vec<File<'g>>,
    graph: &'g Graph,
    folder: &[u8],
    command: &[u8],
) -> Result<(), AllocError>
    ensures { OnOk result (AddsFiles graph.entry.now folder.now (command_names command.now)
        (map file_of files.old.items) (map file_of files.new.items)) }
{
    let mut word = Vec::new(*files.allocator());
    let mut buffers = PathBuffers::new(*files.allocator());
    let mut next = NextWord::first(Vec::new(*files.allocator()));
    let mut rest = command;
    'tokens: while let Some(taken) = take_token(&mut word, rest)? {
        add_token(
            files,
            &mut buffers,
            graph,
            folder,
            &mut next,
            taken.0,
            &word,
        )?;
        rest = taken.1;
    }
    Ok(())
}

/// Appends the files that the next token of a command may name. If the token is a word, `word` has
/// its text.
fn add_token<'g>(
    files: &mut Vec<File<'g>>,
    buffers: &mut PathBuffers,
    graph: &'g Graph,
    folder: &[u8],
    next: &mut NextWord,
    token: Token,
    word: &[u8],
) -> Result<(), AllocError>
    ensures files { OnOk result (AddsFiles graph.entry.now folder.now
        (names_within next.old (token_model word.now token))
        (map file_of files.old.items) (map file_of files.new.items)) }
    ensures next { OnOk result (next.new ≡ after_token next.old (token_model word.now token)) }
{
    match token {
        Token::Word => {
            add_word(files, buffers, graph, folder, next, word)?;
            Ok(())
        }
        Token::Operator(byte) => {
            next.pass_operator(byte);
            Ok(())
        }
    }
}

/// Appends the files that the given next word of a command may name, which may be a command that a
/// shell is given.
fn add_word<'g>(
    files: &mut Vec<File<'g>>,
    buffers: &mut PathBuffers,
    graph: &'g Graph,
    folder: &[u8],
    next: &mut NextWord,
    word: &[u8],
) -> Result<(), AllocError>
    ensures files { OnOk result (AddsFiles graph.entry.now folder.now
        (names_of_word next.old word.now)
        (map file_of files.old.items) (map file_of files.new.items)) }
    ensures next { OnOk result (next.new ≡ after_word next.old word.now) }
{
    if !next.is_script() {
        add_next(files, buffers, graph, folder, next, word)?;
        return Ok(());
    }
    add_script_files(files, buffers, graph, folder, next.folder(), word)?;
    next.pass_word(word)?;
    Ok(())
}

/// Appends the files that the words of a command that a shell is given may name.
fn add_script_files<'g>(
    files: &mut Vec<File<'g>>,
    buffers: &mut PathBuffers,
    graph: &'g Graph,
    folder: &[u8],
    within: &[u8],
    script: &[u8],
) -> Result<(), AllocError>
    ensures { OnOk result (AddsFiles graph.entry.now folder.now (script_names within.now script.now)
        (map file_of files.old.items) (map file_of files.new.items)) }
{
    let mut start = Vec::new(*files.allocator());
    start.extend_from_slice(within)?;
    let mut next = NextWord::first(start);
    let mut word = Vec::new(*files.allocator());
    let mut rest = script;
    'tokens: while let Some(taken) = take_token(&mut word, rest)? {
        add_script_token(files, buffers, graph, folder, &mut next, taken.0, &word)?;
        rest = taken.1;
    }
    Ok(())
}

/// Appends the files that the next token of a command that a shell is given may name. If the token
/// is a word, `word` has its text.
fn add_script_token<'g>(
    files: &mut Vec<File<'g>>,
    buffers: &mut PathBuffers,
    graph: &'g Graph,
    folder: &[u8],
    next: &mut NextWord,
    token: Token,
    word: &[u8],
) -> Result<(), AllocError>
    ensures files { OnOk result (AddsFiles graph.entry.now folder.now
        (names_of_token next.old (token_model word.now token))
        (map file_of files.old.items) (map file_of files.new.items)) }
    ensures next { OnOk result (next.new ≡ after_token next.old (token_model word.now token)) }
{
    match token {
        Token::Word => {
            add_next(files, buffers, graph, folder, next, word)?;
            Ok(())
        }
        Token::Operator(byte) => {
            next.pass_operator(byte);
            Ok(())
        }
    }
}

/// Appends the files that the given next word of a command may name, if the command reads it.
fn add_next<'g>(
    files: &mut Vec<File<'g>>,
    buffers: &mut PathBuffers,
    graph: &'g Graph,
    folder: &[u8],
    next: &mut NextWord,
    word: &[u8],
) -> Result<(), AllocError>
    ensures files { OnOk result (AddsFiles graph.entry.now folder.now
        (names_of_next next.old word.now)
        (map file_of files.old.items) (map file_of files.new.items)) }
    ensures next { OnOk result (next.new ≡ after_word next.old word.now) }
{
    if !next.is_read(word) {
        next.pass_word(word)?;
        return Ok(());
    }
    add_files_in_word(files, buffers, graph, folder, next.folder(), word)?;
    next.pass_word(word)?;
    Ok(())
}

/// Appends the files that a word may name, as seen from a directory that `cd` entered.
fn add_files_in_word<'g>(
    files: &mut Vec<File<'g>>,
    buffers: &mut PathBuffers,
    graph: &'g Graph,
    folder: &[u8],
    within: &[u8],
    word: &[u8],
) -> Result<(), AllocError>
    ensures { OnOk result (AddsFiles graph.entry.now folder.now (names_in_word within.now word.now)
        (map file_of files.old.items) (map file_of files.new.items)) }
{
    add_files_in_text(files, buffers, graph, folder, within, word)?;
    if !has_sign(word) {
        return Ok(());
    }
    add_file(files, buffers, graph, folder, within, after_sign(word))?;
    add_files_in_parts(files, buffers, graph, folder, within, word)?;
    Ok(())
}

/// Appends the files that a text and the value that is attached in it may name.
fn add_files_in_text<'g>(
    files: &mut Vec<File<'g>>,
    buffers: &mut PathBuffers,
    graph: &'g Graph,
    folder: &[u8],
    within: &[u8],
    text: &[u8],
) -> Result<(), AllocError>
    ensures { OnOk result (AddsFiles graph.entry.now folder.now
        (map (seen_from within.now) (names_in_text text.now))
        (map file_of files.old.items) (map file_of files.new.items)) }
{
    add_file(files, buffers, graph, folder, within, Some(text))?;
    add_file(files, buffers, graph, folder, within, attached_to(text))?;
    Ok(())
}

/// Appends the files that the parts of a word may name.
fn add_files_in_parts<'g>(
    files: &mut Vec<File<'g>>,
    buffers: &mut PathBuffers,
    graph: &'g Graph,
    folder: &[u8],
    within: &[u8],
    word: &[u8],
) -> Result<(), AllocError>
    ensures { OnOk result (AddsFiles graph.entry.now folder.now
        (map (seen_from within.now) (names_in_parts word.now))
        (map file_of files.old.items) (map file_of files.new.items)) }
{
    let mut rest = Some(word);
    'parts: while let Some(text) = rest {
        let (part, after) = split_part(text);
        add_files_in_text(files, buffers, graph, folder, within, part)?;
        rest = after;
    }
    Ok(())
}

/// Appends the file that a name means, if both exist.
fn add_file<'g>(
    files: &mut Vec<File<'g>>,
    buffers: &mut PathBuffers,
    graph: &'g Graph,
    folder: &[u8],
    within: &[u8],
    name: Option<&[u8]>,
) -> Result<(), AllocError>
    ensures { OnOk result (AddsFiles graph.entry.now folder.now
        (map (seen_from within.now) (cons_option (option_copied name.entry) []))
        (map file_of files.old.items) (map file_of files.new.items)) }
{
    let Some(name) = name else {
        return Ok(());
    };
    let Some(path) = path_seen(buffers, folder, within, name)? else {
        return Ok(());
    };
    let Some(number) = graph.file_named(path) else {
        return Ok(());
    };
    let file = graph.file_at(number);
    if is_meant(name, file) {
        files.push(file)?;
    }
    Ok(())
}

/// Whether a name means the file at its path.
fn is_meant(name: &[u8], file: File<'_>) -> bool
    ensures { result ≡ is_meant (file_of file.entry).graph name.now (file_of file.entry).path }
{
    !is_bare(name) || !file.users().is_empty()
}
