//! The files that options name beside the graph.

ghost use Rattle.std.specs.Prelude.{◌≡◌, IfErr, IfOk, map, option_map, string_bytes};
ghost use Rattle.nj_ask.specs.Cited.{Fault, FailsBy, LacksAdditions, LacksContent, LacksNamedFiles, LacksNamedText, LacksText, ReadsAdditionAt, ReadsAdditions, ReadsContents, ReadsNamedFiles, ReadsText, named_files, since_path, subject_model};

use crate::failure::Failure;
use crate::test_list::{read_tests, text_at};
use nj_graph::FileSource;
use nj_keys::content_addition;
use nj_questions::Subject;
use nj_tests::Test;
use std::alloc::Global;

/// What was read from the files that options name beside the graph.
#[derive(Drop)]
pub(crate) struct OptionFiles {
    /// The tests of a list.
    pub(crate) tests: Vec<Test>,
    /// The additions for the contents of files.
    pub(crate) additions: Vec<Vec<u8>>,
    /// The text of the file of `--since`.
    pub(crate) since: Option<Vec<u8>>,
}

/// Reads the files that the options of a subcommand name beside its graph, in this working
/// directory.
pub(crate) fn read_option_files<S: FileSource>(
    alloc: Global,
    files: &mut S,
    folder: &[u8],
    subject: &Subject,
) -> Result<OptionFiles, Failure>
    ensures read { IfOk result (λ named. ReadsNamedFiles (subject_model subject.now) folder.now
        (S.state files.old) (S.state files.new) (named_files named)) }
    ensures lacks { IfErr result (FailsBy Fault (LacksNamedFiles (subject_model subject.now)
        folder.now (S.state files.old) (S.state files.new))) }
{
    let tests = match read_tests(alloc, files, folder, subject) {
        Ok(tests) => tests,
        Err(failure) => return Err(failure),
    };
    let additions = match read_additions(alloc, files, subject) {
        Ok(additions) => additions,
        Err(failure) => return Err(failure),
    };
    match read_since(alloc, files, subject) {
        Ok(since) => Ok(OptionFiles {
            tests,
            additions,
            since,
        }),
        Err(failure) => Err(failure),
    }
}

/// Reads the text with the keys of an older manifest, if the options name its file.
fn read_since<S: FileSource>(
    alloc: Global,
    files: &mut S,
    subject: &Subject,
) -> Result<Option<Vec<u8>>, Failure>
    ensures read { IfOk result (λ text. ReadsText (since_path (subject_model subject.now))
        (S.state files.old) (S.state files.new) (option_map (λ text. text.items) text)) }
    ensures lacks { IfErr result (FailsBy Fault (LacksNamedText
        (since_path (subject_model subject.now)) (S.state files.old) (S.state files.new))) }
{
    match subject {
        Subject::Affected(options) => read_text(alloc, files, options.since.as_ref()),
        Subject::Tests(options) => read_text(alloc, files, options.change.since.as_ref()),
        _ => Ok(None),
    }
}

/// Reads the text of the file at a path, if there is a path.
fn read_text<S: FileSource>(
    alloc: Global,
    files: &mut S,
    path: Option<&String>,
) -> Result<Option<Vec<u8>>, Failure>
    ensures read { IfOk result (λ text.
        ReadsText (option_map (λ path. string_bytes path.now) path.entry)
        (S.state files.old) (S.state files.new) (option_map (λ text. text.items) text)) }
    ensures lacks { IfErr result (FailsBy Fault (LacksNamedText
        (option_map (λ path. string_bytes path.now) path.entry) (S.state files.old)
        (S.state files.new))) }
{
    let Some(path) = path else {
        return Ok(None);
    };
    match text_at(alloc, files, path) {
        Ok(text) => Ok(Some(text)),
        Err(failure) => Err(failure),
    }
}

/// Reads the files whose contents go into keys: the additions for them.
fn read_additions<S: FileSource>(
    alloc: Global,
    files: &mut S,
    subject: &Subject,
) -> Result<Vec<Vec<u8>>, Failure>
    ensures read { IfOk result (λ additions. ReadsAdditions (subject_model subject.now)
        (S.state files.old) (S.state files.new)
        (map (λ addition. addition.items) additions.items)) }
    ensures lacks { IfErr result (FailsBy Fault (LacksAdditions (subject_model subject.now)
        (S.state files.old) (S.state files.new))) }
{
    match subject {
        Subject::Keys(options) => read_contents(alloc, files, &options.files),
        _ => Ok(Vec::new(alloc)),
    }
}

/// Reads the files at the given paths: the additions for their contents, in their order.
fn read_contents<S: FileSource>(
    alloc: Global,
    files: &mut S,
    paths: &[String],
) -> Result<Vec<Vec<u8>>, Failure>
    ensures read { IfOk result (λ additions. ReadsContents (S.state files.old)
        (map string_bytes paths.now) (S.state files.new)
        (map (λ addition. addition.items) additions.items)) }
    ensures lacks { IfErr result (FailsBy Fault (LacksContent (map string_bytes paths.now)
        (S.state files.old) (S.state files.new))) }
{
    let mut additions = Vec::new(alloc);
    'paths: for path in paths {
        match addition_at(alloc, files, path) {
            Ok(addition) => additions.push(addition)?,
            Err(failure) => return Err(failure),
        }
    }
    Ok(additions)
}

/// Reads the file at a path: the addition for its content.
fn addition_at<S: FileSource>(alloc: Global, files: &mut S, path: &str) -> Result<Vec<u8>, Failure>
    ensures read { IfOk result (λ addition. ReadsAdditionAt path.now (S.state files.old)
        (S.state files.new) addition.items) }
    ensures lacks { IfErr result (FailsBy Fault
        (LacksText path.now (S.state files.old) (S.state files.new))) }
{
    let content = match text_at(alloc, files, path) {
        Ok(content) => content,
        Err(failure) => return Err(failure),
    };
    Ok(content_addition(alloc, &content)?)
}
