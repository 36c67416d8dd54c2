//! The answer to `tests`.

ghost use Rattle.std.specs.Prelude.{◌≡◌, ◌++◌, codes, IfOk, OnOk, false, not, map, string_bytes};
ghost use Rattle.nj_ask.specs.Cited.{AnswersTests, AreGlobsAsked, Gives, HasEdges, IsReach, OfStatements, SameNames, WritesTests, change_model, named_files, edge_numbers, is_empty, no_path_remark, no_test_remark, program_line, remarks, roots_of, test_files, test_model, tests_model, texts};

use crate::affected::{NO_PATH, change_of};
use crate::answer::Answer;
use crate::discovered::DiscoveredGraph;
use crate::failure::{Failure, in_words};
use crate::given::given_paths;
use crate::listing::push_line;
use crate::option_files::OptionFiles;
use crate::report::{Change, Reach, reach_of};
use crate::since::new_since;
use crate::status::Status;
use crate::test_list::list_path;
use crate::test_options::style_asked;
use nj_changes::{all_sought, full_path, without_ignored};
use nj_chosen::{choose, named_by_tests};
use nj_globs::Glob;
use nj_graph::FileTimes;
use nj_names::Names;
use nj_questions::TestsOptions;
use nj_reached::changed_paths;
use nj_test_texts::tests_text;
use nj_tests::Test;
use std::alloc::{AllocError, Global};

/// Those of the tests that were read that a change of the files at the paths that a text lists reaches,
/// without the paths that the globs match, in this working directory. Where others may be affected
/// too, the answer has all tests. `named` also has the keys of an older manifest, if these are
/// compared.
///
/// # Errors
///
/// `Refused` if the working directory is not known, or a file that has no keys is named, and `OutOfMemory` if an allocation failed.
pub(crate) fn answer_tests<T: FileTimes>(
    alloc: Global,
    known: &DiscoveredGraph,
    times: &T,
    folder: &[u8],
    options: &TestsOptions,
    globs: &mut [Glob],
    named: &OptionFiles,
    input: &[u8],
) -> Result<Answer, Failure>
    requires edges { HasEdges known.now }
    requires globs { AreGlobsAsked (tests_model options.now).change globs.now }
    ensures { OfStatements known.now.graph (λ entries.
        Gives (AnswersTests known.now entries (T.times times.now) folder.now
        (tests_model options.now) (named_files named.now).tests (named_files named.now).since input.now) result) }
{
    if folder.is_empty() {
        let text = b"the working directory is not known";
        return Err(Failure::in_words(alloc, b"", text, b"", Status::Fault));
    }
    let since = match new_since(alloc, known, times, folder, &options.change, named) {
        Ok(since) => since,
        Err(failure) => return Err(failure),
    };
    let tests = named.tests.as_slice();
    let given = given_paths(alloc, &options.change, input)?;
    let paths = without_ignored(alloc, globs, &given)?;
    let test_files = test_files(alloc, known, folder, options, tests, &paths)?;
    let change = change_of(&options.change, folder, &paths, &test_files, &since);
    let reach = reach_of(alloc, known, change)?;
    let remarks = remarks(alloc, options, &given, tests)?;
    Ok(written_answer(alloc, known, change, reach, remarks, options, tests)?)
}

/// The full paths of changed files that words of tests name. None if the inputs that builds
/// discovered are not known: such a file may be a header that only a compiler knows about.
fn test_files(
    alloc: Global,
    known: &DiscoveredGraph,
    folder: &[u8],
    options: &TestsOptions,
    tests: &[Test],
    paths: &[&[u8]],
) -> Result<Names, AllocError>
    ensures { IfOk result (λ files. SameNames files (test_files known.now.has_discovered
        (tests_model options.now) (map test_model tests.now) folder.now (texts paths.now))) }
{
    let keys = known.keys;
    if !known.has_discovered {
        return Ok(Names::new(alloc, keys));
    }
    let sought = all_sought(alloc, keys, folder, &options.change.source_dirs, paths)?;
    named_by_tests(alloc, keys, folder, &sought, tests)
}

/// The answer about what a change reaches, where this was said of what is given.
fn written_answer(
    alloc: Global,
    known: &DiscoveredGraph,
    change: Change<'_>,
    reach: Reach,
    remarks: Vec<u8>,
    options: &TestsOptions,
    tests: &[Test],
) -> Result<Answer, AllocError>
    requires { IsReach known.now (change_model change) reach }
    ensures warnings { IfOk result (λ answer.
        answer.warnings.items ≡ remarks.items ++ reach.caveats.items) }
    ensures output { OfStatements known.now.graph (λ entries. IfOk result (λ answer.
        WritesTests known.now entries (change_model change.entry)
        (edge_numbers reach.touched.items) (tests_model options.now) (map test_model tests.now)
        (not (is_empty answer.warnings.items)) answer.output.items)) }
    ensures looks { IfOk result (λ answer. answer.looks ≡ false) }
{
    let mut warnings = remarks;
    warnings.extend_from_slice(&reach.caveats)?;
    let all = has_bytes(&warnings);
    let output = chosen_text(alloc, known, change, reach, all, options, tests)?;
    Ok(Answer {
        output,
        warnings,
        looks: false,
    })
}

/// Whether a text is not empty.
fn has_bytes(text: &[u8]) -> bool
    ensures { result ≡ not (is_empty text.now) }
{
    !text.is_empty()
}

/// The text of those tests that a change reaches, or of all.
fn chosen_text(
    alloc: Global,
    known: &DiscoveredGraph,
    change: Change<'_>,
    reach: Reach,
    all: bool,
    options: &TestsOptions,
    tests: &[Test],
) -> Result<Vec<u8>, AllocError>
    requires { IsReach known.now (change_model change) reach }
    ensures { OfStatements known.now.graph (λ entries. IfOk result (λ text.
        WritesTests known.now entries (change_model change.entry)
        (edge_numbers reach.touched.items) (tests_model options.now) (map test_model tests.now)
        all text.items)) }
{
    let folder = change.working;
    let Reach {
        sought,
        files,
        touched,
        ..
    } = reach;
    let keys = known.keys;
    let graph = &known.graph;
    let roots = roots_of(alloc, folder, change.folders)?;
    let paths = changed_paths(alloc, keys, graph, folder, roots, sought, &files, &touched)?;
    let skips = options.unnamed.is_some();
    let chosen = choose(alloc, keys, folder, paths, skips, tests)?;
    tests_text(alloc, style_asked(options), all, tests, &chosen)
}

/// The build directory, and the full paths of the source directories.
fn roots_of(alloc: Global, folder: &[u8], dirs: &[String]) -> Result<Vec<Vec<u8>>, AllocError>
    ensures { IfOk result (λ roots. map (λ root. root.items) roots.items
        ≡ roots_of folder.now (map string_bytes dirs.now)) }
{
    let mut roots = Vec::new(alloc);
    roots.push(Vec::from_slice(alloc, folder)?)?;
    'dirs: for dir in dirs {
        roots.push(full_path(alloc, folder, dir.as_bytes())?)?;
    }
    Ok(roots)
}

// ---- what is said of what is given

/// What is said of the paths and the tests that are given.
fn remarks(
    alloc: Global,
    options: &TestsOptions,
    paths: &[&[u8]],
    tests: &[Test],
) -> Result<Vec<u8>, AllocError>
    ensures { IfOk result (λ text. text.items ≡ remarks (tests_model options.now)
        (texts paths.now) (map test_model tests.now)) }
{
    let mut text = Vec::new(alloc);
    push_no_path(options, paths, &mut text)?;
    push_no_test(alloc, options, tests, &mut text)?;
    Ok(text)
}

/// Appends that no path is given, unless none need be.
fn push_no_path(
    options: &TestsOptions,
    paths: &[&[u8]],
    text: &mut Vec<u8>,
) -> Result<(), AllocError>
    ensures { OnOk result (text.new.items ≡ text.old.items
        ++ no_path_remark (tests_model options.now) (texts paths.now)) }
{
    if paths.is_empty() && !options.change.allow_empty {
        text.extend_from_slice(NO_PATH)?;
    }
    Ok(())
}

/// Appends that the list has no test, if it has none.
fn push_no_test(
    alloc: Global,
    options: &TestsOptions,
    tests: &[Test],
    text: &mut Vec<u8>,
) -> Result<(), AllocError>
    ensures { OnOk result (text.new.items ≡ text.old.items
        ++ no_test_remark (tests_model options.now) (map test_model tests.now)) }
{
    if tests.is_empty() {
        let path = list_path(alloc, options)?;
        return push_no_test_in(alloc, path.as_bytes(), text);
    }
    Ok(())
}

/// Appends that the list at a path has no test.
fn push_no_test_in(alloc: Global, path: &[u8], text: &mut Vec<u8>) -> Result<(), AllocError>
    ensures { OnOk result (text.new.items
        ≡ text.old.items ++ program_line (path.now ++ codes ": there is no test in it")) }
{
    let said = in_words(alloc, b"", path, b": there is no test in it")?;
    push_line(text, &said)
}
