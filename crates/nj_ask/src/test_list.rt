//! The list of tests that a question is about.

ghost use Rattle.std.specs.Prelude.{◌≡◌, ◌≢◌, ◌++◌, Some, codes, IfErr, IfOk, map, string_bytes};
ghost use Rattle.nj_test_lists.specs.Faults.{fault_text};
ghost use Rattle.nj_test_lists.specs.declared.list_fault.ListFault.TheVariants.{OutOfMemory};
ghost use Rattle.nj_ask.specs.Cited.{Fault, FailsBy, LacksList, LacksLists, LacksMeson, LacksNamed, LacksTests, LacksText, ReadsBytes, ReadsList, ReadsLists, ReadsMeson, ReadsNamed, ReadsTests, faulty_path, info_path, is_of_targets, list_line, list_path, program_line, subject_model, test_model, tests_model};

use crate::deps_log::{bytes_at, of_path};
use crate::failure::Failure;
use nj_changes::full_path;
use nj_graph::FileSource;
use nj_questions::{Subject, TestsOptions};
use nj_test_lists::{ListFault, ctest_tests, meson_tests};
use nj_tests::Test;
use std::alloc::{AllocError, Global};

const TESTS: &str = "intro-tests.json";

const TARGETS: &str = "intro-targets.json";

/// Reads the tests that a question is about, in this working directory: those in its list, if it has
/// one.
pub(crate) fn read_tests<S: FileSource>(
    alloc: Global,
    files: &mut S,
    folder: &[u8],
    subject: &Subject,
) -> Result<Vec<Test>, Failure>
    ensures read { IfOk result (λ tests. ReadsTests (subject_model subject.now) folder.now
        (S.state files.old) (S.state files.new) (map test_model tests.items)) }
    ensures lacks { IfErr result (FailsBy Fault (LacksTests (subject_model subject.now)
        folder.now (S.state files.old) (S.state files.new))) }
{
    match subject {
        Subject::Tests(options) => read_named(alloc, files, folder, options),
        _ => Ok(Vec::new(alloc)),
    }
}

/// Reads the list of tests that options name.
fn read_named<S: FileSource>(
    alloc: Global,
    files: &mut S,
    folder: &[u8],
    options: &TestsOptions,
) -> Result<Vec<Test>, Failure>
    ensures read { IfOk result (λ tests. ReadsNamed folder.now (tests_model options.now).ctest
        (tests_model options.now).meson (S.state files.old) (S.state files.new)
        (map test_model tests.items)) }
    ensures lacks { IfErr result (FailsBy Fault (LacksNamed folder.now
        (tests_model options.now).ctest (tests_model options.now).meson (S.state files.old)
        (S.state files.new))) }
{
    match &options.ctest {
        Some(path) => read_list(alloc, files, path),
        None => match &options.meson {
            Some(dir) => read_meson(alloc, files, folder, dir),
            None => Ok(Vec::new(alloc)),
        },
    }
}

/// The path of the list of tests that options name.
pub(crate) fn list_path(alloc: Global, options: &TestsOptions) -> Result<String, AllocError>
    ensures { IfOk result (λ path. string_bytes path ≡ list_path (tests_model options.now)) }
{
    match &options.ctest {
        Some(path) => String::from_str(alloc, path),
        None => match &options.meson {
            Some(dir) => info_path(alloc, dir, TESTS),
            None => Ok(String::new(alloc)),
        },
    }
}

// ---- CTest

/// Reads the list of tests in the file at a path.
fn read_list<S: FileSource>(alloc: Global, files: &mut S, path: &str) -> Result<Vec<Test>, Failure>
    ensures read { IfOk result (λ tests. ReadsList path.now (S.state files.old)
        (S.state files.new) (map test_model tests.items)) }
    ensures lacks { IfErr result (FailsBy Fault
        (LacksList path.now (S.state files.old) (S.state files.new))) }
{
    let text = match text_at(alloc, files, path) {
        Ok(text) => text,
        Err(failure) => return Err(failure),
    };
    match ctest_tests(alloc, &text) {
        Ok(tests) => Ok(tests),
        Err(fault) => Err(of_list(alloc, path, fault)),
    }
}

// ---- Meson

/// Reads the lists of tests and of targets in a build directory of Meson.
fn read_meson<S: FileSource>(
    alloc: Global,
    files: &mut S,
    folder: &[u8],
    dir: &str,
) -> Result<Vec<Test>, Failure>
    ensures read { IfOk result (λ tests. ReadsMeson folder.now dir.now (S.state files.old)
        (S.state files.new) (map test_model tests.items)) }
    ensures lacks { IfErr result (FailsBy Fault
        (LacksMeson folder.now dir.now (S.state files.old) (S.state files.new))) }
{
    let full = full_path(alloc, folder, dir.as_bytes())?;
    let tests = info_path(alloc, dir, TESTS)?;
    let targets = info_path(alloc, dir, TARGETS)?;
    match String::from_utf8(full) {
        Ok(build) => read_lists(alloc, files, &build, &tests, &targets),
        Err(_) => Err(of_path(alloc, dir, b": its full path is not UTF-8")),
    }
}

/// The path of a file with what Meson says of a build directory.
fn info_path(alloc: Global, dir: &str, name: &str) -> Result<String, AllocError>
    ensures { IfOk result (λ path. string_bytes path ≡ info_path dir.now name.now) }
{
    let path = format!(in alloc; "{dir}/meson-info/{name}")?;
    Ok(path)
}

/// Reads the lists of tests and of targets at two paths, which Meson wrote for a build directory.
fn read_lists<S: FileSource>(
    alloc: Global,
    files: &mut S,
    build: &str,
    tests: &str,
    targets: &str,
) -> Result<Vec<Test>, Failure>
    ensures read { IfOk result (λ list. ReadsLists build.now tests.now targets.now
        (S.state files.old) (S.state files.new) (map test_model list.items)) }
    ensures lacks { IfErr result (FailsBy Fault (LacksLists build.now tests.now targets.now
        (S.state files.old) (S.state files.new))) }
{
    let text = match text_at(alloc, files, tests) {
        Ok(text) => text,
        Err(failure) => return Err(failure),
    };
    let more = match text_at(alloc, files, targets) {
        Ok(more) => more,
        Err(failure) => return Err(failure),
    };
    match meson_tests(alloc, build, &text, &more) {
        Ok(list) => Ok(list),
        Err(fault) => Err(of_lists(alloc, tests, targets, fault)),
    }
}

/// Why there is no list at one of two paths.
fn of_lists(alloc: Global, tests: &str, targets: &str, fault: ListFault) -> Failure
    ensures { FailsBy Fault (λ line. (line
        ≡ list_line (faulty_path tests.now targets.now fault) fault) × (fault ≢ OutOfMemory))
        result }
{
    if is_of_targets(&fault) {
        return of_list(alloc, targets, fault);
    }
    of_list(alloc, tests, fault)
}

/// Whether a fault is one of the list of targets.
fn is_of_targets(fault: &ListFault) -> bool
    ensures { result ≡ is_of_targets fault.now }
{
    matches!(
        fault,
        ListFault::TargetsNotJson { .. } | ListFault::NoTargets | ListFault::WrongTarget { .. }
    )
}

// ---- files

/// The text of the file at a path.
pub(crate) fn text_at<S: FileSource>(
    alloc: Global,
    files: &mut S,
    path: &str,
) -> Result<Vec<u8>, Failure>
    ensures read { IfOk result (λ text.
        ReadsBytes (S.state files.old) (S.state files.new) path.now (Some text.items)) }
    ensures lacks { IfErr result (FailsBy Fault
        (LacksText path.now (S.state files.old) (S.state files.new))) }
{
    match bytes_at(alloc, files, path) {
        Ok(Some(text)) => Ok(text),
        Ok(None) => Err(of_path(alloc, path, b": there is no such file")),
        Err(failure) => Err(failure),
    }
}

/// Why the file at a path is no list.
fn of_list(alloc: Global, path: &str, fault: ListFault) -> Failure
    ensures { FailsBy Fault (λ line. (line ≡ list_line path.now fault) × (fault ≢ OutOfMemory))
        result }
{
    match list_text(alloc, fault) {
        Ok(text) => of_path(alloc, path, text.as_bytes()),
        Err(_) => Failure::OutOfMemory,
    }
}

/// What is said of a path where there is no list for this reason. That memory ran out is none.
fn list_text(alloc: Global, fault: ListFault) -> Result<String, AllocError>
    ensures text { IfOk result (λ text.
        string_bytes text ≡ codes ": " ++ fault_text fault) }
    ensures reason { IfOk result (λ _. fault ≢ OutOfMemory) }
{
    if matches!(fault, ListFault::OutOfMemory) {
        return Err(AllocError);
    }
    format!(in alloc; ": {fault}")
}
