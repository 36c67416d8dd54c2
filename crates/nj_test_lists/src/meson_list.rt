//! Lists of tests that Meson writes.

ghost use Rattle.std.specs.Prelude.{◌≡◌, ◌++◌, Some, None, codes, map, string_bytes, option_map, IfOk, IfErr};
ghost use Rattle.nj_test_lists.specs.Cited.{view, test_model, IsMesonText, IsMesonFault, IsTargetsText, IsTargetsFault, AreMesonTests, AreMesonTestsFault, IsMesonTest, IsMesonTestFault, Refuses, IsJson, joined, files_of, nonempty, environment, assignments, extra_paths, built_before, folder_of_test, string_at, strings_at, members_view, WrongMesonTest};

use crate::list_fault::{ListFault, MesonKey};
use crate::targets::Targets;
use crate::values::{given, items, items_at, parse, read_strings, read_strings_at, string_at};
use nj_tests::Test;
use serde_json::{Map, Value};
use std::alloc::{AllocError, Global};

/// Reads the tests that Meson lists in `intro-tests.json`, in the order of the list, together with
/// its targets in `intro-targets.json`. Both files are in `meson-info` of the build directory,
/// whose absolute path is `build`.
///
/// Of each test it reads `name`, `cmd`, `env` as `NAME=value`, `extra_paths`, `workdir`, and the
/// files of the targets in `depends`, which are relative to the build directory. Everything else is
/// ignored.
///
/// # Errors
///
/// [`ListFault::NotJson`] and [`ListFault::NoTests`] for the list of tests,
/// [`ListFault::TargetsNotJson`], [`ListFault::NoTargets`] and [`ListFault::WrongTarget`] for the
/// list of targets; [`ListFault::WrongMesonTest`] for the first test with a value that is read and
/// is not of the type that Meson writes, or that depends on a target that is not listed; and
/// [`ListFault::OutOfMemory`].
pub fn meson_tests(
    alloc: Global,
    build: &str,
    tests: &[u8],
    targets: &[u8],
) -> Result<Vec<Test>, ListFault>
    ensures list { IfOk result (λ list.
        IsMesonText build.now tests.now targets.now (map test_model list.items)) }
    ensures fault { IfErr result (λ fault.
        IsMesonFault build.now tests.now targets.now fault) }
{
    let list = parse(alloc, tests)?;
    let targets = read_targets(alloc, build, targets)?;
    match items(&list) {
        Some(values) => read_tests(alloc, &targets, values),
        None => Err(ListFault::NoTests),
    }
}

// Reads the targets of a text.
fn read_targets(alloc: Global, build: &str, text: &[u8]) -> Result<Targets, ListFault>
    ensures targets { IfOk result (λ targets. IsTargetsText build.now text.now targets) }
    ensures fault { IfErr result (λ fault. IsTargetsFault text.now fault) }
{
    let list = parse_targets(alloc, text)?;
    match items(&list) {
        Some(values) => Targets::read(alloc, build, values),
        None => Err(ListFault::NoTargets),
    }
}

// Parses the text of a list of targets.
fn parse_targets(alloc: Global, text: &[u8]) -> Result<Value, ListFault>
    ensures value { IfOk result (λ value. IsJson text.now (view value)) }
    ensures fault { IfErr result (λ fault. IsTargetsFault text.now fault) }
{
    match parse(alloc, text) {
        Err(ListFault::NotJson { line, column }) => Err(ListFault::TargetsNotJson { line, column }),
        other => other,
    }
}

// Reads the tests of the given values.
fn read_tests(alloc: Global, targets: &Targets, values: &[Value]) -> Result<Vec<Test>, ListFault>
    ensures tests { IfOk result (λ tests.
        AreMesonTests targets.now (map view values.now) (map test_model tests.items)) }
    ensures fault { IfErr result (λ fault.
        AreMesonTestsFault targets.now (map view values.now) fault) }
{
    let mut tests = Vec::new(alloc);
    'tests: for (number, value) in values.iter().enumerate() {
        tests.push(read_test(alloc, targets, number, value)?)?;
    }
    Ok(tests)
}

// Reads the test with the given number.
fn read_test(
    alloc: Global,
    targets: &Targets,
    number: usize,
    value: &Value,
) -> Result<Test, ListFault>
    ensures test { IfOk result (λ test. IsMesonTest targets.now (view value.now) (test_model test)) }
    ensures fault { IfErr result (λ fault.
        IsMesonTestFault targets.now number (view value.now) fault) }
{
    let name = read_name(alloc, value, wrong_at(number, MesonKey::Name))?;
    let command = read_command(alloc, value, wrong_at(number, MesonKey::Command))?;
    let mut texts = read_environment(alloc, value, wrong_at(number, MesonKey::Environment))?;
    let mut extra = read_extra_paths(alloc, value, wrong_at(number, MesonKey::ExtraPaths))?;
    let mut built = read_built(alloc, targets, value, wrong_at(number, MesonKey::Depends))?;
    let folder = read_folder(alloc, value, wrong_at(number, MesonKey::Folder))?;
    texts.append(&mut extra)?;
    texts.append(&mut built)?;
    Ok(Test {
        name,
        command,
        texts,
        folder,
        required_fixtures: Vec::new(alloc),
        set_up_fixtures: Vec::new(alloc),
        cleaned_fixtures: Vec::new(alloc),
        predecessors: Vec::new(alloc),
    })
}

// Returns the fault of a test that is wrong at the given key.
fn wrong_at(number: usize, key: MesonKey) -> ListFault
    ensures { result ≡ WrongMesonTest number key }
{
    ListFault::WrongMesonTest { number, key }
}

// Reads the name of a test. Without a name, the fault is `wrong`, as below.
fn read_name(alloc: Global, value: &Value, wrong: ListFault) -> Result<String, ListFault>
    ensures name { IfOk result (λ s.
        string_at (codes "name") (view value.now) ≡ Some (string_bytes s)) }
    ensures fault { IfErr result (λ fault.
        Refuses wrong (string_at (codes "name") (view value.now) ≡ None) fault) }
{
    match string_at(value, "name") {
        Some(name) => Ok(String::from_str(alloc, name)?),
        None => Err(wrong),
    }
}

// Reads the command of a test, if it has a program.
fn read_command(
    alloc: Global,
    value: &Value,
    wrong: ListFault,
) -> Result<Option<Vec<String>>, ListFault>
    ensures command { IfOk result (λ o.
        option_map nonempty (strings_at (codes "cmd") (view value.now))
        ≡ Some (option_map (λ words. map string_bytes words.items) o)) }
    ensures fault { IfErr result (λ fault.
        Refuses wrong (strings_at (codes "cmd") (view value.now) ≡ None) fault) }
{
    let words = read_strings_at(alloc, value, "cmd", wrong)?;
    Ok(nonempty(words))
}

// Returns the words, or `None` without words.
fn nonempty(words: Vec<String>) -> Option<Vec<String>>
    ensures { option_map (λ words. map string_bytes words.items) result
        ≡ nonempty (map string_bytes words.items) }
{
    if words.as_slice().is_empty() {
        None
    } else {
        Some(words)
    }
}

// Reads the variables of a test.
fn read_environment(
    alloc: Global,
    value: &Value,
    wrong: ListFault,
) -> Result<Vec<String>, ListFault>
    ensures variables { IfOk result (λ v.
        environment (view value.now) ≡ Some (map string_bytes v.items)) }
    ensures fault { IfErr result (λ fault.
        Refuses wrong (environment (view value.now) ≡ None) fault) }
{
    match value.get("env").and_then(Value::as_object) {
        Some(variables) => read_variables(alloc, variables, wrong),
        None => Err(wrong),
    }
}

// Returns variables as `NAME=value`.
fn read_variables(
    alloc: Global,
    variables: &Map<String, Value>,
    wrong: ListFault,
) -> Result<Vec<String>, ListFault>
    ensures variables { IfOk result (λ v. assignments (members_view variables.now.entries)
        ≡ Some (map string_bytes v.items)) }
    ensures fault { IfErr result (λ fault.
        Refuses wrong (assignments (members_view variables.now.entries) ≡ None) fault) }
{
    let mut assignments = Vec::new(alloc);
    'variables: for (name, value) in variables.iter() {
        match value.as_str() {
            Some(text) => assignments.push(assignment(alloc, name.as_str(), text)?)?,
            None => return Err(wrong),
        }
    }
    Ok(assignments)
}

// `NAME=value`.
fn assignment(alloc: Global, name: &str, value: &str) -> Result<String, AllocError>
    ensures { IfOk result (λ s. string_bytes s ≡ name.now ++ codes "=" ++ value.now) }
{
    format!(in alloc; "{name}={value}")
}

// Reads the directories with libraries of a test.
fn read_extra_paths(
    alloc: Global,
    value: &Value,
    wrong: ListFault,
) -> Result<Vec<String>, ListFault>
    ensures paths { IfOk result (λ v.
        extra_paths (view value.now) ≡ Some (map string_bytes v.items)) }
    ensures fault { IfErr result (λ fault.
        Refuses wrong (extra_paths (view value.now) ≡ None) fault) }
{
    match given(value, "extra_paths") {
        Some(paths) => read_strings(alloc, paths, wrong),
        None => Ok(Vec::new(alloc)),
    }
}

// Reads the files of the targets that have to be built before a test.
fn read_built(
    alloc: Global,
    targets: &Targets,
    value: &Value,
    wrong: ListFault,
) -> Result<Vec<String>, ListFault>
    ensures files { IfOk result (λ v.
        built_before targets.now (view value.now) ≡ Some (map string_bytes v.items)) }
    ensures fault { IfErr result (λ fault.
        Refuses wrong (built_before targets.now (view value.now) ≡ None) fault) }
{
    match items_at(value, "depends") {
        Some(ids) => copy_files(alloc, targets, ids, wrong),
        None => Err(wrong),
    }
}

// Copies the files of the targets with the given ids.
fn copy_files(
    alloc: Global,
    targets: &Targets,
    ids: &[Value],
    wrong: ListFault,
) -> Result<Vec<String>, ListFault>
    ensures files { IfOk result (λ v. joined (files_of targets.now) (map view ids.now)
        ≡ Some (map string_bytes v.items)) }
    ensures fault { IfErr result (λ fault.
        Refuses wrong (joined (files_of targets.now) (map view ids.now) ≡ None) fault) }
{
    let mut built = Vec::new(alloc);
    'ids: for id in ids {
        match targets.files_of(id) {
            Some(files) => {
                let mut more = copied(alloc, files)?;
                built.append(&mut more)?;
            }
            None => return Err(wrong),
        }
    }
    Ok(built)
}

// Copies strings.
fn copied(alloc: Global, strings: &[String]) -> Result<Vec<String>, AllocError>
    ensures { IfOk result (λ v. map string_bytes v.items ≡ map string_bytes strings.now) }
{
    let mut again = Vec::new(alloc);
    'strings: for string in strings {
        again.push(String::from_str(alloc, string.as_str())?)?;
    }
    Ok(again)
}

// Reads the working directory of a test, if any.
fn read_folder(alloc: Global, value: &Value, wrong: ListFault) -> Result<Option<String>, ListFault>
    ensures folder { IfOk result (λ o.
        folder_of_test (view value.now) ≡ Some (option_map string_bytes o)) }
    ensures fault { IfErr result (λ fault.
        Refuses wrong (folder_of_test (view value.now) ≡ None) fault) }
{
    match given(value, "workdir") {
        Some(folder) => match folder.as_str() {
            Some(path) => Ok(Some(String::from_str(alloc, path)?)),
            None => Err(wrong),
        },
        None => Ok(None),
    }
}
