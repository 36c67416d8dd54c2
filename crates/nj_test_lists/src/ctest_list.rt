//! Lists of tests that CTest writes.

ghost use Rattle.std.specs.Prelude.{◌≡◌, ◌↔◌, Some, None, codes, map, string_bytes, option_map, IsTrue, IfOk, IfErr};
ghost use Rattle.nj_test_lists.specs.Cited.{view, test_model, IsCTestText, IsCTestFault, IsCTestList, IsCTestListFault, AreCTests, AreTestsFault, IsCTest, IsTestFault, string_at, major_version, command_of, is_available, known, properties_of, property_model};

use crate::list_fault::{CTestKey, ListFault};
use crate::list_property::ListProperty;
use crate::properties::{Property, collect_properties, read_all, read_folder, read_property};
use crate::values::{given, items, items_at, parse, read_strings, string_at};
use nj_tests::Test;
use serde_json::Value;
use std::alloc::Global;

// The properties that may name files.
const FILE_PROPERTIES: [ListProperty; 5] = [
    ListProperty::Environment,
    ListProperty::EnvironmentModification,
    ListProperty::RequiredFiles,
    ListProperty::AttachedFiles,
    ListProperty::AttachedFilesOnFail,
];

/// Reads the tests that `ctest --show-only=json-v1` lists, in the order of the list.
///
/// Of each test it reads `name`, `command` and some of its `properties`: those that may name files,
/// the working directory, the fixtures and `DEPENDS`. Everything else is ignored. A command that is
/// left out is not known: its program is not built.
///
/// A test that exists only in other configurations is not in the list. Without `-C`, the list of a
/// build directory with several configurations is empty.
///
/// # Errors
///
/// [`ListFault::NotJson`], [`ListFault::WrongKind`], [`ListFault::WrongVersion`] and
/// [`ListFault::NoTests`]; [`ListFault::WrongCTest`] for the first test with a value that is read
/// and is not of the type that CTest writes; and [`ListFault::OutOfMemory`].
pub fn ctest_tests(alloc: Global, text: &[u8]) -> Result<Vec<Test>, ListFault>
    ensures tests { IfOk result (λ tests. IsCTestText text.now (map test_model tests.items)) }
    ensures fault { IfErr result (λ fault. IsCTestFault text.now fault) }
{
    let list = parse(alloc, text)?;
    read_list(alloc, &list)
}

// Reads the tests of a list.
fn read_list(alloc: Global, list: &Value) -> Result<Vec<Test>, ListFault>
    ensures tests { IfOk result (λ tests.
        IsCTestList (view list.now) (map test_model tests.items)) }
    ensures fault { IfErr result (λ fault. IsCTestListFault (view list.now) fault) }
{
    if !is_of_ctest(list) {
        return Err(ListFault::WrongKind);
    }
    if !is_version_one(list) {
        return Err(ListFault::WrongVersion);
    }
    match items_at(list, "tests") {
        Some(values) => read_tests(alloc, values),
        None => Err(ListFault::NoTests),
    }
}

// Whether CTest wrote the list.
fn is_of_ctest(list: &Value) -> bool
    ensures { IsTrue result
        ↔ (string_at (codes "kind") (view list.now) ≡ Some (codes "ctestInfo")) }
{
    match string_at(list, "kind") {
        Some(kind) => kind == "ctestInfo",
        None => false,
    }
}

// Whether the major number of the version is 1.
fn is_version_one(list: &Value) -> bool
    ensures { IsTrue result ↔ (major_version (view list.now) ≡ Some 1) }
{
    let version = list.get("version");
    match version
        .and_then(|version| version.get("major"))
        .and_then(Value::as_u64)
    {
        Some(major) => major == 1,
        None => false,
    }
}

// Reads the tests of the given values.
fn read_tests(alloc: Global, values: &[Value]) -> Result<Vec<Test>, ListFault>
    ensures tests { IfOk result (λ tests.
        AreCTests (map view values.now) (map test_model tests.items)) }
    ensures fault { IfErr result (λ fault. AreTestsFault (map view values.now) fault) }
{
    let mut tests = Vec::new(alloc);
    'tests: for (number, value) in values.iter().enumerate() {
        tests.push(read_test(alloc, number, value)?)?;
    }
    Ok(tests)
}

// Reads the test with the given number.
fn read_test(alloc: Global, number: usize, value: &Value) -> Result<Test, ListFault>
    ensures test { IfOk result (λ test. IsCTest (view value.now) (test_model test)) }
    ensures fault { IfErr result (λ fault. IsTestFault number (view value.now) fault) }
{
    let name = read_name(alloc, number, value)?;
    let command = read_command(alloc, number, value)?;
    let properties = read_properties(alloc, number, value)?;
    let properties = properties.as_slice();
    let texts = read_all(alloc, number, properties, &FILE_PROPERTIES)?;
    let folder = read_folder(alloc, number, properties)?;
    let required_fixtures = read_property(
        alloc,
        number,
        properties,
        ListProperty::FixturesRequired,
    )?;
    let set_up_fixtures = read_property(alloc, number, properties, ListProperty::FixturesSetup)?;
    let cleaned_fixtures = read_property(alloc, number, properties, ListProperty::FixturesCleanup)?;
    let predecessors = read_property(alloc, number, properties, ListProperty::Depends)?;
    Ok(Test {
        name,
        command,
        texts,
        folder,
        required_fixtures,
        set_up_fixtures,
        cleaned_fixtures,
        predecessors,
    })
}

// Reads the name of the test with the given number.
fn read_name(alloc: Global, number: usize, value: &Value) -> Result<String, ListFault>
    ensures name { IfOk result (λ s.
        string_at (codes "name") (view value.now) ≡ Some (string_bytes s)) }
    ensures fault { IfErr result (λ fault. IsTestFault number (view value.now) fault) }
{
    match string_at(value, "name") {
        Some(name) => Ok(String::from_str(alloc, name)?),
        None => {
            let key = CTestKey::Name;
            Err(ListFault::WrongCTest { number, key })
        }
    }
}

// Reads the command of the test with the given number, if it is known.
fn read_command(
    alloc: Global,
    number: usize,
    value: &Value,
) -> Result<Option<Vec<String>>, ListFault>
    ensures command { IfOk result (λ o. command_of (view value.now)
        ≡ Some (option_map (λ words. map string_bytes words.items) o)) }
    ensures fault { IfErr result (λ fault. IsTestFault number (view value.now) fault) }
{
    let key = CTestKey::Command;
    match given(value, "command") {
        Some(words) => {
            let wrong = ListFault::WrongCTest { number, key };
            Ok(known(read_strings(alloc, words, wrong)?))
        }
        None => Ok(None),
    }
}

// Returns the words of a command, if it has a program that is available.
fn known(words: Vec<String>) -> Option<Vec<String>>
    ensures { option_map (λ words. map string_bytes words.items) result
        ≡ known (Some (map string_bytes words.items)) }
{
    if is_available(words.as_slice()) {
        Some(words)
    } else {
        None
    }
}

// Whether the words of a command begin with a program that is available.
fn is_available(words: &[String]) -> bool
    ensures { result ≡ is_available (map string_bytes words.now) }
{
    match words {
        [program, ..] => program.as_str() != "NOT_AVAILABLE",
        [] => false,
    }
}

// Reads the properties of the test with the given number.
fn read_properties(
    alloc: Global,
    number: usize,
    value: &Value,
) -> Result<Vec<Property<'_>>, ListFault>
    ensures properties { IfOk result (λ v. properties_of (view value.now)
        ≡ Some (map property_model v.items)) }
    ensures fault { IfErr result (λ fault. IsTestFault number (view value.now) fault) }
{
    let key = CTestKey::Properties;
    let wrong = ListFault::WrongCTest { number, key };
    match given(value, "properties") {
        Some(list) => match items(list) {
            Some(values) => Ok(collect_properties(alloc, values, wrong)?),
            None => Err(wrong),
        },
        None => Ok(Vec::new(alloc)),
    }
}
