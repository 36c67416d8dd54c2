//! The properties of a test of CTest.

ghost use Rattle.std.specs.Prelude.{◌≡◌, [], ◌∷◌, Some, None, map, string_bytes, option_map, IfOk, IfErr};
ghost use Rattle.nj_test_lists.specs.Cited.{view, property_model, property_of, property_strings, strings_of_all, folder_of, one_folder, IsPropertyFault, Refuses, each};

use crate::list_fault::{CTestKey, ListFault};
use crate::list_property::ListProperty;
use crate::values::{read_strings, string_at};
use serde_json::Value;
use std::alloc::Global;

/// A property of a test.
#[derive(Clone, Copy)]
pub(crate) struct Property<'v> {
    pub(crate) name: &'v str,
    pub(crate) value: &'v Value,
}

/// Returns the property that a value is, if any.
pub(crate) fn property_of(value: &Value) -> Option<Property<'_>>
    ensures { option_map property_model result ≡ property_of (view value.now) }
{
    match (string_at(value, "name"), value.get("value")) {
        (Some(name), Some(value)) => Some(Property { name, value }),
        _ => None,
    }
}

/// Returns the properties that the given values are. If a value is not a property, the fault is
/// `wrong`.
pub(crate) fn collect_properties(
    alloc: Global,
    values: &[Value],
    wrong: ListFault,
) -> Result<Vec<Property<'_>>, ListFault>
    ensures properties { IfOk result (λ v. each property_of (map view values.now)
        ≡ Some (map property_model v.items)) }
    ensures fault { IfErr result (λ fault.
        Refuses wrong (each property_of (map view values.now) ≡ None) fault) }
{
    let mut properties = Vec::new(alloc);
    'values: for value in values {
        match property_of(value) {
            Some(property) => properties.push(property)?,
            None => return Err(wrong),
        }
    }
    Ok(properties)
}

/// Reads the strings of several properties, one after another, of the test with the given number.
pub(crate) fn read_all(
    alloc: Global,
    number: usize,
    properties: &[Property<'_>],
    meant: &[ListProperty],
) -> Result<Vec<String>, ListFault>
    ensures strings { IfOk result (λ v.
        strings_of_all (map property_model properties.now) meant.now
        ≡ Some (map string_bytes v.items)) }
    ensures fault { IfErr result (λ fault.
        IsPropertyFault number (map property_model properties.now) fault) }
{
    let mut strings = Vec::new(alloc);
    'meant: for property in meant {
        let mut more = read_property(alloc, number, properties, *property)?;
        strings.append(&mut more)?;
    }
    Ok(strings)
}

/// Reads the strings of a property of the test with the given number.
pub(crate) fn read_property(
    alloc: Global,
    number: usize,
    properties: &[Property<'_>],
    meant: ListProperty,
) -> Result<Vec<String>, ListFault>
    ensures strings { IfOk result (λ v.
        property_strings (map property_model properties.now) meant
        ≡ Some (map string_bytes v.items)) }
    ensures fault { IfErr result (λ fault.
        IsPropertyFault number (map property_model properties.now) fault) }
{
    let key = CTestKey::Strings(meant);
    let name = meant.name();
    let mut strings = Vec::new(alloc);
    'properties: for property in properties {
        if property.name == name {
            let wrong = ListFault::WrongCTest { number, key };
            let mut more = read_strings(alloc, property.value, wrong)?;
            strings.append(&mut more)?;
        }
    }
    Ok(strings)
}

/// Reads the working directory of the test with the given number, if a property names it.
pub(crate) fn read_folder(
    alloc: Global,
    number: usize,
    properties: &[Property<'_>],
) -> Result<Option<String>, ListFault>
    ensures folder { IfOk result (λ o. folder_of (map property_model properties.now)
        ≡ Some (option_map string_bytes o)) }
    ensures fault { IfErr result (λ fault.
        IsPropertyFault number (map property_model properties.now) fault) }
{
    let key = CTestKey::WorkingDirectory;
    let wrong = ListFault::WrongCTest { number, key };
    let mut found = None;
    'properties: for property in properties {
        if property.name == "WORKING_DIRECTORY" {
            if found.is_some() {
                return Err(wrong);
            }
            found = Some(property.value);
        }
    }
    match found {
        Some(value) => copy_folder(alloc, value, wrong),
        None => Ok(None),
    }
}

// Copies the directory that a value names. If the value is not a string, the fault is `wrong`.
fn copy_folder(alloc: Global, value: &Value, wrong: ListFault) -> Result<Option<String>, ListFault>
    ensures folder { IfOk result (λ o. one_folder (view value.now ∷ [])
        ≡ Some (option_map string_bytes o)) }
    ensures fault { IfErr result (λ fault.
        Refuses wrong (one_folder (view value.now ∷ []) ≡ None) fault) }
{
    match value.as_str() {
        Some(folder) => Ok(Some(String::from_str(alloc, folder)?)),
        None => Err(wrong),
    }
}
