//! Reading JSON values.

ghost use Rattle.std.specs.Prelude.{◌≡◌, Some, None, map, option_map, string_bytes, IfOk, IfErr};
ghost use Rattle.nj_test_lists.specs.Cited.{as_str, view, IsJson, IsNoJsonFault, Refuses, each, items, strings, string_at, strings_at, items_at, given};

use crate::list_fault::ListFault;
use serde_json::Value;
use std::alloc::Global;

/// Parses a text.
pub(crate) fn parse(alloc: Global, text: &[u8]) -> Result<Value, ListFault>
    ensures value { IfOk result (λ value. IsJson text.now (view value)) }
    ensures fault { IfErr result (λ fault. IsNoJsonFault text.now fault) }
{
    match Value::from_slice(alloc, text) {
        Ok(value) => Ok(value),
        Err(error) => {
            if error.is_memory() {
                return Err(ListFault::OutOfMemory);
            }
            Err(ListFault::NotJson {
                line: error.line(),
                column: error.column(),
            })
        }
    }
}

/// Returns the items of an array.
pub(crate) fn items(value: &Value) -> Option<&[Value]>
    ensures { option_map (λ values. map view values.now) result ≡ items (view value.now) }
{
    match value {
        Value::Array(values) => Some(values.as_slice()),
        _ => None,
    }
}

/// Returns the string that an object has at the given name, if any.
pub(crate) fn string_at<'v>(value: &'v Value, name: &str) -> Option<&'v str>
    ensures { option_map (λ s. s.now) result ≡ string_at name.now (view value.now) }
{
    value.get(name).and_then(Value::as_str)
}

/// Returns the value that an object has at the given name, unless it is `null`.
pub(crate) fn given<'v>(value: &'v Value, name: &str) -> Option<&'v Value>
    ensures { option_map (λ v. view v.now) result ≡ given name.now (view value.now) }
{
    match value.get(name) {
        Some(Value::Null) => None,
        other => other,
    }
}

/// Reads the strings of an array. If the value is not an array of strings, the fault is `wrong`.
pub(crate) fn read_strings(
    alloc: Global,
    value: &Value,
    wrong: ListFault,
) -> Result<Vec<String>, ListFault>
    ensures strings { IfOk result (λ v. strings (view value.now)
        ≡ Some (map string_bytes v.items)) }
    ensures fault { IfErr result (λ fault. Refuses wrong (strings (view value.now) ≡ None) fault) }
{
    match items(value) {
        Some(values) => copy_strings(alloc, values, wrong),
        None => Err(wrong),
    }
}

/// Reads the strings of the array that an object has at the given name. If the object has no array
/// of strings there, the fault is `wrong`.
pub(crate) fn read_strings_at(
    alloc: Global,
    value: &Value,
    name: &str,
    wrong: ListFault,
) -> Result<Vec<String>, ListFault>
    ensures strings { IfOk result (λ v. strings_at name.now (view value.now)
        ≡ Some (map string_bytes v.items)) }
    ensures fault { IfErr result (λ fault.
        Refuses wrong (strings_at name.now (view value.now) ≡ None) fault) }
{
    match value.get(name) {
        Some(strings) => read_strings(alloc, strings, wrong),
        None => Err(wrong),
    }
}

/// Returns the items of the array that an object has at the given name, if any.
pub(crate) fn items_at<'v>(value: &'v Value, name: &str) -> Option<&'v [Value]>
    ensures { option_map (λ values. map view values.now) result
        ≡ items_at name.now (view value.now) }
{
    value.get(name).and_then(items)
}

// Copies the strings that the given values are. If a value is not a string, the fault is `wrong`.
fn copy_strings(alloc: Global, values: &[Value], wrong: ListFault) -> Result<Vec<String>, ListFault>
    ensures strings { IfOk result (λ v. each as_str (map view values.now)
        ≡ Some (map string_bytes v.items)) }
    ensures fault { IfErr result (λ fault.
        Refuses wrong (each as_str (map view values.now) ≡ None) fault) }
{
    let mut strings = Vec::new(alloc);
    'values: for value in values {
        match value.as_str() {
            Some(string) => strings.push(String::from_str(alloc, string)?)?,
            None => return Err(wrong),
        }
    }
    Ok(strings)
}
