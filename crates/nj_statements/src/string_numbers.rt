//! The numbers of the strings that are kept of edges: the names of their files and of their pools,
//! and the paths of their dyndep files.

ghost use Rattle.std.specs.Prelude.{◌≡◌, ◌<◌, ◌+◌, Some, option_map, option_copied, length, slice_get, IfOk, IfSome};
ghost use Rattle.nj_statements.specs.Cited.{IsPrefix, path_at, numbered, numbered_at, IsNumbered};

use crate::edge_record::Detail;
use nj_names::{FileNo, Files, Names, short_number};
use std::alloc::AllocError;

/// The number of the file with the given name, which contains an edge. The name is looked up only
/// if the previous edge is in another file.
pub(crate) fn file_number(
    strings: &mut Names,
    before: Option<&Detail>,
    name: &[u8],
) -> Result<u32, AllocError>
    ensures number { IfOk result (λ number. slice_get strings.new number ≡ Some name.now) }
    ensures grows { IsPrefix strings.old strings.new }
{
    if let Some(before) = before {
        let file = before.file as usize;
        if file < strings.count() && strings.name(file) == name {
            return Ok(before.file);
        }
    }
    short_number(strings.add(name)?)
}

/// The number of a string, counted from 1.
pub(crate) fn string_number(strings: &mut Names, string: &[u8]) -> Result<u32, AllocError>
    ensures number { IfOk result (λ number.
        slice_get (numbered strings.new) number ≡ Some (Some string.now)) }
    ensures grows { IsPrefix strings.old strings.new }
{
    let index = strings.add(string)?;
    let number = next_number(index)?;
    Ok(number)
}

// The number after the given number, in 32 bits.
fn next_number(number: usize) -> Result<u32, AllocError>
    ensures { IfOk result (λ next. next ≡ number + 1) }
{
    let next = number.checked_add(1).ok_or(AllocError)?;
    short_number(next)
}

/// The number of the path of the given file, counted from 1; 0 for no file.
#[tactic(auto, using(crate::proofs::AssignedLemmas::prefix_same))]
pub(crate) fn path_number(
    strings: &mut Names,
    files: &Files,
    file: Option<FileNo>,
) -> Result<u32, AllocError>
    requires { IfSome file (λ f. f.0 < length files.now) }
    ensures number { IfOk result (λ number. slice_get (numbered strings.new) number
        ≡ Some (option_map (path_at files.now) file)) }
    ensures grows { IsPrefix strings.old strings.new }
{
    match file {
        Some(file) => string_number(strings, files.path(file)),
        None => Ok(0),
    }
}

/// The string with the given number, counted from 1; `None` for 0.
pub(crate) fn string_at(strings: &Names, number: u32) -> Option<&[u8]>
    requires { IsNumbered strings.now number }
    ensures { option_copied result ≡ numbered_at strings.now number }
{
    if number == 0 {
        return None;
    }
    Some(strings.name(number as usize - 1))
}
