//! The programs of tests.

ghost use Rattle.std.specs.Prelude.{◌∷◌, [], option_copied, map, IfOk, OnOk, ◌≡◌, string_bytes, unwrap_or};
ghost use Rattle.nj_chosen.specs.Cited.{filter, is_among, HasMore, SameNames, test_model, first_word, programs_of};

use crate::test_names::bytes_of;
use nj_names::{HashKeys, Names};
use nj_tests::{Test, path_of};
use std::alloc::{AllocError, Global};

/// Returns a table of the programs of tests that are among the given outputs, with the given keys.
pub(crate) fn programs_of(
    alloc: Global,
    keys: HashKeys,
    build: &[u8],
    outputs: &Names,
    tests: &[Test],
) -> Result<Names, AllocError>
    ensures { IfOk result (λ programs. SameNames programs
        (programs_of build.now outputs.now (map test_model tests.now))) }
{
    let mut programs = Names::new(alloc, keys);
    'tests: for test in tests {
        add_program(alloc, build, outputs, test, &mut programs)?;
    }
    Ok(programs)
}

/// Adds the program of a test if it is among the given outputs.
fn add_program(
    alloc: Global,
    build: &[u8],
    outputs: &Names,
    test: &Test,
    programs: &mut Names,
) -> Result<(), AllocError>
    ensures { OnOk result (HasMore programs.old
        (programs_of build.now outputs.now (test_model test.now ∷ [])) programs.new) }
{
    match program_word(test) {
        Some(word) => {
            let program = path_of(alloc, build, bytes_of(&test.folder), word)?;
            add_if_among(outputs, &program, programs)
        }
        None => Ok(()),
    }
}

/// Adds a path if it is among the given outputs.
pub(crate) fn add_if_among(
    outputs: &Names,
    path: &[u8],
    programs: &mut Names,
) -> Result<(), AllocError>
    ensures { OnOk result (HasMore programs.old
        (filter (is_among outputs.now) (path.now ∷ [])) programs.new) }
{
    if outputs.number(path).is_none() {
        return Ok(());
    }
    programs.add(path)?;
    Ok(())
}

/// The first word of the command of a test, unless the command is not known or the word is empty.
fn program_word(test: &Test) -> Option<&[u8]>
    ensures { option_copied result ≡ first_word (unwrap_or (test_model test.now).command []) }
{
    match &test.command {
        Some(words) => first_word(words),
        None => None,
    }
}

/// The first of some words, unless it is empty.
fn first_word(words: &[String]) -> Option<&[u8]>
    ensures { option_copied result ≡ first_word (map string_bytes words.now) }
{
    match words {
        [word, ..] if !word.is_empty() => Some(word.as_bytes()),
        _ => None,
    }
}
