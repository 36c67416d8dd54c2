//! The text of the tests that are chosen.

ghost use Rattle.std.specs.Prelude.{◌≡◌, IfOk, length, map};
ghost use Rattle.nj_test_texts.specs.Cited.{body_of, enclosed, test_model, tests_text, written_from};

use crate::style::Style;
use crate::test_lines::push_if_written;
use nj_chosen::ChosenTests;
use nj_tests::Test;
use std::alloc::{AllocError, Global};

/// Returns the text of the chosen tests, or of all tests, in the order of their list.
///
/// Takes time in proportion to the list. Fails only if an allocation fails.
pub fn tests_text(
    alloc: Global,
    style: Style,
    all: bool,
    tests: &[Test],
    chosen: &ChosenTests,
) -> Result<Vec<u8>, AllocError>
    requires { length tests.now ≡ length chosen.now.reasons }
    ensures { IfOk result (λ text. text.items
        ≡ tests_text style (written_from all chosen.now 0 (map test_model tests.now))) }
{
    let body = body_of(alloc, style, all, tests, chosen)?;
    match style {
        Style::CTest => enclosed(alloc, &body),
        _ => Ok(body),
    }
}

/// Returns what is written of each test, one after another.
fn body_of(
    alloc: Global,
    style: Style,
    all: bool,
    tests: &[Test],
    chosen: &ChosenTests,
) -> Result<Vec<u8>, AllocError>
    requires { length tests.now ≡ length chosen.now.reasons }
    ensures { IfOk result (λ text. text.items
        ≡ body_of style (written_from all chosen.now 0 (map test_model tests.now))) }
{
    let mut text = Vec::new(alloc);
    'tests: for (number, test) in tests.iter().enumerate() {
        let name = test.name.as_str();
        push_if_written(&mut text, style, all, name, chosen.choice(number))?;
    }
    Ok(text)
}

/// Returns a regular expression for names that each have a bar before them.
fn enclosed(alloc: Global, body: &[u8]) -> Result<Vec<u8>, AllocError>
    ensures { IfOk result (λ text. text.items ≡ enclosed body.now) }
{
    let mut text = Vec::from_slice(alloc, b"^(")?;
    if let Some((_bar, names)) = body.split_first() {
        text.extend_from_slice(names)?;
    }
    text.extend_from_slice(b")$\n")?;
    Ok(text)
}
