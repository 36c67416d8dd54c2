//! Tests that are written, one after another.

ghost use Rattle.std.specs.Prelude.{◌≡◌, ◌++◌, OnOk, option_map};
ghost use Rattle.nj_test_texts.specs.Cited.{choice_model, compact_text, entry_of, flat_map, line, named_test, reason_line, spaced, string, test_object, utf8_lossy, written};

use crate::patterns::{push_glob, push_regex};
use crate::reason_words::{reason_path, reason_word};
use crate::style::Style;
use nj_chosen::Choice;
use serde_json::Value;
use std::alloc::AllocError;

/// Appends what is written of a test. A test that is not chosen is written only if all tests are.
pub(crate) fn push_if_written(
    text: &mut Vec<u8>,
    style: Style,
    all: bool,
    name: &str,
    choice: Option<Choice<'_>>,
) -> Result<(), AllocError>
    ensures { OnOk result (text.new.items ≡ text.old.items ++ flat_map (entry_of style)
        (written all name.now (option_map choice_model choice.entry))) }
{
    if all || choice.is_some() {
        return push_test(text, style, name, choice);
    }
    Ok(())
}

/// Appends a test.
fn push_test(
    text: &mut Vec<u8>,
    style: Style,
    name: &str,
    choice: Option<Choice<'_>>,
) -> Result<(), AllocError>
    ensures { OnOk result (text.new.items ≡ text.old.items
        ++ entry_of style (named_test name.now (option_map choice_model choice.entry))) }
{
    match style {
        Style::Names => push_line(text, name.as_bytes()),
        Style::Reasons => push_reason(text, name, choice),
        Style::Objects => push_object(text, name, choice),
        Style::CTest => {
            text.push(b'|')?;
            push_regex(text, name.as_bytes())
        }
        Style::Meson => {
            text.push(b':')?;
            push_glob(text, name.as_bytes())?;
            push_line(text, b"")
        }
    }
}

/// Appends a text as a line.
fn push_line(text: &mut Vec<u8>, bytes: &[u8]) -> Result<(), AllocError>
    ensures { OnOk result (text.new.items ≡ text.old.items ++ line bytes.now) }
{
    text.extend_from_slice(bytes)?;
    text.push(b'\n')?;
    Ok(())
}

/// Appends a line: the name of a test and its reason.
fn push_reason(text: &mut Vec<u8>, name: &str, choice: Option<Choice<'_>>) -> Result<(), AllocError>
    ensures { OnOk result (text.new.items ≡ text.old.items
        ++ reason_line (named_test name.now (option_map choice_model choice.entry))) }
{
    text.extend_from_slice(name.as_bytes())?;
    text.push(b'\t')?;
    text.extend_from_slice(reason_word(choice).as_bytes())?;
    push_spaced(text, reason_path(choice))?;
    text.push(b'\n')?;
    Ok(())
}

/// Appends a path after a space, if any.
fn push_spaced(text: &mut Vec<u8>, path: &[u8]) -> Result<(), AllocError>
    ensures { OnOk result (text.new.items ≡ text.old.items ++ spaced path.now) }
{
    if path.is_empty() {
        return Ok(());
    }
    text.push(b' ')?;
    text.extend_from_slice(path)
}

/// Appends a line: an object in JSON.
fn push_object(text: &mut Vec<u8>, name: &str, choice: Option<Choice<'_>>) -> Result<(), AllocError>
    ensures { OnOk result (text.new.items ≡ text.old.items
        ++ line (compact_text (test_object
        (named_test name.now (option_map choice_model choice.entry))))) }
{
    text.extend_from_slice(b"{\"name\":")?;
    push_string(text, name)?;
    text.extend_from_slice(b",\"reason\":")?;
    push_string(text, reason_word(choice))?;
    text.extend_from_slice(b",\"path\":")?;
    push_bytes(text, reason_path(choice))?;
    text.extend_from_slice(b"}\n")?;
    Ok(())
}

/// Appends a text as a string in JSON, with U+FFFD for invalid UTF-8.
fn push_bytes(text: &mut Vec<u8>, bytes: &[u8]) -> Result<(), AllocError>
    ensures { OnOk result (text.new.items
        ≡ text.old.items ++ compact_text (string (utf8_lossy bytes.now))) }
{
    let whole = String::from_utf8_lossy(*text.allocator(), bytes)?;
    push_string(text, &whole)
}

/// Appends a text as a string in JSON.
fn push_string(text: &mut Vec<u8>, words: &str) -> Result<(), AllocError>
    ensures { OnOk result (text.new.items ≡ text.old.items ++ compact_text (string words.now)) }
{
    let alloc = *text.allocator();
    let string = Value::try_from_str(alloc, words)?.to_vec(alloc)?;
    text.extend_from_slice(&string)
}
