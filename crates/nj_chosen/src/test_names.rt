//! The paths that a test may name.

ghost use Rattle.std.specs.Prelude.{◌≡◌, ◌++◌, map, string_bytes, option_copied, option_map, IfOk, OnOk};
ghost use Rattle.nj_chosen.specs.Cited.{flat_map, list_any, test_model, names_of, has_lost_bytes, is_lost, is_unknown, names_of_test};

use nj_tests::{Test, names_of};
use std::alloc::{AllocError, Global};

/// Returns the full paths that the words of a test may name, given the build directory.
pub(crate) fn names_of_test(
    alloc: Global,
    build: &[u8],
    test: &Test,
) -> Result<Vec<Vec<u8>>, AllocError>
    ensures { IfOk result (λ names. map (λ name. name.items) names.items
        ≡ names_of_test build.now (test_model test.now)) }
{
    let folder = bytes_of(&test.folder);
    let mut names = Vec::new(alloc);
    if let Some(words) = &test.command {
        push_names(alloc, build, folder, words, &mut names)?;
    }
    push_names(alloc, build, folder, &test.texts, &mut names)?;
    Ok(names)
}

/// The bytes of a text, if any.
pub(crate) fn bytes_of(text: &Option<String>) -> Option<&[u8]>
    ensures { option_copied result ≡ option_map string_bytes text.now }
{
    match text {
        Some(text) => Some(text.as_bytes()),
        None => None,
    }
}

/// Appends the paths that the given words may name.
fn push_names(
    alloc: Global,
    build: &[u8],
    folder: Option<&[u8]>,
    words: &[String],
    names: &mut Vec<Vec<u8>>,
) -> Result<(), AllocError>
    ensures { OnOk result (map (λ name. name.items) names.new.items
        ≡ map (λ name. name.items) names.old.items
        ++ flat_map (names_of build.now (option_copied folder.entry))
        (map string_bytes words.now)) }
{
    'words: for word in words {
        let mut more = names_of(alloc, build, folder, word.as_bytes())?;
        names.append(&mut more)?;
    }
    Ok(())
}

/// Whether it is unknown what a test runs: it has no command, or bytes of its texts are lost.
pub(crate) fn is_unknown(test: &Test) -> bool
    ensures { result ≡ is_unknown (test_model test.now) }
{
    match &test.command {
        Some(words) => have_lost_bytes(words)
            || have_lost_bytes(&test.texts)
            || is_lost(&test.folder),
        None => true,
    }
}

/// Whether any of the given texts has lost bytes.
fn have_lost_bytes(texts: &[String]) -> bool
    ensures { result ≡ list_any has_lost_bytes (map string_bytes texts.now) }
{
    texts.iter().any(|text| has_lost_bytes(text.as_bytes()))
}

/// Whether the directory of a test, if it names one, has lost bytes.
fn is_lost(folder: &Option<String>) -> bool
    ensures { result ≡ is_lost (option_map string_bytes folder.now) }
{
    match folder {
        Some(folder) => has_lost_bytes(folder.as_bytes()),
        None => false,
    }
}

/// Whether a text has U+FFFD, which CTest writes for bytes that are not UTF-8.
fn has_lost_bytes(text: &[u8]) -> bool
    ensures { result ≡ has_lost_bytes text.now }
{
    let mut left = text;
    'bytes: while let Some((_, rest)) = left.split_first() {
        if left.starts_with(b"\xef\xbf\xbd") {
            return true;
        }
        left = rest;
    }
    false
}
