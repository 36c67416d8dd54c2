//! The options of `tests`, before anything is read.

ghost use Rattle.std.specs.Prelude.{◌≡◌, None, Some, IfErr, IfOk, option_map, string_bytes};
ghost use Rattle.nj_ask.specs.Cited.{AreTestsAsked, FailsBy, MisusesTests, Usage, asks_format, format_misuse, list_misuse, program_misuse, style_asked, program_line, style_misuse, tests_model, unnamed_misuse, word_misuse};

use crate::failure::Failure;
use crate::given::globs_asked;
use crate::status::Status;
use nj_globs::Glob;
use nj_questions::TestsOptions;
use nj_test_texts::Style;
use std::alloc::Global;

/// The globs of the paths that are ignored. Refuses options whose words are not taken, and then those
/// of a change that are not.
pub(crate) fn tests_asked(alloc: Global, options: &TestsOptions) -> Result<Vec<Glob>, Failure>
    ensures asked { IfOk result (λ globs.
        AreTestsAsked (tests_model options.now) globs.items) }
    ensures refused { IfErr result (FailsBy Usage (MisusesTests (tests_model options.now))) }
{
    match check_words(alloc, options) {
        Ok(()) => {}
        Err(failure) => return Err(failure),
    }
    globs_asked(alloc, &options.change)
}

/// Refuses options with a word that is not taken, and those that exclude each other.
fn check_words(alloc: Global, options: &TestsOptions) -> Result<(), Failure>
    ensures allowed { IfOk result (λ _. word_misuse (tests_model options.now) ≡ None) }
    ensures refused { IfErr result (FailsBy Usage (λ line.
        word_misuse (tests_model options.now) ≡ Some line)) }
{
    match check_format(alloc, options.format.as_ref()) {
        Ok(()) => {}
        Err(failure) => return Err(failure),
    }
    match check_list(alloc, options) {
        Ok(()) => {}
        Err(failure) => return Err(failure),
    }
    match check_program(alloc, options) {
        Ok(()) => {}
        Err(failure) => return Err(failure),
    }
    match check_style(alloc, options) {
        Ok(()) => {}
        Err(failure) => return Err(failure),
    }
    check_unnamed(alloc, options.unnamed.as_ref())
}

/// Refuses the word of a format that there is not.
fn check_format(alloc: Global, format: Option<&String>) -> Result<(), Failure>
    ensures allowed { IfOk result (λ _.
        format_misuse (option_map (λ word. string_bytes word.now) format.entry) ≡ None) }
    ensures refused { IfErr result (FailsBy Usage (λ line.
        format_misuse (option_map (λ word. string_bytes word.now) format.entry) ≡ Some line)) }
{
    let Some(word) = format else {
        return Ok(());
    };
    if word.as_str() == "lines" || word.as_str() == "ctest" || word.as_str() == "meson" {
        return Ok(());
    }
    let word = word.as_bytes();
    Err(Failure::in_words(alloc, b"unknown format '", word, b"'", Status::Usage))
}

/// Refuses options that do not name one list of tests.
fn check_list(alloc: Global, options: &TestsOptions) -> Result<(), Failure>
    ensures allowed { IfOk result (λ _. list_misuse (tests_model options.now) ≡ None) }
    ensures refused { IfErr result (FailsBy Usage (λ line.
        list_misuse (tests_model options.now) ≡ Some line)) }
{
    if options.ctest.is_some() && options.meson.is_some() {
        return Err(misuse(alloc, b"--ctest excludes --meson"));
    }
    if options.ctest.is_none() && options.meson.is_none() {
        let text = b"a list of tests is required: --ctest FILE or --meson DIR";
        return Err(misuse(alloc, text));
    }
    Ok(())
}

/// Refuses a format for another program than that of the list.
fn check_program(alloc: Global, options: &TestsOptions) -> Result<(), Failure>
    ensures allowed { IfOk result (λ _. program_misuse (tests_model options.now) ≡ None) }
    ensures refused { IfErr result (FailsBy Usage (λ line.
        program_misuse (tests_model options.now) ≡ Some line)) }
{
    if options.meson.is_some() && asks_format(options, "ctest") {
        return Err(misuse(alloc, b"--meson excludes --format ctest"));
    }
    if options.ctest.is_some() && asks_format(options, "meson") {
        return Err(misuse(alloc, b"--ctest excludes --format meson"));
    }
    Ok(())
}

/// The refusal of options, in the given words.
pub(crate) fn misuse(alloc: Global, text: &[u8]) -> Failure
    ensures { FailsBy Usage (λ line. line ≡ program_line text.now) result }
{
    Failure::in_words(alloc, b"", text, b"", Status::Usage)
}

/// Refuses options that exclude each other.
fn check_style(alloc: Global, options: &TestsOptions) -> Result<(), Failure>
    ensures allowed { IfOk result (λ _. style_misuse (tests_model options.now) ≡ None) }
    ensures refused { IfErr result (FailsBy Usage (λ line.
        style_misuse (tests_model options.now) ≡ Some line)) }
{
    if options.json && (options.why || options.format.is_some()) {
        return Err(misuse(alloc, b"--json excludes --format and --why"));
    }
    if options.why && asks_format(options, "ctest") {
        return Err(misuse(alloc, b"--why excludes --format ctest"));
    }
    if options.why && asks_format(options, "meson") {
        return Err(misuse(alloc, b"--why excludes --format meson"));
    }
    Ok(())
}

/// Refuses another word than `skip` of `--unnamed`.
fn check_unnamed(alloc: Global, unnamed: Option<&String>) -> Result<(), Failure>
    ensures allowed { IfOk result (λ _.
        unnamed_misuse (option_map (λ word. string_bytes word.now) unnamed.entry) ≡ None) }
    ensures refused { IfErr result (FailsBy Usage (λ line.
        unnamed_misuse (option_map (λ word. string_bytes word.now) unnamed.entry) ≡ Some line)) }
{
    let Some(word) = unnamed else {
        return Ok(());
    };
    if word.as_str() == "skip" {
        return Ok(());
    }
    let word = word.as_bytes();
    let text = b"' of --unnamed is not skip";
    Err(Failure::in_words(alloc, b"'", word, text, Status::Usage))
}

/// Whether the format with the given name is requested.
fn asks_format(options: &TestsOptions, name: &str) -> bool
    ensures { result ≡ asks_format name.now (tests_model options.now).format }
{
    match &options.format {
        Some(word) => word.as_str() == name,
        None => false,
    }
}

/// How the tests are written.
pub(crate) fn style_asked(options: &TestsOptions) -> Style
    ensures { result ≡ style_asked (tests_model options.now) }
{
    if options.json {
        return Style::Objects;
    }
    if options.why {
        return Style::Reasons;
    }
    if asks_format(options, "ctest") {
        return Style::CTest;
    }
    if asks_format(options, "meson") {
        return Style::Meson;
    }
    Style::Names
}
