//! The values of a subcommand's options, as `clap` reads them.

ghost use Rattle.std.specs.Prelude.{◌≡◌, IfOk, option_map, map, string_bytes};
ghost use Rattle.std.specs.Option.{option_copied};
ghost use Rattle.nj_questions.specs.Cited.{first_of, is_on, text_or, values_in, number_in, given_number, rows_in, word_strings};

use clap::ArgMatches;
use std::alloc::{AllocError, Global};

/// Whether a flag was given.
pub fn is_on(matches: &ArgMatches<'_>, name: &str) -> bool
    ensures { result ≡ is_on name.now (rows_in matches.now) }
{
    match text_of(matches, name) {
        Some(text) => text == "true",
        None => false,
    }
}

/// Returns the value of an option.
pub fn text_in(
    alloc: Global,
    matches: &ArgMatches<'_>,
    name: &str,
) -> Result<Option<String>, AllocError>
    ensures { IfOk result (λ text.
        option_map string_bytes text ≡ first_of name.now (rows_in matches.now)) }
{
    match text_of(matches, name) {
        Some(text) => Ok(Some(String::from_str(alloc, text)?)),
        None => Ok(None),
    }
}

/// Returns the value of an option, or a default.
pub fn text_or(
    alloc: Global,
    matches: &ArgMatches<'_>,
    name: &str,
    default: &str,
) -> Result<String, AllocError>
    ensures { IfOk result (λ text.
        string_bytes text ≡ text_or name.now default.now (rows_in matches.now)) }
{
    match text_of(matches, name) {
        Some(text) => String::from_str(alloc, text),
        None => String::from_str(alloc, default),
    }
}

/// Returns the values of an option that may be repeated, or the words that are not options, in
/// their order.
pub fn values_in(
    alloc: Global,
    matches: &ArgMatches<'_>,
    name: &str,
) -> Result<Vec<String>, AllocError>
    ensures { IfOk result (λ values.
        map string_bytes values.items ≡ values_in name.now (rows_in matches.now)) }
{
    owned(alloc, values_of(matches, name))
}

/// Returns the value of an option that is a number.
pub fn number_in(matches: &ArgMatches<'_>, name: &str) -> Option<u64>
    ensures { result ≡ number_in name.now (rows_in matches.now) }
{
    match text_of(matches, name) {
        Some(text) => given_number(text),
        None => None,
    }
}

// Returns the text of an option's value.
fn text_of<'w>(matches: &ArgMatches<'w>, name: &str) -> Option<&'w str>
    ensures { option_copied result ≡ first_of name.now (rows_in matches.now) }
{
    matches.get_str(name)
}

// Returns the texts of an option's values.
fn values_of<'m, 'w>(matches: &'m ArgMatches<'w>, name: &str) -> Option<&'m [&'w str]>
    ensures { word_strings result ≡ values_in name.now (rows_in matches.entry.now) }
{
    matches.get_strs(name)
}

// Returns the number that a text denotes.
fn given_number(text: &str) -> Option<u64>
    ensures { result ≡ given_number text.now }
{
    match text.parse::<u64>() {
        Ok(number) => Some(number),
        Err(_no_number) => None,
    }
}

// Returns the same texts as owned strings.
fn owned(alloc: Global, words: Option<&[&str]>) -> Result<Vec<String>, AllocError>
    ensures { IfOk result (λ strings. map string_bytes strings.items ≡ word_strings words.entry) }
{
    let mut strings = Vec::new(alloc);
    let Some(words) = words else {
        return Ok(strings);
    };
    'words: for word in words {
        strings.push(String::from_str(alloc, word)?)?;
    }
    Ok(strings)
}
