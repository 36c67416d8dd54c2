//! The values of a command line's arguments, as `clap` reads them.

ghost use Rattle.std.specs.Prelude.{◌≡◌, ◌⊎◌, IfOk, IfErr, OnOk, true, false, map, string_bytes};
ghost use Rattle.nj_args.specs.Cited.{option_copied, first_of, matches_of, command, is_on, words_in, rows_in, word_strings, is_refused, refusal, Unparsed, OutOfMemory};

use crate::command::command;
use crate::usage_fault::UsageFault;
use clap::ArgMatches;
use clap::error::ErrorKind;
use std::alloc::Global;

/// Returns the matches of `clap` for the arguments, or `Unparsed` if it refuses them.
pub fn parse<'w>(alloc: Global, words: &'w [String]) -> Result<ArgMatches<'w>, UsageFault>
    ensures ok { OnOk result (is_refused (map string_bytes words.entry.now) ≡ false) }
    ensures rows { IfOk result (λ matches.
        rows_in matches ≡ matches_of command (map string_bytes words.entry.now)) }
    ensures err { IfErr result (λ fault. (fault ≡ OutOfMemory)
        ⊎ ((fault ≡ Unparsed) × (is_refused (map string_bytes words.entry.now) ≡ true))) }
{
    let made = command(alloc)?;
    match made.try_get_matches_from(words) {
        Ok(matches) => Ok(matches),
        Err(error) => Err(refusal(error.kind())),
    }
}

// The fault that reports an error of `clap`.
fn refusal(kind: ErrorKind) -> UsageFault
    ensures { result ≡ refusal kind }
{
    match kind {
        ErrorKind::OutOfMemory => UsageFault::OutOfMemory,
        _ => UsageFault::Unparsed,
    }
}

/// The value of an option, by its text.
pub fn text_of<'w>(matches: &ArgMatches<'w>, option: &str) -> Option<&'w str>
    ensures { option_copied result ≡ first_of option.now (rows_in matches.now) }
{
    matches.get_str(option)
}

/// Whether an option without a value was given, by its text.
pub fn is_on(matches: &ArgMatches<'_>, option: &str) -> bool
    ensures { result ≡ is_on option.now (rows_in matches.now) }
{
    match text_of(matches, option) {
        Some(text) => text == "true",
        None => false,
    }
}

/// The arguments that are not options.
pub fn words_in<'m, 'w>(matches: &'m ArgMatches<'w>) -> Option<&'m [&'w str]>
    ensures { word_strings result ≡ words_in (rows_in matches.entry.now) }
{
    matches.get_strs("words")
}
