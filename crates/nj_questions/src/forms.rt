//! How options and words of the command line are written.

ghost use Rattle.std.specs.Prelude.{◌≡◌, false};
ghost use Rattle.nj_questions.specs.Cited.{rule_of, rule_in, flag, short_flag, short_option, long_option, repeated, number, word, words};

use clap::{Arg, ArgAction, value_parser};
use std::alloc::Global;

/// How an option or a word is written. Texts are the names of values in help.
#[derive(Clone, Copy)]
pub enum Form {
    /// `-L VALUE`
    Short(char, &'static str),
    /// `-L`
    Letter(char),
    /// `--NAME`
    Flag,
    /// `--NAME VALUE`
    Long(&'static str),
    /// `--NAME VALUE`, which may be repeated.
    Repeated(&'static str),
    /// `--NAME VALUE`, whose value is a number.
    Number(&'static str),
    /// A required word.
    Word,
    /// Any number of words, after the options.
    Words(&'static str),
}

/// An option or a word: its name, its form and its help.
pub type Entry = (&'static str, Form, &'static str);

/// Returns the argument of an entry.
pub fn arg_of<'a>(alloc: Global, name: &'a str, form: Form, help: &'a str) -> Arg<'a>
    ensures rule { rule_of result ≡ rule_in name.entry.now form }
    ensures local { result.global ≡ false }
{
    match form {
        Form::Short(letter, value) => short_option(alloc, name, letter, value, help),
        Form::Letter(letter) => short_flag(alloc, name, letter, help),
        Form::Flag => flag(alloc, name, help),
        Form::Long(value) => long_option(alloc, name, value, help),
        Form::Repeated(value) => repeated(alloc, name, value, help),
        Form::Number(value) => number(alloc, name, value, help),
        Form::Word => word(alloc, name, help),
        Form::Words(value) => words(alloc, name, value, help),
    }
}

// `-L VALUE`
fn short_option<'a>(
    alloc: Global,
    name: &'a str,
    letter: char,
    value: &'a str,
    help: &'a str,
) -> Arg<'a>
    ensures rule { rule_of result ≡ short_option name.entry.now letter }
    ensures local { result.global ≡ false }
{
    Arg::new(alloc, name)
        .short(letter)
        .value_name(value)
        .help(help)
}

// `-L`
fn short_flag<'a>(alloc: Global, name: &'a str, letter: char, help: &'a str) -> Arg<'a>
    ensures rule { rule_of result ≡ short_flag name.entry.now letter }
    ensures local { result.global ≡ false }
{
    Arg::new(alloc, name)
        .short(letter)
        .action(ArgAction::SetTrue)
        .help(help)
}

// `--NAME`
fn flag<'a>(alloc: Global, name: &'a str, help: &'a str) -> Arg<'a>
    ensures rule { rule_of result ≡ flag name.entry.now }
    ensures local { result.global ≡ false }
{
    Arg::new(alloc, name)
        .long(name)
        .action(ArgAction::SetTrue)
        .help(help)
}

// `--NAME VALUE`
fn long_option<'a>(alloc: Global, name: &'a str, value: &'a str, help: &'a str) -> Arg<'a>
    ensures rule { rule_of result ≡ long_option name.entry.now }
    ensures local { result.global ≡ false }
{
    Arg::new(alloc, name)
        .long(name)
        .value_name(value)
        .help(help)
}

// `--NAME VALUE`, which may be repeated.
fn repeated<'a>(alloc: Global, name: &'a str, value: &'a str, help: &'a str) -> Arg<'a>
    ensures rule { rule_of result ≡ repeated name.entry.now }
    ensures local { result.global ≡ false }
{
    long_option(alloc, name, value, help).action(ArgAction::Append)
}

// `--NAME VALUE`, whose value is a number.
fn number<'a>(alloc: Global, name: &'a str, value: &'a str, help: &'a str) -> Arg<'a>
    ensures rule { rule_of result ≡ number name.entry.now }
    ensures local { result.global ≡ false }
{
    long_option(alloc, name, value, help).value_parser(value_parser!(u64))
}

// A required word.
fn word<'a>(alloc: Global, name: &'a str, help: &'a str) -> Arg<'a>
    ensures rule { rule_of result ≡ word name.entry.now }
    ensures local { result.global ≡ false }
{
    Arg::new(alloc, name).required(true).help(help)
}

// Any number of words.
fn words<'a>(alloc: Global, name: &'a str, value: &'a str, help: &'a str) -> Arg<'a>
    ensures rule { rule_of result ≡ words name.entry.now }
    ensures local { result.global ≡ false }
{
    Arg::new(alloc, name)
        .value_name(value)
        .action(ArgAction::Append)
        .help(help)
}
