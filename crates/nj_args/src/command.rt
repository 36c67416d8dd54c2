//! The command line as `clap` knows it.

ghost use Rattle.std.specs.Prelude.{◌≡◌, false, IfOk, Some, codes, fold, map};
ghost use Rattle.nj_args.specs.Cited.{app_of, rule_of, with_rule, command, nothing_yet, flag, option_at, option_in, with_letter, with_name, all_words};

use clap::{Arg, ArgAction, Command};
use std::alloc::{AllocError, Global};

// How an option is written: `-L` or `--NAME`, with or without a value.
#[derive(Clone, Copy)]
enum Form {
    Short(char),
    Long(&'static str),
    ShortFlag(char),
    LongFlag(&'static str),
}

// The options in their order, each with the text under which it is stored.
const OPTIONS: [(&str, Form); 14] = [
    ("-t", Form::Short('t')),
    ("-f", Form::Short('f')),
    ("--take", Form::Long("take")),
    ("--resume", Form::Long("resume")),
    ("-s", Form::ShortFlag('s')),
    ("--stdin", Form::LongFlag("stdin")),
    ("-d", Form::ShortFlag('d')),
    ("-x", Form::ShortFlag('x')),
    ("--directory", Form::Long("directory")),
    ("--dyndep", Form::LongFlag("dyndep")),
    ("--validations", Form::LongFlag("validations")),
    ("--dependency-order", Form::LongFlag("dependency-order")),
    ("--no-shell-escape", Form::LongFlag("no-shell-escape")),
    ("--print0", Form::LongFlag("print0")),
];

/// The command: its options, flags and arguments.
pub fn command<'a>(alloc: Global) -> Result<Command<'a>, AllocError>
    ensures { IfOk result (λ made. app_of made ≡ command) }
{
    with_options(alloc, nothing_yet(alloc), &OPTIONS)?.arg(all_words(alloc))
}

// Adds the given options to a command.
fn with_options<'a>(
    alloc: Global,
    command: Command<'a>,
    options: &[(&'a str, Form)],
) -> Result<Command<'a>, AllocError>
    ensures { IfOk result (λ made. app_of made ≡ fold with_rule (app_of command.entry)
        (map option_at options.now)) }
{
    let mut made = command;
    'options: for option in options {
        made = made.arg(option_in(alloc, option.0, option.1))?;
    }
    Ok(made)
}

// An option in the given form, stored under the given text.
fn option_in<'a>(alloc: Global, text: &'a str, form: Form) -> Arg<'a>
    ensures rule { rule_of result ≡ option_in text.entry.now form }
    ensures local { result.global ≡ false }
{
    match form {
        Form::Short(letter) => short_option(alloc, text, letter),
        Form::Long(name) => long_option(alloc, text, name),
        Form::ShortFlag(letter) => short_flag(alloc, text, letter),
        Form::LongFlag(name) => long_flag(alloc, text, name),
    }
}

// The command without options and arguments. It has neither a help nor a version option.
fn nothing_yet<'a>(alloc: Global) -> Command<'a>
    ensures { app_of result ≡ nothing_yet }
{
    Command::new(alloc, "ninja-explain")
        .no_binary_name(true)
        .disable_help_flag(true)
}

// `-L VALUE`, stored under the given text.
fn short_option<'a>(alloc: Global, text: &'a str, letter: char) -> Arg<'a>
    ensures rule { rule_of result ≡ with_letter text.entry.now letter }
    ensures local { result.global ≡ false }
{
    Arg::new(alloc, text).short(letter)
}

// `--NAME VALUE`, stored under the given text.
fn long_option<'a>(alloc: Global, text: &'a str, name: &'a str) -> Arg<'a>
    ensures rule { rule_of result ≡ with_name text.entry.now name.entry.now }
    ensures local { result.global ≡ false }
{
    Arg::new(alloc, text).long(name)
}

// `-L`, stored under the given text.
fn short_flag<'a>(alloc: Global, text: &'a str, letter: char) -> Arg<'a>
    ensures rule { rule_of result ≡ flag (with_letter text.entry.now letter) }
    ensures local { result.global ≡ false }
{
    short_option(alloc, text, letter).action(ArgAction::SetTrue)
}

// `--NAME`, stored under the given text.
fn long_flag<'a>(alloc: Global, text: &'a str, name: &'a str) -> Arg<'a>
    ensures rule { rule_of result ≡ flag (with_name text.entry.now name.entry.now) }
    ensures local { result.global ≡ false }
{
    long_option(alloc, text, name).action(ArgAction::SetTrue)
}

// The arguments that are not options.
fn all_words<'a>(alloc: Global) -> Arg<'a>
    ensures rule { rule_of result ≡ all_words }
    ensures local { result.global ≡ false }
{
    Arg::new(alloc, "words").action(ArgAction::Append)
}
