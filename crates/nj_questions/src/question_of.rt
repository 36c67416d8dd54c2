//! The question of a command line's arguments.

ghost use Rattle.std.specs.Prelude.{◌≡◌, ◌⊎◌, [], ◌∷◌, None, Some, Ok, Err, IfOk, IfErr, OnOk, true, is_some, map, string_bytes};
ghost use Rattle.nj_questions.specs.Cited.{kind_of, question_of, question_model, refusal_model, asked_graph, OutOfMemory, asked, subcommand_rows_of, fault_of, subcommand_of, command, refused_by, is_question, question_in, subject_in, graph_in, rows_in, takes_deps};
ghost use Rattle.clap.specs.declared.error.kind.ErrorKind.TheVariants as kind;

use crate::command_line::command;
use crate::fields::{is_on, text_in, text_or};
use crate::folder_first::folder_second;
use crate::old_option::has_old_option;
use crate::questions::{GraphOptions, Question};
use crate::refusals::Refusal;
use crate::subject_in::subject_in;
use clap::error::ErrorKind;
use clap::{ArgMatches, Error};
use std::alloc::{AllocError, Global};

const MAIN_FILE: &str = "build.ninja";

/// Returns the question of the given arguments, which do not have the program's name.
///
/// # Errors
///
/// The arguments are not a question, or an allocation failed.
pub fn read_words(alloc: Global, words: &[String]) -> Result<Question, Refusal>
    ensures ok { IfOk result (λ question.
        question_of (map string_bytes words.now) ≡ Ok (question_model question)) }
    ensures err { IfErr result (λ refusal. (refusal ≡ OutOfMemory)
        ⊎ (question_of (map string_bytes words.now) ≡ Err (refusal_model refusal))) }
{
    if has_old_option(words) {
        return Err(Refusal::OldOption);
    }
    let moved = folder_second(alloc, words)?;
    match parse(alloc, &moved) {
        Ok(matches) => Ok(asked(alloc, &matches)?),
        Err(refusal) => Err(refusal),
    }
}

// Returns the matches of `clap` for the arguments. The description of the command line takes much
// of the stack, and is gone before a file is read.
#[inline(never)]
fn parse<'w>(alloc: Global, words: &'w [&'w str]) -> Result<ArgMatches<'w>, Refusal>
    ensures ok { OnOk result (fault_of command (map (λ word. word.now) words.entry.now) ≡ []) }
    ensures rows { IfOk result (λ matches. subcommand_rows_of matches
        ≡ subcommand_of command (map (λ word. word.now) words.entry.now)) }
    ensures err { IfErr result (λ refusal. (refusal ≡ OutOfMemory)
        ⊎ (refused_by (fault_of command (map (λ word. word.now) words.entry.now))
        ≡ Some (refusal_model refusal))) }
    ensures question { IfOk result (λ matches.
        is_question (subcommand_rows_of matches) ≡ true) }
{
    let made = command(alloc)?;
    match made.try_get_matches_from(words) {
        Ok(matches) => Ok(matches),
        Err(error) => Err(refusal_of(alloc, &error)),
    }
}

// Returns the refusal that reports an error of `clap`.
fn refusal_of(alloc: Global, error: &Error) -> Refusal
    ensures memory { kind_of error.now ≡ kind.OutOfMemory → result ≡ OutOfMemory }
    ensures other { (result ≡ OutOfMemory)
        ⊎ (refused_by (kind_of error.now ∷ []) ≡ Some (refusal_model result)) }
{
    let Ok(text) = format!(in alloc; "{error}") else {
        return Refusal::OutOfMemory;
    };
    match error.kind() {
        ErrorKind::OutOfMemory => Refusal::OutOfMemory,
        ErrorKind::DisplayHelp | ErrorKind::DisplayVersion => Refusal::Help(text),
        _ => Refusal::Unparsed(text),
    }
}

// Returns the question of matches that name a subcommand.
fn asked(alloc: Global, matches: &ArgMatches<'_>) -> Result<Question, AllocError>
    requires { is_question (subcommand_rows_of matches.now) ≡ true }
    ensures { IfOk result (λ question.
        asked None (subcommand_rows_of matches.now) ≡ Ok (question_model question)) }
{
    match matches.subcommand() {
        Some((name, options)) => question_in(alloc, name, options),
        None => unreachable!(),
    }
}

// Returns the question of a subcommand and its options.
fn question_in(alloc: Global, name: &str, options: &ArgMatches<'_>) -> Result<Question, AllocError>
    requires { is_some (subject_in name.now (rows_in options.now)) ≡ true }
    ensures { IfOk result (λ question.
        question_in name.now (rows_in options.now) ≡ Some (question_model question)) }
{
    Ok(Question {
        folder: text_in(alloc, options, "folder")?,
        graph: graph_in(alloc, name, options)?,
        subject: subject_in(alloc, name, options)?,
    })
}

// Whether the subcommand with the given name joins the inputs that builds discovered even without
// `--deps`.
fn takes_deps(name: &str, options: &ArgMatches<'_>) -> bool
    ensures { result ≡ takes_deps name.now (rows_in options.now) }
{
    name == "stale" || (name == "times" && !is_on(options, "dead"))
}

// Returns the options that name the graph, of the subcommand with the given name.
fn graph_in(alloc: Global, name: &str, options: &ArgMatches<'_>) -> Result<GraphOptions, AllocError>
    ensures { IfOk result (λ graph.
        asked_graph graph ≡ graph_in name.now (rows_in options.now)) }
{
    Ok(GraphOptions {
        file: text_or(alloc, options, "file", MAIN_FILE)?,
        dyndep: is_on(options, "dyndep"),
        deps: takes_deps(name, options) || is_on(options, "deps"),
        log: text_in(alloc, options, "deps-log-file")?,
    })
}
