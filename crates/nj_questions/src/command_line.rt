//! The command line as `clap` knows it.

ghost use Rattle.std.specs.Prelude.{◌≡◌, [], IfOk, codes, fold, map};
ghost use Rattle.nj_questions.specs.Cited.{app_of, with_rule, with_subcommand, command, rule_at, without_subcommands, new_app, subcommand_in, subcommand, affected_options, audit_options, draw_options, keys_options, stale_options, tests_options, times_options, why_options};

use crate::forms::{Entry, arg_of};
use crate::subcommands::{
    AFFECTED, AFFECTED_OPTIONS, AUDIT, AUDIT_OPTIONS, DRAW, DRAW_OPTIONS, GRAPH_OPTIONS, JSON,
    KEYS, KEYS_OPTIONS, STALE, STALE_OPTIONS, TESTS, TESTS_OPTIONS, TIMES, TIMES_OPTIONS, Topic,
    WHY, WHY_OPTIONS,
};
use clap::Command;
use std::alloc::{AllocError, Global};

const VERSION: &str = "0.1.0";

/// Returns the program with its subcommands.
pub fn command<'a>(alloc: Global) -> Result<Command<'a>, AllocError>
    ensures { IfOk result (λ made. app_of made ≡ command) }
{
    let made = without_subcommands(alloc)?;
    let made = with_affected(alloc, made)?;
    let made = with_audit(alloc, made)?;
    let made = with_draw(alloc, made)?;
    let made = with_json(alloc, made)?;
    let made = with_keys(alloc, made)?;
    let made = with_stale(alloc, made)?;
    let made = with_tests(alloc, made)?;
    let made = with_times(alloc, made)?;
    with_why(alloc, made)
}

// ---- each subcommand, in a function of its own: its table and its texts are in one proof

fn with_affected<'a>(alloc: Global, program: Command<'a>) -> Result<Command<'a>, AllocError>
    ensures { IfOk result (λ made. app_of made
        ≡ with_subcommand (app_of program.entry) (subcommand (codes "affected") affected_options)) }
{
    with_subcommand(alloc, program, AFFECTED, &AFFECTED_OPTIONS)
}

fn with_audit<'a>(alloc: Global, program: Command<'a>) -> Result<Command<'a>, AllocError>
    ensures { IfOk result (λ made. app_of made
        ≡ with_subcommand (app_of program.entry) (subcommand (codes "audit") audit_options)) }
{
    with_subcommand(alloc, program, AUDIT, &AUDIT_OPTIONS)
}

fn with_draw<'a>(alloc: Global, program: Command<'a>) -> Result<Command<'a>, AllocError>
    ensures { IfOk result (λ made. app_of made
        ≡ with_subcommand (app_of program.entry) (subcommand (codes "draw") draw_options)) }
{
    with_subcommand(alloc, program, DRAW, &DRAW_OPTIONS)
}

fn with_json<'a>(alloc: Global, program: Command<'a>) -> Result<Command<'a>, AllocError>
    ensures { IfOk result (λ made. app_of made
        ≡ with_subcommand (app_of program.entry) (subcommand (codes "json") [])) }
{
    with_subcommand(alloc, program, JSON, &[])
}

fn with_keys<'a>(alloc: Global, program: Command<'a>) -> Result<Command<'a>, AllocError>
    ensures { IfOk result (λ made. app_of made
        ≡ with_subcommand (app_of program.entry) (subcommand (codes "keys") keys_options)) }
{
    with_subcommand(alloc, program, KEYS, &KEYS_OPTIONS)
}

fn with_stale<'a>(alloc: Global, program: Command<'a>) -> Result<Command<'a>, AllocError>
    ensures { IfOk result (λ made. app_of made
        ≡ with_subcommand (app_of program.entry) (subcommand (codes "stale") stale_options)) }
{
    with_subcommand(alloc, program, STALE, &STALE_OPTIONS)
}

fn with_tests<'a>(alloc: Global, program: Command<'a>) -> Result<Command<'a>, AllocError>
    ensures { IfOk result (λ made. app_of made
        ≡ with_subcommand (app_of program.entry) (subcommand (codes "tests") tests_options)) }
{
    with_subcommand(alloc, program, TESTS, &TESTS_OPTIONS)
}

fn with_times<'a>(alloc: Global, program: Command<'a>) -> Result<Command<'a>, AllocError>
    ensures { IfOk result (λ made. app_of made
        ≡ with_subcommand (app_of program.entry) (subcommand (codes "times") times_options)) }
{
    with_subcommand(alloc, program, TIMES, &TIMES_OPTIONS)
}

fn with_why<'a>(alloc: Global, program: Command<'a>) -> Result<Command<'a>, AllocError>
    ensures { IfOk result (λ made. app_of made
        ≡ with_subcommand (app_of program.entry) (subcommand (codes "why") why_options)) }
{
    with_subcommand(alloc, program, WHY, &WHY_OPTIONS)
}

// ---- their parts

// Returns the program without its subcommands.
fn without_subcommands<'a>(alloc: Global) -> Result<Command<'a>, AllocError>
    ensures { IfOk result (λ made. app_of made ≡ without_subcommands) }
{
    unnamed(alloc).bin_name("ninja-graph")
}

// Returns the program without its subcommands, before it is named.
fn unnamed<'a>(alloc: Global) -> Command<'a>
    ensures { app_of result ≡ without_subcommands }
{
    Command::new(alloc, "ninja-graph")
        .no_binary_name(true)
        .about("Answers questions about the graph of a Ninja build, and builds nothing")
        .version(VERSION)
        .subcommand_required(true)
        .disable_help_subcommand(true)
}

// Adds a subcommand with the given options and the options that name its graph.
fn with_subcommand<'a>(
    alloc: Global,
    command: Command<'a>,
    topic: Topic,
    options: &[Entry],
) -> Result<Command<'a>, AllocError>
    ensures { IfOk result (λ made. app_of made ≡ with_subcommand (app_of command.entry)
        (subcommand_in topic.name.now (map rule_at options.now))) }
{
    let subcommand = with_options(alloc, about(alloc, topic), options)?;
    let subcommand = with_options(alloc, subcommand, &GRAPH_OPTIONS)?;
    command.subcommand(subcommand)
}

// Returns a subcommand without options.
fn about<'a>(alloc: Global, topic: Topic) -> Command<'a>
    ensures { app_of result ≡ new_app topic.name.now }
{
    Command::new(alloc, topic.name)
        .about(topic.about)
        .after_help(topic.more)
}

// Adds the given options to a command.
fn with_options<'a>(
    alloc: Global,
    command: Command<'a>,
    options: &[Entry],
) -> Result<Command<'a>, AllocError>
    ensures { IfOk result (λ made. app_of made
        ≡ fold with_rule (app_of command.entry) (map rule_at options.now)) }
{
    let mut made = command;
    'options: for option in options {
        made = made.arg(arg_of(alloc, option.0, option.1, option.2))?;
    }
    Ok(made)
}
