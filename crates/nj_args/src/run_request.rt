//! The request of a command line's arguments.

ghost use Rattle.std.specs.Prelude.{◌≡◌, ◌⊎◌, None, Ok, Err, [], ◌∷◌, IfOk, IfErr, IfSome, IfNone, map, string_bytes};
ghost use Rattle.nj_args.specs.Cited.{given_mark, option_copied, request_of, request_in, action_of, asked_of, commands_of, take_of, start_of, style_of, view_of, rows_in, word_strings, depth_of, inputs_of, targets_of, query_of, rules_of, compdb_of, given_request, wordless, given_run_mark, action_model, request_model, OutOfMemory};

use crate::fields::{is_on, parse, text_of, words_in};
use crate::option_numbers::{depth_in, number_in};
use crate::tools::{Tool, first_foreign, tool_named};
use crate::usage_fault::{UsageFault, Word};
use clap::ArgMatches;
use nj_needs::{Mark, MarkFault};
use nj_requests::{Action, InputsStyle, Name, Request, TargetsView};
use std::alloc::{AllocError, Global};

const MAIN_FILE: &str = "build.ninja";

// The working directory, which `compdb` names if no other directory is given.
const HERE: &str = ".";

/// Returns the request of the given arguments, without the program's name. If they have several
/// faults, the first in the order of [`UsageFault`] is reported.
///
/// # Errors
///
/// The arguments are not a valid request, or an allocation failed.
pub fn read_words(alloc: Global, words: &[String]) -> Result<Request, UsageFault>
    ensures ok { IfOk result (λ request.
        request_of (map string_bytes words.now) ≡ Ok (request_model request)) }
    ensures err { IfErr result (λ fault. (fault ≡ OutOfMemory)
        ⊎ (request_of (map string_bytes words.now) ≡ Err fault)) }
{
    match words {
        [] => wordless(alloc),
        [_, ..] => given_request(alloc, words),
    }
}

// The request without any arguments.
fn wordless(alloc: Global) -> Result<Request, UsageFault>
    ensures ok { IfOk result (λ request. request_model request ≡ wordless) }
    ensures err { IfErr result (λ fault. fault ≡ OutOfMemory) }
{
    let action = Action::Commands {
        targets: Vec::new(alloc),
        validations: false,
        take: None,
        start: Mark::start(alloc),
    };
    Ok(Request {
        file: String::from_str(alloc, MAIN_FILE)?,
        from_stdin: true,
        dyndep: false,
        action,
    })
}

// The request of arguments as `clap` reads them.
fn given_request(alloc: Global, words: &[String]) -> Result<Request, UsageFault>
    ensures ok { IfOk result (λ request.
        given_request (map string_bytes words.now) ≡ Ok (request_model request)) }
    ensures err { IfErr result (λ fault. (fault ≡ OutOfMemory)
        ⊎ (given_request (map string_bytes words.now) ≡ Err fault)) }
{
    match parse(alloc, words) {
        Ok(matches) => request_in(alloc, &matches),
        Err(fault) => Err(fault),
    }
}

// The request of the matches.
fn request_in(alloc: Global, matches: &ArgMatches<'_>) -> Result<Request, UsageFault>
    ensures ok { IfOk result (λ request.
        request_in (rows_in matches.now) ≡ Ok (request_model request)) }
    ensures err { IfErr result (λ fault. (fault ≡ OutOfMemory)
        ⊎ (request_in (rows_in matches.now) ≡ Err fault)) }
{
    let Some(name) = text_of(matches, "-t") else {
        return Err(UsageFault::Unparsed);
    };
    let action = action_of(alloc, name, matches)?;
    Ok(Request {
        file: String::from_str(alloc, text_of(matches, "-f").unwrap_or(MAIN_FILE))?,
        from_stdin: is_on(matches, "--stdin"),
        dyndep: is_on(matches, "--dyndep"),
        action,
    })
}

// The action of the tool with the given name.
fn action_of(alloc: Global, name: &str, matches: &ArgMatches<'_>) -> Result<Action, UsageFault>
    ensures ok { IfOk result (λ action.
        action_of name.now (rows_in matches.now) ≡ Ok (action_model action)) }
    ensures err { IfErr result (λ fault. (fault ≡ OutOfMemory)
        ⊎ (action_of name.now (rows_in matches.now) ≡ Err fault)) }
{
    let Some(tool) = tool_named(name) else {
        return Err(UsageFault::UnknownTool(Word::new(alloc, name)?));
    };
    match first_foreign(tool, matches) {
        None => asked_of(alloc, tool, name, matches),
        Some(option) => {
            let tool = Word::new(alloc, name)?;
            Err(UsageFault::ForeignOption { option, tool })
        }
    }
}

// The action of a tool, by options that go with it.
fn asked_of(
    alloc: Global,
    tool: Tool,
    name: &str,
    matches: &ArgMatches<'_>,
) -> Result<Action, UsageFault>
    ensures ok { IfOk result (λ action.
        asked_of tool name.now (rows_in matches.now) ≡ Ok (action_model action)) }
    ensures err { IfErr result (λ fault. (fault ≡ OutOfMemory)
        ⊎ (asked_of tool name.now (rows_in matches.now) ≡ Err fault)) }
{
    match tool {
        Tool::Commands => commands_of(alloc, matches),
        Tool::Inputs => inputs_of(alloc, matches),
        Tool::Targets => targets_of(alloc, name, matches),
        Tool::Query => query_of(alloc, name, words_in(matches)),
        Tool::Rules => rules_of(alloc, name, is_on(matches, "-d"), words_in(matches)),
        Tool::Compdb => compdb_of(alloc, matches),
    }
}

// The action of `commands`.
fn commands_of(alloc: Global, matches: &ArgMatches<'_>) -> Result<Action, UsageFault>
    ensures ok { IfOk result (λ action.
        commands_of (rows_in matches.now) ≡ Ok (action_model action)) }
    ensures err { IfErr result (λ fault. (fault ≡ OutOfMemory)
        ⊎ (commands_of (rows_in matches.now) ≡ Err fault)) }
{
    if is_on(matches, "-s") {
        let targets = owned(alloc, words_in(matches))?;
        return Ok(Action::SingleCommands { targets });
    }
    let validations = is_on(matches, "--validations");
    let take = take_of(alloc, text_of(matches, "--take"))?;
    let start = start_of(alloc, validations, text_of(matches, "--resume"))?;
    Ok(Action::Commands {
        targets: owned(alloc, words_in(matches))?,
        validations,
        take,
        start,
    })
}

// The number of `--take`.
fn take_of(alloc: Global, text: Option<&str>) -> Result<Option<u64>, UsageFault>
    ensures ok { IfOk result (λ take. take_of (option_copied text.entry) ≡ Ok take) }
    ensures err { IfErr result (λ fault. (fault ≡ OutOfMemory)
        ⊎ (take_of (option_copied text.entry) ≡ Err fault)) }
{
    let Some(text) = text else {
        return Ok(None);
    };
    match number_in(text) {
        Some(number) => Ok(Some(number)),
        None => Err(UsageFault::BadNumber(Word::new(alloc, text)?)),
    }
}

// The mark of `--resume`.
fn start_of(alloc: Global, validations: bool, text: Option<&str>) -> Result<Mark, UsageFault>
    ensures ok { IfOk result (λ start. start_of validations (option_copied text.entry) ≡ Ok start) }
    ensures err { IfErr result (λ fault. (fault ≡ OutOfMemory)
        ⊎ (start_of validations (option_copied text.entry) ≡ Err fault)) }
{
    let Some(text) = text else {
        return Ok(Mark::start(alloc));
    };
    let Some(mark) = mark_in(validations, text) else {
        return Err(UsageFault::BadMark(Word::new(alloc, text)?));
    };
    match Mark::read(alloc, mark) {
        Ok(mark) => Ok(mark),
        Err(MarkFault::BadMark) => Err(UsageFault::BadMark(Word::new(alloc, text)?)),
        Err(MarkFault::MarkOutOfRange) => unreachable!(),
        Err(MarkFault::OutOfMemory) => Err(UsageFault::OutOfMemory),
    }
}

// The part of a run's mark that is the mark of its walk; a run's mark begins with `v` if the run
// follows validations.
fn mark_in(validations: bool, text: &str) -> Option<&str>
    ensures some { IfSome result (λ mark.
        given_run_mark validations text.now ≡ given_mark mark.now) }
    ensures none { IfNone result (given_run_mark validations text.now ≡ None) }
{
    if validations {
        text.strip_prefix('v')
    } else {
        Some(text)
    }
}

// The action of `inputs`.
fn inputs_of(alloc: Global, matches: &ArgMatches<'_>) -> Result<Action, UsageFault>
    ensures ok { IfOk result (λ action.
        inputs_of (rows_in matches.now) ≡ Ok (action_model action)) }
    ensures err { IfErr result (λ fault. fault ≡ OutOfMemory) }
{
    Ok(Action::Inputs {
        targets: owned(alloc, words_in(matches))?,
        validations: is_on(matches, "--validations"),
        style: style_of(matches),
    })
}

// How `inputs` writes its list.
fn style_of(matches: &ArgMatches<'_>) -> InputsStyle
    ensures { result ≡ style_of (rows_in matches.now) }
{
    InputsStyle {
        dependency_order: is_on(matches, "--dependency-order"),
        shell_escape: !is_on(matches, "--no-shell-escape"),
        zero: is_on(matches, "--print0"),
    }
}

// The action of `targets`.
fn targets_of(alloc: Global, name: &str, matches: &ArgMatches<'_>) -> Result<Action, UsageFault>
    ensures ok { IfOk result (λ action.
        targets_of name.now (rows_in matches.now) ≡ Ok (action_model action)) }
    ensures err { IfErr result (λ fault. (fault ≡ OutOfMemory)
        ⊎ (targets_of name.now (rows_in matches.now) ≡ Err fault)) }
{
    Ok(Action::Targets {
        view: view_of(alloc, name, words_in(matches))?,
    })
}

// The list of `targets` by its arguments.
fn view_of(alloc: Global, name: &str, words: Option<&[&str]>) -> Result<TargetsView, UsageFault>
    ensures ok { IfOk result (λ view. view_of name.now (word_strings words.entry) ≡ Ok view) }
    ensures err { IfErr result (λ fault. (fault ≡ OutOfMemory)
        ⊎ (view_of name.now (word_strings words.entry) ≡ Err fault)) }
{
    match words {
        None | Some([]) => Ok(TargetsView::Depth(1)),
        Some([word]) => view_of_word(alloc, name, word),
        Some([word, value]) => view_of_pair(alloc, name, word, value),
        Some([_, _, _, ..]) => Err(UsageFault::BadWords(Word::new(alloc, name)?)),
    }
}

// The list of `targets` by one argument.
fn view_of_word(alloc: Global, name: &str, word: &str) -> Result<TargetsView, UsageFault>
    ensures ok { IfOk result (λ view. view_of name.now (word.now ∷ []) ≡ Ok view) }
    ensures err { IfErr result (λ fault. (fault ≡ OutOfMemory)
        ⊎ (view_of name.now (word.now ∷ []) ≡ Err fault)) }
{
    match word {
        "depth" => Ok(TargetsView::Depth(1)),
        "all" => Ok(TargetsView::All),
        "rule" => Ok(TargetsView::Sources),
        _ => Err(UsageFault::BadWords(Word::new(alloc, name)?)),
    }
}

// The list of `targets` by an argument and its value.
fn view_of_pair(
    alloc: Global,
    name: &str,
    word: &str,
    value: &str,
) -> Result<TargetsView, UsageFault>
    ensures ok { IfOk result (λ view.
        view_of name.now (word.now ∷ value.now ∷ []) ≡ Ok view) }
    ensures err { IfErr result (λ fault. (fault ≡ OutOfMemory)
        ⊎ (view_of name.now (word.now ∷ value.now ∷ []) ≡ Err fault)) }
{
    match word {
        "depth" => depth_of(alloc, value),
        "rule" => Ok(TargetsView::OfRule(Name::new(alloc, value.as_bytes())?)),
        _ => Err(UsageFault::BadWords(Word::new(alloc, name)?)),
    }
}

// The roots, with the given number of levels.
fn depth_of(alloc: Global, text: &str) -> Result<TargetsView, UsageFault>
    ensures ok { IfOk result (λ view. depth_of text.now ≡ Ok view) }
    ensures err { IfErr result (λ fault. (fault ≡ OutOfMemory)
        ⊎ (depth_of text.now ≡ Err fault)) }
{
    match depth_in(text) {
        Some(depth) => Ok(TargetsView::Depth(depth)),
        None => Err(UsageFault::BadNumber(Word::new(alloc, text)?)),
    }
}

// The action of `query`.
fn query_of(alloc: Global, name: &str, words: Option<&[&str]>) -> Result<Action, UsageFault>
    ensures ok { IfOk result (λ action.
        query_of name.now (word_strings words.entry) ≡ Ok (action_model action)) }
    ensures err { IfErr result (λ fault. (fault ≡ OutOfMemory)
        ⊎ (query_of name.now (word_strings words.entry) ≡ Err fault)) }
{
    match words {
        None | Some([]) => Err(UsageFault::BadWords(Word::new(alloc, name)?)),
        Some([_, ..]) => Ok(Action::Query {
            files: owned(alloc, words)?,
        }),
    }
}

// The action of `rules`.
fn rules_of(
    alloc: Global,
    name: &str,
    descriptions: bool,
    words: Option<&[&str]>,
) -> Result<Action, UsageFault>
    ensures ok { IfOk result (λ action.
        rules_of name.now descriptions (word_strings words.entry) ≡ Ok (action_model action)) }
    ensures err { IfErr result (λ fault. (fault ≡ OutOfMemory)
        ⊎ (rules_of name.now descriptions (word_strings words.entry) ≡ Err fault)) }
{
    match words {
        None | Some([]) => Ok(Action::Rules { descriptions }),
        Some([_, ..]) => Err(UsageFault::BadWords(Word::new(alloc, name)?)),
    }
}

// The action of `compdb`.
fn compdb_of(alloc: Global, matches: &ArgMatches<'_>) -> Result<Action, UsageFault>
    ensures ok { IfOk result (λ action.
        compdb_of (rows_in matches.now) ≡ Ok (action_model action)) }
    ensures err { IfErr result (λ fault. fault ≡ OutOfMemory) }
{
    Ok(Action::Compdb {
        rules: owned(alloc, words_in(matches))?,
        directory: String::from_str(alloc, text_of(matches, "--directory").unwrap_or(HERE))?,
        expand: is_on(matches, "-x"),
    })
}

// The arguments, as owned strings.
fn owned(alloc: Global, words: Option<&[&str]>) -> Result<Vec<String>, AllocError>
    ensures { IfOk result (λ strings. map string_bytes strings.items ≡ word_strings words.entry) }
{
    let mut strings = Vec::new(alloc);
    let Some(words) = words else {
        return Ok(strings);
    };
    'words: for word in words {
        strings.push(String::from_str(alloc, word)?)?;
    }
    Ok(strings)
}
