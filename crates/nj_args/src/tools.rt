//! The tools, and which options go with which.

ghost use Rattle.std.specs.Prelude.{◌≡◌, find};
ghost use Rattle.nj_args.specs.Cited.{goes_with, first_foreign, rows_in, tool_named, is_given, is_foreign};

use crate::fields::{is_on, text_of};
use crate::usage_fault::ToolOption;
use clap::ArgMatches;

/// A tool ("Extra tools").
#[derive(Clone, Copy)]
pub enum Tool {
    Commands,
    Inputs,
    Targets,
    Query,
    Rules,
    Compdb,
}

/// The tool with the given name.
pub fn tool_named(name: &str) -> Option<Tool>
    ensures { result ≡ tool_named name.now }
{
    match name {
        "commands" => Some(Tool::Commands),
        "inputs" => Some(Tool::Inputs),
        "targets" => Some(Tool::Targets),
        "query" => Some(Tool::Query),
        "rules" => Some(Tool::Rules),
        "compdb" => Some(Tool::Compdb),
        _ => None,
    }
}

/// The first option, in the order of [`ToolOption`], that was given and does not go with the tool.
pub fn first_foreign(tool: Tool, matches: &ArgMatches<'_>) -> Option<ToolOption>
    ensures { result ≡ first_foreign tool (rows_in matches.now) }
{
    let options = [
        ToolOption::Single,
        ToolOption::Descriptions,
        ToolOption::Expand,
        ToolOption::Directory,
        ToolOption::Take,
        ToolOption::Resume,
        ToolOption::Validations,
        ToolOption::DependencyOrder,
        ToolOption::NoShellEscape,
        ToolOption::Print0,
    ];
    first_foreign_of(&options, tool, matches)
}

// The first of the options that was given and does not go with the tool.
fn first_foreign_of(
    options: &[ToolOption],
    tool: Tool,
    matches: &ArgMatches<'_>,
) -> Option<ToolOption>
    ensures { result ≡ find (is_foreign tool (rows_in matches.now)) options.now }
{
    options
        .iter()
        .copied()
        .find(|option| is_foreign(tool, matches, *option))
}

// Whether an option was given and does not go with the tool.
fn is_foreign(tool: Tool, matches: &ArgMatches<'_>, option: ToolOption) -> bool
    ensures { result ≡ is_foreign tool (rows_in matches.now) option }
{
    is_given(matches, option) && !goes_with(tool, is_on(matches, "-s"), option)
}

// Whether an option was given.
fn is_given(matches: &ArgMatches<'_>, option: ToolOption) -> bool
    ensures { result ≡ is_given (rows_in matches.now) option }
{
    match option {
        ToolOption::Directory | ToolOption::Take | ToolOption::Resume => text_of(
            matches,
            option.text(),
        ).is_some(),
        _ => is_on(matches, option.text()),
    }
}

// Whether an option goes with the tool.
fn goes_with(tool: Tool, is_single: bool, option: ToolOption) -> bool
    ensures { result ≡ goes_with tool is_single option }
{
    match (tool, option) {
        (Tool::Commands, ToolOption::Single) => true,
        (Tool::Commands, ToolOption::Take | ToolOption::Resume | ToolOption::Validations) =>
            !is_single,
        (
            Tool::Inputs,
            ToolOption::Validations
            | ToolOption::DependencyOrder
            | ToolOption::NoShellEscape
            | ToolOption::Print0,
        ) => true,
        (Tool::Rules, ToolOption::Descriptions) => true,
        (Tool::Compdb, ToolOption::Expand | ToolOption::Directory) => true,
        _ => false,
    }
}
