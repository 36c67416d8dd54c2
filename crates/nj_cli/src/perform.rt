//! Performs a run's action on the graph of its files.

ghost use Rattle.std.specs.Prelude.{◌≡◌, map, string_bytes};
ghost use Rattle.nj_cli.specs.Cited.{OfStatements, action_model, commands, single_commands, follows_validations, ReturnsFor};
ghost use Rattle.nj_requests.specs.Actions as ask;

use crate::run_targets::targets_of;
use nj_graph::Graph;
use nj_needs::{Mark, Needs};
use nj_requests::{Action, InputsStyle, TargetsView};
use nj_tools::{
    Error, Sink, write_commands, write_compdb, write_inputs, write_query, write_rules,
    write_single_commands, write_targets,
};
use std::alloc::Global;

/// Writes the requested output. Returns the mark at which the run stopped, if it stopped before its
/// end.
pub(crate) fn perform<O: Sink>(
    alloc: Global,
    graph: &Graph,
    action: &Action,
    out: &mut O,
) -> Result<Option<Mark>, Error>
    ensures { OfStatements graph.now (λ entries.
        ReturnsFor entries (action_model action.now) (O.state out.old) (O.state out.new) result) }
{
    match action {
        Action::Commands {
            targets,
            validations,
            take,
            start,
        } => run_commands(alloc, graph, targets, *validations, *take, start, out),
        Action::SingleCommands { targets } => run_single_commands(alloc, graph, targets, out),
        Action::Inputs {
            targets,
            validations,
            style,
        } => run_inputs(alloc, graph, targets, *validations, *style, out),
        Action::Targets { view } => run_targets(alloc, graph, view, out),
        Action::Query { files } => run_query(alloc, graph, files, out),
        Action::Rules { descriptions } => run_rules(alloc, graph, *descriptions, out),
        Action::Compdb {
            rules,
            directory,
            expand,
        } => run_compdb(alloc, graph, rules, directory, *expand, out),
    }
}

/// Whether validations are requested with the targets.
pub(crate) fn follows_validations(action: &Action) -> bool
    ensures { result ≡ follows_validations (action_model action.now) }
{
    match action {
        Action::Commands { validations, .. } | Action::Inputs { validations, .. } => *validations,
        _ => false,
    }
}

// The commands that the targets need, from a mark on.
fn run_commands<O: Sink>(
    alloc: Global,
    graph: &Graph,
    words: &[String],
    validations: bool,
    take: Option<u64>,
    start: &Mark,
    out: &mut O,
) -> Result<Option<Mark>, Error>
    ensures { OfStatements graph.now (λ entries.
        ReturnsFor entries (commands (map string_bytes words.now) validations take start.now)
        (O.state out.old) (O.state out.new) result) }
{
    let targets = targets_of(alloc, graph, words, validations)?;
    let mut needs = Needs::resume(alloc, graph, &targets, start)?;
    let mark = write_commands(alloc, graph, &mut needs, take, out)?;
    Ok(mark)
}

// The commands of the edges that make the targets.
fn run_single_commands<O: Sink>(
    alloc: Global,
    graph: &Graph,
    words: &[String],
    out: &mut O,
) -> Result<Option<Mark>, Error>
    ensures { OfStatements graph.now (λ entries.
        ReturnsFor entries (single_commands (map string_bytes words.now))
        (O.state out.old) (O.state out.new) result) }
{
    let targets = targets_of(alloc, graph, words, false)?;
    write_single_commands(alloc, graph, &targets, out)?;
    Ok(None)
}

// The inputs that the targets need.
fn run_inputs<O: Sink>(
    alloc: Global,
    graph: &Graph,
    words: &[String],
    validations: bool,
    style: InputsStyle,
    out: &mut O,
) -> Result<Option<Mark>, Error>
    ensures { OfStatements graph.now (λ entries.
        ReturnsFor entries (ask.inputs (map string_bytes words.now) validations style)
        (O.state out.old) (O.state out.new) result) }
{
    let targets = targets_of(alloc, graph, words, validations)?;
    write_inputs(alloc, graph, &targets, style, out)?;
    Ok(None)
}

// Lists of targets.
fn run_targets<O: Sink>(
    alloc: Global,
    graph: &Graph,
    view: &TargetsView,
    out: &mut O,
) -> Result<Option<Mark>, Error>
    ensures { OfStatements graph.now (λ entries.
        ReturnsFor entries (ask.targets view.now) (O.state out.old) (O.state out.new) result) }
{
    write_targets(alloc, graph, view, out)?;
    Ok(None)
}

// The edges that make files, with their inputs, and the outputs that are made from the files.
fn run_query<O: Sink>(
    alloc: Global,
    graph: &Graph,
    words: &[String],
    out: &mut O,
) -> Result<Option<Mark>, Error>
    ensures { OfStatements graph.now (λ entries.
        ReturnsFor entries (ask.query (map string_bytes words.now))
        (O.state out.old) (O.state out.new) result) }
{
    let files = graph.pick_named(alloc, words)?;
    write_query(alloc, graph, &files, out)?;
    Ok(None)
}

// The rules of the main file.
fn run_rules<O: Sink>(
    alloc: Global,
    graph: &Graph,
    descriptions: bool,
    out: &mut O,
) -> Result<Option<Mark>, Error>
    ensures { OfStatements graph.now (λ entries.
        ReturnsFor entries (ask.rules descriptions) (O.state out.old) (O.state out.new) result) }
{
    write_rules(alloc, graph, descriptions, out)?;
    Ok(None)
}

// The compilation database.
fn run_compdb<O: Sink>(
    alloc: Global,
    graph: &Graph,
    rules: &[String],
    directory: &str,
    expand: bool,
    out: &mut O,
) -> Result<Option<Mark>, Error>
    ensures { OfStatements graph.now (λ entries.
        ReturnsFor entries (ask.compdb (map string_bytes rules.now) directory.now expand)
        (O.state out.old) (O.state out.new) result) }
{
    write_compdb(alloc, graph, directory, rules, expand, out)?;
    Ok(None)
}
