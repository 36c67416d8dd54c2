//! The answer to `times`.

ghost use Rattle.std.specs.Prelude.{◌≡◌, ◌<◌, All, IfErr, IfOk, None, Some, length, map};
ghost use Rattle.nj_ask.specs.Cited.{AnswersTimes, AnswersTimings, FailsBy, Gives, IsReportBy, IsRuleReport, OfStatements, Usage, edge_rules, edges_of, files_of, path_at, program_line, times_misuse, times_model};

use crate::answer::Answer;
use crate::dead::answer_dead;
use crate::depfiles::check_depfiles;
use crate::discovered::DiscoveredGraph;
use crate::failure::Failure;
use crate::keys::targets_asked;
use crate::shape::caveat_lines;
use crate::status::Status;
use nj_build_log::BuildLog;
use nj_graph::{EdgeNo, FileNo, FileTimes, Graph};
use nj_needs::grow_targets;
use nj_questions::TimesOptions;
use nj_times::{report, rule_report};
use std::alloc::{AllocError, Global};

/// Refuses options that exclude each other.
pub(crate) fn check_times(alloc: Global, options: &TimesOptions) -> Result<(), Failure>
    ensures allowed { IfOk result (λ _. times_misuse (times_model options.now) ≡ None) }
    ensures refused { IfErr result (FailsBy Usage (λ line.
        times_misuse (times_model options.now) ≡ Some line)) }
{
    let has_top = options.top.is_some();
    if has_top && options.by_rule {
        return Err(excluded(alloc, b"--top excludes --by-rule"));
    }
    if has_top && options.dead {
        return Err(excluded(alloc, b"--top excludes --dead"));
    }
    if options.by_rule && options.dead {
        return Err(excluded(alloc, b"--by-rule excludes --dead"));
    }
    Ok(())
}

// The failure that reports options that exclude each other.
fn excluded(alloc: Global, text: &[u8]) -> Failure
    ensures { FailsBy Usage (λ line. line ≡ program_line text.now) result }
{
    Failure::in_words(alloc, b"", text, b"", Status::Usage)
}

/// Where the time of a build of the targets went; or which outputs of the log are dead.
///
/// # Errors
///
/// Those of `answer_times`, and of `answer_dead`.
pub(crate) fn answer_timings<T: FileTimes>(
    alloc: Global,
    known: &DiscoveredGraph,
    log: &BuildLog,
    times: &T,
    options: &TimesOptions,
) -> Result<Answer, Failure>
    ensures { OfStatements known.now.graph (λ entries. Gives (AnswersTimings options.now.dead
        known.now entries log.now (T.times times.now) (times_model options.now)) result) }
{
    if options.dead {
        return answer_dead(alloc, known, log, times, options.json);
    }
    answer_times(alloc, known, log, options)
}

// Where the time of a build of the targets went.
//
// Errors: `Refused` if a word names no file, or if a needed depfile has a fault; and `OutOfMemory`
// if an allocation failed.
fn answer_times(
    alloc: Global,
    known: &DiscoveredGraph,
    log: &BuildLog,
    options: &TimesOptions,
) -> Result<Answer, Failure>
    ensures { OfStatements known.now.graph (λ entries.
        Gives (AnswersTimes known.now entries log.now (times_model options.now)) result) }
{
    let targets = match targets_asked(alloc, known, &options.targets) {
        Ok(targets) => targets,
        Err(failure) => return Err(failure),
    };
    let files = grow_targets(alloc, &known.graph, targets.numbers())?;
    match check_depfiles(alloc, known, &files) {
        Ok(()) => {}
        Err(failure) => return Err(failure),
    }
    let output = report_asked(alloc, &known.graph, log, &files, options)?;
    let warnings = caveat_lines(alloc, known)?;
    Ok(Answer {
        output,
        warnings,
        looks: false,
    })
}

// The report on the edges that files need, by rules or not.
fn report_asked(
    alloc: Global,
    graph: &Graph,
    log: &BuildLog,
    files: &[FileNo],
    options: &TimesOptions,
) -> Result<Vec<u8>, AllocError>
    requires { All (λ file. file.0 < length (files_of graph.now)) files.now }
    ensures { IfOk result (λ text. IsReportBy options.now.by_rule graph.now log.now.lines
        (map (path_at (files_of graph.now)) files.now) (times_model options.now) text.items) }
{
    if options.by_rule {
        return report_by_rule(alloc, graph, log, files, options.json);
    }
    report(alloc, graph, log, files, options.top, options.json)
}

// The report by rules.
fn report_by_rule(
    alloc: Global,
    graph: &Graph,
    log: &BuildLog,
    files: &[FileNo],
    is_json: bool,
) -> Result<Vec<u8>, AllocError>
    requires { All (λ file. file.0 < length (files_of graph.now)) files.now }
    ensures { IfOk result (λ text. IsRuleReport (edges_of graph.now) (edge_rules graph.now)
        log.now.lines (map (path_at (files_of graph.now)) files.now) is_json text.items) }
{
    let rules = edge_rules(alloc, graph)?;
    rule_report(alloc, graph, &rules, log, files, is_json)
}

// The name of each edge's rule.
fn edge_rules(alloc: Global, graph: &Graph) -> Result<Vec<&[u8]>, AllocError>
    ensures { IfOk result (λ rules. map (λ rule. rule.now) rules.items ≡ edge_rules graph.now) }
{
    let mut rules = Vec::with_capacity(alloc, graph.edge_count())?;
    'edges: for number in 0..graph.edge_count() {
        rules.push(graph.rule_name(EdgeNo(number)))?;
    }
    Ok(rules)
}
