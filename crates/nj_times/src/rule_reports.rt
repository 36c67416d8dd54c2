//! What is written of the times of rules.

ghost use Rattle.std.specs.Prelude.{◌≡◌, ◌++◌, ◌<◌, All, IfOk, OnOk, false, length, map, true};
ghost use Rattle.nj_times.specs.Cited.{IsRuleReport, decimal, flat_map, path_at, rule_text, slowest_members, summary_of, times_line};

use crate::edge_times::{duration_at, durations};
use crate::path::critical_path;
use crate::reports::{
    commands_in, needed_edges, output_of, push_edge, push_number, push_seconds, push_string,
    push_value, summary_of,
};
use crate::rule_times::{RuleTimes, slowest_rules};
use nj_build_log::BuildLog;
use nj_edges::{EdgeGraph, EdgeNo, FileNo};
use std::alloc::{AllocError, Global};

/// The report on the edges that files need, by rules: the first line of [`report`](crate::report),
/// and then a line for each rule that one of the commands has. It has the sum of their durations,
/// the rule, the number of its commands, and the slowest of them with its duration. The rule with
/// the greatest sum comes first; of rules with the same sum, the one with the first command in the
/// manifest. With `is_json` the lines are objects of JSON.
///
/// `rules` has the name of each edge's rule.
///
/// Takes time in proportion to all edges and their inputs, and to the needed edges times the
/// logarithm of their number. Fails only if an allocation fails.
pub fn rule_report(
    alloc: Global,
    graph: &EdgeGraph,
    rules: &[&[u8]],
    log: &BuildLog,
    files: &[FileNo],
    is_json: bool,
) -> Result<Vec<u8>, AllocError>
    requires files { All (λ file. file.0 < length graph.now.files) files.now }
    requires rules { length rules.now ≡ length graph.now.edges }
    ensures { IfOk result (λ text. IsRuleReport graph.now.edges (map (λ rule. rule.now) rules.now)
        log.now.lines (map (path_at graph.now.files) files.now) is_json text.items) }
{
    let durations = durations(alloc, graph, log)?;
    let needed = needed_edges(alloc, graph, files)?;
    let commands = commands_in(alloc, graph, &needed)?;
    let path = critical_path(alloc, graph, &durations, &needed)?;
    let shown = slowest_rules(alloc, rules, &durations, &commands)?;
    rules_written(
        alloc, graph, rules, &durations, is_json, &commands, &path, &shown,
    )
}

// The text of a report by rules.
fn rules_written(
    alloc: Global,
    graph: &EdgeGraph,
    rules: &[&[u8]],
    durations: &[Option<u64>],
    is_json: bool,
    commands: &[EdgeNo],
    path: &[EdgeNo],
    shown: &[RuleTimes],
) -> Result<Vec<u8>, AllocError>
    requires { All (λ one. (one.first.0 < length rules.now)
        × (one.slowest.0 < length graph.now.edges)) shown.now }
    ensures { IfOk result (λ text. text.items ≡ summary_of durations.now is_json
        (map (λ edge. edge.0) commands.now) (map (λ edge. edge.0) path.now)
        ++ flat_map (times_line graph.now.edges (map (λ rule. rule.now) rules.now)
        durations.now is_json) shown.now) }
{
    let mut text = summary_of(alloc, durations, is_json, commands, path)?;
    push_rules(&mut text, graph, rules, durations, is_json, shown)?;
    Ok(text)
}

// Appends a line for each of the rules.
fn push_rules(
    text: &mut Vec<u8>,
    graph: &EdgeGraph,
    rules: &[&[u8]],
    durations: &[Option<u64>],
    is_json: bool,
    shown: &[RuleTimes],
) -> Result<(), AllocError>
    requires { All (λ one. (one.first.0 < length rules.now)
        × (one.slowest.0 < length graph.now.edges)) shown.now }
    ensures { OnOk result (text.new.items ≡ text.old.items
        ++ flat_map (times_line graph.now.edges (map (λ rule. rule.now) rules.now)
        durations.now is_json) shown.now) }
{
    'rules: for times in shown {
        let rule = rules[times.first.0];
        push_rule(text, graph, durations, is_json, rule, *times)?;
    }
    Ok(())
}

// Appends the line of a rule.
fn push_rule(
    text: &mut Vec<u8>,
    graph: &EdgeGraph,
    durations: &[Option<u64>],
    is_json: bool,
    rule: &[u8],
    times: RuleTimes,
) -> Result<(), AllocError>
    requires { times.slowest.0 < length graph.now.edges }
    ensures { OnOk result (text.new.items ≡ text.old.items
        ++ rule_text graph.now.edges durations.now is_json rule.now times.commands times.sum
        times.slowest.0) }
{
    if is_json {
        push_rule_object(text, graph, durations, rule, times)
    } else {
        push_rule_words(text, graph, durations, rule, times)
    }
}

// Appends the line of a rule for people.
fn push_rule_words(
    text: &mut Vec<u8>,
    graph: &EdgeGraph,
    durations: &[Option<u64>],
    rule: &[u8],
    times: RuleTimes,
) -> Result<(), AllocError>
    requires { times.slowest.0 < length graph.now.edges }
    ensures { OnOk result (text.new.items ≡ text.old.items
        ++ rule_text graph.now.edges durations.now false rule.now times.commands times.sum
        times.slowest.0) }
{
    push_seconds(text, b"", times.sum)?;
    text.extend_from_slice(b" s ")?;
    text.extend_from_slice(rule)?;
    push_number(text, b", commands: ", times.commands as u128)?;
    text.extend_from_slice(b", slowest: ")?;
    push_edge(text, graph, durations, false, times.slowest)
}

// Appends the line of a rule in JSON.
fn push_rule_object(
    text: &mut Vec<u8>,
    graph: &EdgeGraph,
    durations: &[Option<u64>],
    rule: &[u8],
    times: RuleTimes,
) -> Result<(), AllocError>
    requires { times.slowest.0 < length graph.now.edges }
    ensures { OnOk result (text.new.items ≡ text.old.items
        ++ rule_text graph.now.edges durations.now true rule.now times.commands times.sum
        times.slowest.0) }
{
    text.extend_from_slice(b"{\"rule\":")?;
    push_string(text, rule)?;
    text.extend_from_slice(b",\"commands\":")?;
    push_decimal(text, times.commands as u128)?;
    text.extend_from_slice(b",\"sum\":")?;
    push_decimal(text, times.sum)?;
    push_slowest(text, graph, durations, times.slowest)
}

// Appends the rest of the line of a rule in JSON: its slowest command.
fn push_slowest(
    text: &mut Vec<u8>,
    graph: &EdgeGraph,
    durations: &[Option<u64>],
    slowest: EdgeNo,
) -> Result<(), AllocError>
    requires { slowest.0 < length graph.now.edges }
    ensures { OnOk result (text.new.items ≡ text.old.items
        ++ slowest_members graph.now.edges durations.now slowest.0) }
{
    text.extend_from_slice(b",\"milliseconds\":")?;
    push_value(text, duration_at(durations, slowest))?;
    text.extend_from_slice(b",\"output\":")?;
    push_string(text, output_of(graph, slowest))?;
    text.extend_from_slice(b"}\n")?;
    Ok(())
}

// Appends a number.
fn push_decimal(text: &mut Vec<u8>, number: u128) -> Result<(), AllocError>
    ensures { OnOk result (text.new.items ≡ text.old.items ++ decimal number) }
{
    push_number(text, b"", number)
}
