//! What the commands of each rule took.

ghost use Rattle.std.specs.Prelude.{◌≡◌, ◌<◌, ◌≤◌, ◌*◌, ◌^◌, All, IfOk, OnOk, length, map};
ghost use Rattle.nj_times.specs.Cited.{AreSlowestRules, IsSmall, all_with_edge, of_one, rule_at, rules_of, slower, time_at, times_in, with_edge};

use crate::edge_times::time_at;
use nj_edges::EdgeNo;
use nj_names::{HashKeys, Names};
use std::alloc::{AllocError, Global};
use std::cmp::Reverse;

/// What the commands of a rule took.
#[derive(Clone, Copy)]
pub(crate) struct RuleTimes {
    /// The first command.
    pub(crate) first: EdgeNo,
    /// The number of commands.
    pub(crate) commands: usize,
    /// The sum of their durations, in milliseconds.
    pub(crate) sum: u128,
    /// The command that took longest; of several the first.
    pub(crate) slowest: EdgeNo,
}

/// What the edges of each rule took: the rule whose edges took longest first, and rules that took
/// as long in the order of their first edges. `rules` has the rule of each edge of the graph.
pub(crate) fn slowest_rules(
    alloc: Global,
    rules: &[&[u8]],
    durations: &[Option<u64>],
    edges: &[EdgeNo],
) -> Result<Vec<RuleTimes>, AllocError>
    requires { All (λ edge. edge.0 < length rules.now) edges.now }
    ensures slowest { IfOk result (λ times. AreSlowestRules (map (λ rule. rule.now) rules.now)
        durations.now (map (λ edge. edge.0) edges.now)
        (map (λ times. times.first.0) times.items)) }
    ensures held { IfOk result (λ times. All (λ one.
        one ≡ times_in (map (λ rule. rule.now) rules.now)
        durations.now (map (λ edge. edge.0) edges.now)
        (rule_at (map (λ rule. rule.now) rules.now) one.first.0)) times.items) }
    ensures known { IfOk result (λ times.
        All (IsSmall (length rules.now) (length edges.now)) times.items) }
{
    let mut times = rule_times(alloc, rules, durations, edges)?;
    times.sort_by_key(|times| (Reverse(times.sum), times.first.0))?;
    Ok(times)
}

// What the edges of each rule took, in the order of their first edges.
fn rule_times(
    alloc: Global,
    rules: &[&[u8]],
    durations: &[Option<u64>],
    edges: &[EdgeNo],
) -> Result<Vec<RuleTimes>, AllocError>
    requires { All (λ edge. edge.0 < length rules.now) edges.now }
    ensures held { IfOk result (λ times. times.items
        ≡ map (times_in (map (λ rule. rule.now) rules.now) durations.now (map (λ edge. edge.0) edges.now))
        (rules_of (map (λ rule. rule.now) rules.now) (map (λ edge. edge.0) edges.now))) }
    ensures small { IfOk result (λ times.
        All (IsSmall (length rules.now) (length edges.now)) times.items) }
{
    let mut names = Names::new(alloc, HashKeys::default());
    let mut times = Vec::new(alloc);
    'edges: for edge in edges {
        let number = names.add(rules[edge.0])?;
        add_edge(&mut times, number, durations, *edge)?;
    }
    Ok(times)
}

// Adds an edge to the times of the rule with the given number, which may be new.
fn add_edge(
    times: &mut Vec<RuleTimes>,
    number: usize,
    durations: &[Option<u64>],
    edge: EdgeNo,
) -> Result<(), AllocError>
    requires { All (λ one. (one.commands < 2 ^ 63) × (one.sum ≤ one.commands * 2 ^ 64))
        times.old.items }
    ensures added { OnOk result (times.new.items
        ≡ all_with_edge durations.now times.old.items number edge.0) }
    ensures short { time_at durations.now edge.0 < 2 ^ 64 }
{
    if number < times.len() {
        times[number] = with_edge(durations, times[number], edge);
        return Ok(());
    }
    times.push(of_one(durations, edge))?;
    Ok(())
}

// What one edge took.
fn of_one(durations: &[Option<u64>], edge: EdgeNo) -> RuleTimes
    ensures one { result ≡ of_one durations.now edge.0 }
    ensures short { time_at durations.now edge.0 < 2 ^ 64 }
{
    RuleTimes {
        first: edge,
        commands: 1,
        sum: u128::from(time_at(durations, edge)),
        slowest: edge,
    }
}

// What the edges of a rule took, with one more edge.
fn with_edge(durations: &[Option<u64>], times: RuleTimes, edge: EdgeNo) -> RuleTimes
    requires few { times.commands < 2 ^ 63 }
    requires small { times.sum ≤ times.commands * 2 ^ 64 }
    ensures more { result ≡ with_edge durations.now times edge.0 }
    ensures short { time_at durations.now edge.0 < 2 ^ 64 }
{
    RuleTimes {
        first: times.first,
        commands: times.commands + 1,
        sum: times.sum + u128::from(time_at(durations, edge)),
        slowest: slower(durations, times.slowest, edge),
    }
}

// Of two edges, the one that took longer; the first one if they took as long.
fn slower(durations: &[Option<u64>], edge: EdgeNo, other: EdgeNo) -> EdgeNo
    ensures { result.0 ≡ slower durations.now edge.0 other.0 }
{
    if time_at(durations, edge) < time_at(durations, other) {
        other
    } else {
        edge
    }
}
