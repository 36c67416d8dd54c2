//! What a deps log says about an edge.

ghost use Rattle.std.specs.Prelude.{◌≡◌, ℕ, List, ◌<◌, ◌++◌, [], length, map, option_map, slice_index, IfOk, IfSome, OnOk};
ghost use Rattle.nj_discovered.specs.Cited.{IsOfPaths, numbers_of, output_model, edge_at, doubt_of, is_newer, record_of, IsByLog, Finds, AreBelow, AreCleanNumbers};

use crate::names::add_clean;
use crate::outputs::first_output;
use crate::times::{FileTimes, TimeFound, time_of};
use crate::verdict::{Unknown, Verdict};
use nj_deps::{DepsLog, LoggedOutput, PathNo};
use nj_edges::{EdgeGraph, EdgeNo};
use nj_names::Names;
use std::alloc::{AllocError, Global};

/// Records from here on have, as numbers with a sign, a time before 1970.
const BEFORE_1970: u64 = 1 << 63;

// The numbers of the clean paths of a log, by its own numbers; they are added to the names.
pub(crate) fn numbers_of_paths(
    alloc: Global,
    names: &mut Names,
    log: &DepsLog,
) -> Result<Vec<u32>, AllocError>
    requires { names.old ≡ [] }
    ensures { IfOk result (λ numbers.
        AreCleanNumbers log.now.paths names.new numbers.items) }
{
    let mut buffer = Vec::new(alloc);
    let mut numbers = Vec::with_capacity(alloc, log.path_count())?;
    'paths: for path in log.paths() {
        add_clean(names, &mut numbers, &mut buffer, path)?;
    }
    Ok(numbers)
}

// What the log says about an edge: appends the numbers of its inputs, if they are known.
pub(crate) fn find_by_log<T: FileTimes>(
    numbers: &mut Vec<u32>,
    log: &DepsLog,
    log_numbers: &[u32],
    times: &T,
    graph: &EdgeGraph,
    edge: EdgeNo,
) -> Result<Verdict, AllocError>
    requires edge { edge.0 < length graph.now.edges }
    requires log_numbers { (names : List (List ℕ))
        × AreCleanNumbers log.now.paths names log_numbers.now }
    ensures { (names : List (List ℕ)) → AreCleanNumbers log.now.paths names log_numbers.now
        → IfOk result (Finds (IsByLog (T.times times.now) log.now (edge_at graph.now.edges edge.0))
        names names numbers.old.items numbers.new.items) }
{
    let Some(output) = first_output(graph, edge) else {
        return Ok(Verdict::Unknown(Unknown::NoRecord));
    };
    let Some(record) = record_of(log, output) else {
        return Ok(Verdict::Unknown(Unknown::NoRecord));
    };
    if let Some(why) = doubt_of(record.time, time_of(times, output)?) {
        return Ok(Verdict::Unknown(why));
    }
    push_logged(numbers, log_numbers, record.inputs)?;
    Ok(Verdict::Known)
}

// The record of an output.
fn record_of<'a>(log: &'a DepsLog, output: &[u8]) -> Option<LoggedOutput<'a>>
    ensures record { option_map output_model result ≡ record_of log.now output.now }
    ensures known { IfSome result (λ o. IsOfPaths (length log.now.paths) (output_model o)) }
{
    log.output_of(log.number(output)?)
}

// Why a record does not hold, if it does not, by the time of the output.
fn doubt_of(recorded: u64, time: TimeFound) -> Option<Unknown>
    ensures { result ≡ doubt_of recorded time }
{
    match time {
        TimeFound::NoAnswer => Some(Unknown::NoTime),
        TimeFound::Time(time) if is_newer(time, recorded) => Some(Unknown::NewerOutput),
        TimeFound::Time(_) => None,
    }
}

// Whether an output of the given time is newer than its record.
fn is_newer(time: Option<u64>, recorded: u64) -> bool
    ensures { result ≡ is_newer time recorded }
{
    recorded < time.unwrap_or(0) || recorded >= BEFORE_1970
}

// Appends the numbers of the given paths of the log.
fn push_logged(
    numbers: &mut Vec<u32>,
    log_numbers: &[u32],
    inputs: &[PathNo],
) -> Result<(), AllocError>
    requires { AreBelow (length log_numbers.now) (numbers_of inputs.now) }
    ensures { OnOk result (numbers.new.items
        ≡ numbers.old.items
        ++ map (λ input. slice_index log_numbers.now input) (numbers_of inputs.now)) }
{
    'inputs: for input in inputs {
        numbers.push(log_numbers[input.0 as usize])?;
    }
    Ok(())
}
