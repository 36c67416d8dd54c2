//! The answer to `times --dead`.

ghost use Rattle.std.specs.Prelude.{◌≡◌, ◌++◌, ◌∷◌, [], IfOk, List, OnOk, codes, map, true, ℕ};
ghost use Rattle.nj_ask.specs.Cited.{AnswersDead, BuildLogModel, DeclaredTimes, Gives, ListsDead, OfStatements, compact_text, dead_line, dead_outputs, edges_of, string, unread_line, utf8_lossy};

use crate::answer::Answer;
use crate::discovered::DiscoveredGraph;
use crate::failure::Failure;
use crate::listing::push_line;
use crate::shape::caveat_lines;
use nj_build_log::BuildLog;
use nj_discovered::{TimeFound, time_of};
use nj_graph::{FileTimes, Graph};
use nj_times::dead_outputs;
use serde_json::Value;
use std::alloc::{AllocError, Global};

/// The outputs that are listed, and what is not known of others, a line each.
#[derive(Drop)]
struct DeadListed {
    text: Vec<u8>,
    warnings: Vec<u8>,
}

/// The outputs of the build log that no edge makes or has as an input, and whose files are there.
/// An output whose time cannot be read is a warning.
///
/// # Errors
///
/// `OutOfMemory` if an allocation failed.
pub(crate) fn answer_dead<T: FileTimes>(
    alloc: Global,
    known: &DiscoveredGraph,
    log: &BuildLog,
    times: &T,
    is_json: bool,
) -> Result<Answer, Failure>
    ensures { OfStatements known.now.graph (λ entries. Gives (AnswersDead known.now entries log.now
        (T.times times.now) is_json) result) }
{
    let DeadListed { text, mut warnings } = dead_listed(alloc, &known.graph, log, times, is_json)?;
    warnings.extend_from_slice(&caveat_lines(alloc, known)?)?;
    Ok(Answer {
        output: text,
        warnings,
        looks: false,
    })
}

// The lines of dead outputs.
fn dead_listed<T: FileTimes>(
    alloc: Global,
    graph: &Graph,
    log: &BuildLog,
    times: &T,
    is_json: bool,
) -> Result<DeadListed, AllocError>
    ensures { IfOk result (λ listed. ListsDead (T.times times.now) is_json
        (dead_outputs (edges_of graph.now) log.now.lines) listed.text.items
        listed.warnings.items) }
{
    let outputs = dead_outputs(alloc, graph, log)?;
    listed_of(alloc, times, is_json, &outputs)
}

// The lines of outputs.
fn listed_of<T: FileTimes>(
    alloc: Global,
    times: &T,
    is_json: bool,
    outputs: &[&[u8]],
) -> Result<DeadListed, AllocError>
    ensures { IfOk result (λ listed. ListsDead (T.times times.now) is_json
        (map (λ output. output.now) outputs.now) listed.text.items listed.warnings.items) }
{
    let mut text = Vec::new(alloc);
    let mut warnings = Vec::new(alloc);
    'outputs: for output in outputs {
        let found = time_of(times, output)?;
        push_dead(&mut text, is_json, output, found)?;
        push_unread(&mut warnings, output, found)?;
    }
    Ok(DeadListed { text, warnings })
}

// Appends the line of an output, if its file is there.
fn push_dead(
    text: &mut Vec<u8>,
    is_json: bool,
    output: &[u8],
    found: TimeFound,
) -> Result<(), AllocError>
    ensures { OnOk result (text.new.items
        ≡ text.old.items ++ dead_line is_json output.now found) }
{
    match found {
        TimeFound::Time(Some(_)) => {
            if is_json {
                push_dead_object(text, output)
            } else {
                push_line(text, output)
            }
        }
        _ => Ok(()),
    }
}

// Appends the object of an output.
fn push_dead_object(text: &mut Vec<u8>, output: &[u8]) -> Result<(), AllocError>
    ensures { OnOk result (text.new.items ≡ text.old.items ++ (codes "{\"output\":"
        ++ compact_text (string (utf8_lossy output.now)) ++ codes "}\n")) }
{
    let alloc = *text.allocator();
    let output = String::from_utf8_lossy(alloc, output)?;
    let string = Value::try_from_str(alloc, &output)?.to_vec(alloc)?;
    text.extend_from_slice(b"{\"output\":")?;
    text.extend_from_slice(&string)?;
    text.extend_from_slice(b"}\n")
}

// Appends the line of an output of which it is not known whether its file is there.
fn push_unread(warnings: &mut Vec<u8>, output: &[u8], found: TimeFound) -> Result<(), AllocError>
    ensures { OnOk result (warnings.new.items
        ≡ warnings.old.items ++ unread_line output.now found) }
{
    match found {
        TimeFound::NoAnswer => {
            warnings.extend_from_slice(output)?;
            push_line(warnings, b": its time cannot be read")
        }
        TimeFound::Time(_) => Ok(()),
    }
}
