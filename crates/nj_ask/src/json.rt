//! The answer to `json`.

ghost use Rattle.std.specs.Prelude.{◌≡◌, IfOk, false};
ghost use Rattle.nj_ask.specs.Cited.{AnswersJson, OfStatements, Returns, Stops, caveat_text};

use crate::answer::Told;
use crate::discovered::DiscoveredGraph;
use crate::failure::Failure;
use crate::shape::caveat_lines;
use nj_tools::{Sink, ToolFault, write_edge_objects};
use std::alloc::{AllocError, Global};

/// Writes each edge as a JSON object, a line each, by number.
///
/// # Errors
///
/// `Refused` if a string of an edge is not UTF-8: the sink received the objects before it. `Write`
/// if the sink failed, and `OutOfMemory` if an allocation failed; the sink has then received a
/// prefix of the text.
pub(crate) fn answer_json<O: Sink>(
    alloc: Global,
    known: &DiscoveredGraph,
    out: &mut O,
) -> Result<Told, Failure>
    ensures { OfStatements known.now.graph (λ entries.
        Returns (AnswersJson known.now entries) (O.state out.old) (O.state out.new) result) }
{
    match write_edge_objects(alloc, &known.graph, &known.discoveries, out) {
        Ok(()) => {}
        Err(fault) => return Err(stopped(alloc, fault)),
    }
    Ok(told_about(alloc, known)?)
}

/// Why a tool stopped.
fn stopped(alloc: Global, fault: ToolFault) -> Failure
    ensures { Stops fault result }
{
    match fault {
        ToolFault::TextNotUtf8(fault) => Failure::of_fault(alloc, &fault),
        ToolFault::Write => Failure::Write,
        ToolFault::OutOfMemory => Failure::OutOfMemory,
    }
}

/// What may be missing from the inputs that builds discovered.
fn told_about(alloc: Global, known: &DiscoveredGraph) -> Result<Told, AllocError>
    ensures warnings { OfStatements known.now.graph (λ entries.
        IfOk result (λ told. told.warnings.items ≡ caveat_text known.now entries)) }
    ensures looks { IfOk result (λ told. told.looks ≡ false) }
{
    let warnings = caveat_lines(alloc, known)?;
    Ok(Told {
        warnings,
        looks: false,
    })
}
