//! Why there is no answer.

ghost use Rattle.std.specs.Prelude.{◌≡◌, ◌++◌, IfOk, codes};
ghost use Rattle.nj_ask.specs.declared.failure.Failure.TheVariants.{OutOfMemory};
ghost use Rattle.nj_ask.specs.Cited.{Fault, FailsBy, SaysFault, line, program_line};

use crate::status::Status;
use nj_graph::{Cause, GraphFault};
use std::alloc::{AllocError, AllocFailed, Global};

/// Why there is no answer, or only part of one.
#[derive(Drop)]
pub(crate) enum Failure {
    /// The line that says why, with its end, and the status.
    Refused(Vec<u8>, Status),
    /// Standard output failed.
    Write,
    /// An allocation failed.
    OutOfMemory,
}

impl Failure {
    /// The failure for a fault of a graph, or of a question about it.
    pub fn of_fault(alloc: Global, fault: &GraphFault) -> Failure
        ensures { FailsBy Fault (SaysFault fault.now) result }
    {
        if matches!(fault.cause, Cause::OutOfMemory) {
            return Failure::OutOfMemory;
        }
        match fault.line_for(alloc, "ninja-graph") {
            Ok(line) => refused(line, Status::Fault),
            Err(_) => Failure::OutOfMemory,
        }
    }

    /// A refusal in the program's own words: a name between two texts.
    pub fn in_words(
        alloc: Global,
        before: &[u8],
        name: &[u8],
        after: &[u8],
        status: Status,
    ) -> Failure
        ensures { FailsBy status
            (λ line. line ≡ program_line (before.now ++ name.now ++ after.now)) result }
    {
        match in_words(alloc, before, name, after) {
            Ok(text) => refused(text, status),
            Err(_) => Failure::OutOfMemory,
        }
    }
}

/// The program's name, and a name between two texts.
pub(crate) fn in_words(
    alloc: Global,
    before: &[u8],
    name: &[u8],
    after: &[u8],
) -> Result<Vec<u8>, AllocError>
    ensures { IfOk result (λ text. text.items
        ≡ codes "ninja-graph: " ++ before.now ++ name.now ++ after.now) }
{
    let mut text = Vec::from_slice(alloc, b"ninja-graph: ")?;
    text.extend_from_slice(before)?;
    text.extend_from_slice(name)?;
    text.extend_from_slice(after)?;
    Ok(text)
}

/// The refusal with a line whose end is still missing.
pub(crate) fn refused(text: Vec<u8>, status: Status) -> Failure
    ensures { FailsBy status (λ made. made ≡ line text.items) result }
{
    let mut line = text;
    match line.push(b'\n') {
        Ok(()) => Failure::Refused(line, status),
        Err(_) => Failure::OutOfMemory,
    }
}

impl From<AllocError> for Failure {
    ghost from_gives = { λ _ failure. failure ≡ OutOfMemory };

    fn from(_e: AllocError) -> Failure {
        Failure::OutOfMemory
    }
}

impl<T: Drop> From<AllocFailed<T>> for Failure {
    ghost from_gives = { λ _ failure. failure ≡ OutOfMemory };

    fn from(_e: AllocFailed<T>) -> Failure {
        Failure::OutOfMemory
    }
}
