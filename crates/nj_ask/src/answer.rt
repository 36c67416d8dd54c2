//! Answers, and how they are written and reported.

ghost use Rattle.std.specs.Prelude.{◌≡◌, codes};
ghost use Rattle.nj_ask.specs.Cited.{Fault, Usage, Delivers, WritesAnswer, ConcludesTold, Concludes, Reported, answered, memory_line, program_line};

use crate::failure::Failure;
use crate::status::Status;
use nj_tools::{Sink, write_whole};

/// An answer that is built whole.
#[derive(Drop)]
pub struct Answer {
    /// What standard output gets.
    pub output: Vec<u8>,
    /// What may be missing from it, a line each, for standard error.
    pub warnings: Vec<u8>,
    /// Whether there is something to look at even without a warning.
    pub looks: bool,
}

/// What is left to report of an answer that is on standard output.
#[derive(Drop)]
pub(crate) struct Told {
    /// What may be missing from it, a line each, for standard error.
    pub warnings: Vec<u8>,
    /// Whether there is something to look at even without a warning.
    pub looks: bool,
}

/// The line that says that an allocation failed.
const OUT_OF_MEMORY: &[u8] = b"ninja-graph: out of memory\n";

/// The line that says that the arguments are not UTF-8.
const UNREADABLE: &[u8] = b"ninja-graph: cannot read the arguments\n";

/// Writes an answer to standard output, if there is one.
pub fn deliver<O: Sink>(out: &mut O, answer: Result<Answer, Failure>) -> Result<Told, Failure>
    ensures { Delivers answer (O.state out.old) (O.state out.new) result }
{
    match answer {
        Ok(answer) => write_answer(out, answer),
        Err(failure) => Err(failure),
    }
}

/// Writes an answer to standard output.
fn write_answer<O: Sink>(out: &mut O, answer: Answer) -> Result<Told, Failure>
    ensures { WritesAnswer answer (O.state out.old) (O.state out.new) result }
{
    let Answer {
        output,
        warnings,
        looks,
    } = answer;
    match write_whole(out, &output) {
        Ok(()) => Ok(Told { warnings, looks }),
        Err(_) => Err(Failure::Write),
    }
}

/// Reports how an answer ended: its warnings, or why there is none. Where standard output failed,
/// nothing is reported.
pub(crate) fn conclude<E: Sink>(err: &mut E, told: &Result<Told, Failure>) -> Status
    ensures { ConcludesTold told.now (E.state err.old) (E.state err.new) result }
{
    match told {
        Ok(told) => warn(err, &told.warnings, told.looks),
        Err(Failure::Refused(line, status)) => {
            report(err, line);
            *status
        }
        Err(Failure::Write) => Status::OutputFailed,
        Err(Failure::OutOfMemory) => report_out_of_memory(err),
    }
}

/// Writes the warnings about an answer, if there are any.
fn warn<E: Sink>(err: &mut E, warnings: &[u8], looks: bool) -> Status
    ensures { Concludes (answered looks warnings.now) (E.state err.old) (E.state err.new) result }
{
    if write_whole(err, warnings).is_err() {
        return Status::OutputFailed;
    }
    if looks || !warnings.is_empty() {
        Status::Look
    } else {
        Status::Done
    }
}

/// Reports arguments that are not UTF-8.
pub fn refuse_words<E: Sink>(err: &mut E) -> Status
    ensures line { Reported (E.state err.old) (E.state err.new)
        (program_line (codes "cannot read the arguments")) }
    ensures status { result ≡ Usage }
{
    report(err, UNREADABLE);
    Status::Usage
}

/// Reports that an allocation failed.
pub fn report_out_of_memory<E: Sink>(err: &mut E) -> Status
    ensures line { Reported (E.state err.old) (E.state err.new) memory_line }
    ensures status { result ≡ Fault }
{
    report(err, OUT_OF_MEMORY);
    Status::Fault
}

/// Writes a line to standard error. A failure to write it is ignored.
pub(crate) fn report<E: Sink>(err: &mut E, line: &[u8])
    ensures { Reported (E.state err.old) (E.state err.new) line.now }
{
    let _ = write_whole(err, line);
}
