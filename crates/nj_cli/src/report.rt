//! The lines that a run reports on standard error.

ghost use Rattle.std.specs.Prelude.{◌≡◌, ◌++◌, ◌∷◌, [], codes, IfOk};
ghost use Rattle.nj_cli.specs.Cited.{fault_line, Unparsed, line, Reported, mark_line, Concludes, ReportsLine, ReportsMark, ReportsMisuse, out_of_memory};
ghost use Rattle.nj_args.specs.FaultLines as usage;

use crate::status::Status;
use nj_args::UsageFault;
use nj_graph::GraphFault;
use nj_needs::Mark;
use nj_tools::{Error, Sink, write_whole};
use std::alloc::{AllocError, Global};

/// The line of a run that ran out of memory.
pub const OUT_OF_MEMORY: &[u8] = b"ninja-explain: out of memory\n";

const UNREADABLE: &[u8] = b"ninja-explain: cannot read the arguments\n";

const OUT_OF_RANGE: &[u8] = b"ninja-explain: mark out of range\n";

/// Reports how a run ends by its outcome. If the run follows validations, the reported mark says
/// so.
pub(crate) fn conclude<E: Sink>(
    alloc: Global,
    err: &mut E,
    validations: bool,
    outcome: Result<Option<Mark>, Error>,
) -> Status
    ensures { Concludes validations (E.state err.old) (E.state err.new) outcome result }
{
    match outcome {
        Ok(None) => Status::Done,
        Ok(Some(mark)) => report_mark(alloc, err, validations, &mark),
        Err(Error::Graph(fault)) => report_fault(alloc, err, &fault),
        // A run never cleans a path that may be empty, and its mark was read before.
        Err(Error::EmptyPath | Error::BadMark | Error::MarkOutOfRange) => {
            report_line(err, OUT_OF_RANGE);
            Status::Fault
        }
        Err(Error::Write) => Status::OutputFailed,
        Err(Error::OutOfMemory) => report_out_of_memory(err),
    }
}

// Reports the mark at which a run stopped: without it the run cannot be resumed.
fn report_mark<E: Sink>(alloc: Global, err: &mut E, validations: bool, mark: &Mark) -> Status
    ensures { ReportsMark validations (E.state err.old) (E.state err.new) mark.now result }
{
    match mark_line(alloc, validations, mark) {
        Ok(line) => match write_whole(err, &line) {
            Ok(()) => Status::Stopped,
            Err(_) => Status::OutputFailed,
        },
        Err(_) => report_out_of_memory(err),
    }
}

// The line that reports a mark.
fn mark_line(alloc: Global, validations: bool, mark: &Mark) -> Result<Vec<u8>, AllocError>
    ensures { IfOk result (λ made. made.items ≡ mark_line validations mark.now) }
{
    let text = mark.to_text(alloc)?;
    let mut line = Vec::from_slice(alloc, if validations { b"mark v" } else { b"mark " })?;
    line.extend_from_slice(text.as_bytes())?;
    line.push(b'\n')?;
    Ok(line)
}

/// Reports a fault, or out of memory if its line has to be made first and that fails.
pub(crate) fn report_fault<E: Sink>(alloc: Global, err: &mut E, fault: &GraphFault) -> Status
    ensures line { ReportsLine (E.state err.old) (E.state err.new)
        (line (fault_line fault.now)) }
    ensures status { result ≡ Status.Fault }
{
    match line_of_fault(alloc, fault) {
        Ok(line) => report_line(err, &line),
        Err(_) => report_line(err, OUT_OF_MEMORY),
    }
    Status::Fault
}

// The line that reports a fault.
fn line_of_fault(alloc: Global, fault: &GraphFault) -> Result<Vec<u8>, AllocError>
    ensures { IfOk result (λ made. made.items ≡ line (fault_line fault.now)) }
{
    let mut line = fault.line(alloc)?;
    line.push(b'\n')?;
    Ok(line)
}

/// Reports why arguments are not a valid request, or out of memory if its line has to be made first
/// and that fails.
pub(crate) fn report_misuse<E: Sink>(alloc: Global, err: &mut E, fault: &UsageFault) -> Status
    ensures { ReportsMisuse (E.state err.old) (E.state err.new) fault.now result }
{
    if let UsageFault::OutOfMemory = fault {
        return report_out_of_memory(err);
    }
    match line_of_misuse(alloc, fault) {
        Ok(line) => {
            report_line(err, line.as_slice());
            Status::Usage
        }
        Err(_) => report_out_of_memory(err),
    }
}

// The line that reports why arguments are not a valid request.
fn line_of_misuse(alloc: Global, fault: &UsageFault) -> Result<Vec<u8>, AllocError>
    ensures { IfOk result (λ made. made.items ≡ line (usage.fault_line fault.now)) }
{
    let mut line = fault.line(alloc)?;
    line.push(b'\n')?;
    Ok(line)
}

/// Reports arguments that are not UTF-8.
pub fn refuse_words<E: Sink>(err: &mut E) -> Status
    ensures line { Reported (E.state err.old) (E.state err.new) (line (usage.fault_line Unparsed)) }
    ensures status { result ≡ Status.Usage }
{
    report_line(err, UNREADABLE);
    Status::Usage
}

/// Reports that an allocation failed.
pub fn report_out_of_memory<E: Sink>(err: &mut E) -> Status
    ensures line { Reported (E.state err.old) (E.state err.new) (line out_of_memory) }
    ensures status { result ≡ Status.Fault }
{
    report_line(err, OUT_OF_MEMORY);
    Status::Fault
}

// Writes a line to standard error. A failure to write it is ignored.
fn report_line<E: Sink>(err: &mut E, line: &[u8])
    ensures { Reported (E.state err.old) (E.state err.new) line.now }
{
    let _ = write_whole(err, line);
}
