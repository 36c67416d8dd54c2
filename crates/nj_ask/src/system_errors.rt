//! Errors of the system before a question is asked.

ghost use Rattle.std.specs.Prelude.{◌≡◌, ◌++◌, codes};
ghost use Rattle.nj_ask.specs.Cited.{Fault, Reported, ReportsError, error_kind, memory_line};

use crate::answer::{conclude, report_out_of_memory};
use crate::failure::Failure;
use crate::status::Status;
use nj_tools::Sink;
use std::alloc::Global;
use std::io::{Error, ErrorKind};

/// Reports that the directory of `-C` cannot be entered, and why.
pub fn refuse_folder<E: Sink>(alloc: Global, err: &mut E, folder: &str, error: Error) -> Status
    ensures line { ReportsError (codes "cannot change to '" ++ folder.now ++ codes "': ")
        (E.state err.old) (E.state err.new) }
    ensures memory { error_kind error ≡ ErrorKind.OutOfMemory
        → Reported (E.state err.old) (E.state err.new) memory_line }
    ensures status { result ≡ Fault }
{
    match format!(in alloc; "cannot change to '{folder}': ") {
        Ok(what) => refuse(alloc, err, what.as_bytes(), error),
        Err(_) => report_out_of_memory(err),
    }
}

/// Reports that standard input cannot be read, and why.
pub fn refuse_input<E: Sink>(alloc: Global, err: &mut E, error: Error) -> Status
    ensures line { ReportsError (codes "cannot read standard input: ")
        (E.state err.old) (E.state err.new) }
    ensures memory { error_kind error ≡ ErrorKind.OutOfMemory
        → Reported (E.state err.old) (E.state err.new) memory_line }
    ensures status { result ≡ Fault }
{
    refuse(alloc, err, b"cannot read standard input: ", error)
}

/// Reports what cannot be done, and why.
fn refuse<E: Sink>(alloc: Global, err: &mut E, what: &[u8], error: Error) -> Status
    ensures line { ReportsError what.now (E.state err.old) (E.state err.new) }
    ensures memory { error_kind error ≡ ErrorKind.OutOfMemory
        → Reported (E.state err.old) (E.state err.new) memory_line }
    ensures status { result ≡ Fault }
{
    if matches!(error.kind(), ErrorKind::OutOfMemory) {
        return report_out_of_memory(err);
    }
    match format!(in alloc; "{error}") {
        Ok(why) => {
            let failure = Failure::in_words(alloc, b"", what, why.as_bytes(), Status::Fault);
            conclude(err, &Err(failure))
        }
        Err(_) => report_out_of_memory(err),
    }
}
