//! Explains Ninja files without building anything.
#![tactic(auto)]

use nj_cli::{
    DiskFiles, Status, WriteSink, read_words, refuse_words, report_out_of_memory, run_read_words,
};
use std::io::ErrorKind;
use std::process::ExitCode;
use std::{env, io, mem};

fn main(rt: HostRuntime) -> ExitCode {
    ExitCode::from(run(rt).code())
}

/// Runs the program with its arguments.
fn run(rt: HostRuntime) -> Status {
    let mut err = WriteSink::new(rt.stderr());
    let words = match words(rt) {
        Ok(words) => words,
        Err(e) if e.kind() == ErrorKind::OutOfMemory => return report_out_of_memory(&mut err),
        Err(_) => return refuse_words(&mut err),
    };
    let read = read_words(rt.alloc(), &words);
    // The name of the file that is read from standard input, if the arguments request it.
    let stdin_for = match &read {
        Ok(request) if request.from_stdin => Some(request.file.as_str()),
        _ => None,
    };
    let Ok(mut files) = DiskFiles::new(rt, rt.alloc(), stdin_for) else {
        return report_out_of_memory(&mut err);
    };
    let mut out = WriteSink::new(rt.stdout());
    let ended = run_read_words(rt.alloc(), &mut files, &read, &mut out, &mut err);
    let status = ended.status;
    // The process ends here, and its memory with it.
    mem::forget(ended);
    status
}

/// The program's arguments, without its name. Fails if an argument is not UTF-8.
#[inline(never)]
fn words(rt: HostRuntime) -> io::Result<Vec<String>> {
    Ok(env::args(&rt)?.skip(1).collect(rt.alloc())?)
}
