//! Answers questions about the graph of a Ninja build.
#![tactic(auto)]

use nj_ask::{
    Status, ask_read_words, refuse_folder, refuse_input, refuse_words, report_out_of_memory,
};
use nj_disk::{DiskFiles, DiskTimes};
use nj_questions::{Question, Refusal, read_words};
use nj_tools::WriteSink;
use std::io::{ErrorKind, IsTerminal, Read, Write};
use std::process::ExitCode;
use std::{env, io, mem};

const WAITING: &[u8] =
    b"ninja-graph: reading changed paths from this terminal, a line each; end them with Ctrl-D\n";

fn main(rt: HostRuntime) -> ExitCode {
    ExitCode::from(run(rt).code())
}

/// Runs the program with its arguments. If they are refused, it enters and reads nothing.
fn run(rt: HostRuntime) -> Status {
    let mut err = WriteSink::new(rt.stderr());
    let words = match words(rt) {
        Ok(words) => words,
        Err(e) if e.kind() == ErrorKind::OutOfMemory => return report_out_of_memory(&mut err),
        Err(_) => return refuse_words(&mut err),
    };
    let read = read_words(rt.alloc(), &words);
    match take(rt, &read) {
        Ok((folder, input)) => ask(rt, &read, folder.as_bytes(), &input),
        Err(status) => status,
    }
}

/// Enters the directory of `-C`, and reads standard input and the path of the working directory, if
/// the question needs them. Reports a failure. Its buffers leave the stack before anything is
/// asked.
#[inline(never)]
fn take(rt: HostRuntime, read: &Result<Question, Refusal>) -> Result<(String, Vec<u8>), Status> {
    let mut err = WriteSink::new(rt.stderr());
    let (mut folder, mut input) = (String::new(rt.alloc()), Vec::new(rt.alloc()));
    let Ok(question) = read else {
        return Ok((folder, input));
    };
    if let Some(entered) = question.entered_folder() {
        if let Err(error) = env::set_current_dir(&rt, entered) {
            return Err(refuse_folder(rt.alloc(), &mut err, entered, error));
        }
    }
    if question.takes_input() {
        tell_waiting(rt);
        if let Err(error) = rt.reader().read_to_end(&mut input) {
            return Err(refuse_input(rt.alloc(), &mut err, error));
        }
    }
    if question.takes_folder() {
        match env::current_dir(&rt) {
            Ok(path) => folder = path.into_string(),
            Err(e) if e.kind() == ErrorKind::OutOfMemory => {
                return Err(report_out_of_memory(&mut err));
            }
            // The path is unknown, so no absolute path is below it.
            Err(_) => {}
        }
    }
    Ok((folder, input))
}

/// Says at a terminal what the program waits for. A line that cannot be written is none.
fn tell_waiting(rt: HostRuntime) {
    if rt.stdin().is_terminal() {
        let _ = rt.stderr().write_all(WAITING);
    }
}

/// The program's arguments, without its name. Fails if any of them is not UTF-8.
#[inline(never)]
fn words(rt: HostRuntime) -> io::Result<Vec<String>> {
    Ok(env::args(&rt)?.skip(1).collect(rt.alloc())?)
}

/// Asks what the arguments ask, in the working directory.
fn ask(rt: HostRuntime, read: &Result<Question, Refusal>, folder: &[u8], input: &[u8]) -> Status {
    let alloc = rt.alloc();
    let mut out = WriteSink::new(rt.stdout());
    let mut err = WriteSink::new(rt.stderr());
    let Ok(mut files) = DiskFiles::new(rt, alloc, None) else {
        return report_out_of_memory(&mut err);
    };
    let mut built = DiskFiles::of_regular_files(rt);
    let times = DiskTimes::new(rt);
    let ended = ask_read_words(
        alloc, read, &mut files, &mut built, &times, folder, input, &mut out, &mut err,
    );
    let status = ended.status;
    // The process ends here, and its memory with it.
    mem::forget(ended);
    status
}
