//! Questions as the arguments of a command line.

ghost use Rattle.std.specs.Prelude.{◌≡◌, map, option_map, string_bytes};
ghost use Rattle.nj_ask.specs.Cited.{around, AsksWith, AsksWords, Refuses, sinks_of, ended_status};

use crate::answer::{report, report_out_of_memory};
use crate::asking::{Ended, ask, without_graph};
use crate::status::Status;
use nj_graph::{FileSource, FileTimes};
use nj_questions::{Question, Refusal, read_words};
use nj_tools::{Sink, write_whole};
use std::alloc::Global;

/// The line on standard error about the option that `--deps` has replaced.
const OLD_OPTION: &[u8] =
    b"ninja-graph: --deps-log is now --deps, which reads depfiles and times too\n";

/// Does what the arguments ask, which lack the program's name: reads the manifest and all that it
/// includes from `files`, and the deps log and depfiles from `built`; writes the answer to `out`,
/// and to `err` what may be missing from it, or why there is none. `input` has the bytes of
/// standard input, which only `affected` reads. The directory of `-C` is not entered here.
///
/// `folder` is the absolute path of the working directory: for `audit`, absolute paths in commands
/// below it are the build's. If it is empty, none is. `times` also says which sources exist.
///
/// Returns the exit status.
pub fn ask_words<S: FileSource, B: FileSource, T: FileTimes, O: Sink, E: Sink>(
    alloc: Global,
    words: &[String],
    files: &mut S,
    built: &mut B,
    times: &T,
    folder: &[u8],
    input: &[u8],
    out: &mut O,
    err: &mut E,
) -> Status
    ensures { AsksWords (map string_bytes words.now) (T.times times.now) folder.now input.now
        (around (S.state files.old) (B.state built.old) (O.state out.old) (E.state err.old))
        (around (S.state files.new) (B.state built.new) (O.state out.new) (E.state err.new))
        result }
{
    let read = read_words(alloc, words);
    ask_read_words(alloc, &read, files, built, times, folder, input, out, err).status
}

/// The same as [`ask_words`] for arguments that [`read_words`] has read.
pub fn ask_read_words<S: FileSource, B: FileSource, T: FileTimes, O: Sink, E: Sink>(
    alloc: Global,
    read: &Result<Question, Refusal>,
    files: &mut S,
    built: &mut B,
    times: &T,
    folder: &[u8],
    input: &[u8],
    out: &mut O,
    err: &mut E,
) -> Ended
    ensures { AsksWith read.now (T.times times.now) folder.now input.now
        (around (S.state files.old) (B.state built.old) (O.state out.old) (E.state err.old))
        (around (S.state files.new) (B.state built.new) (O.state out.new) (E.state err.new))
        (ended_status result) }
{
    match read {
        Ok(question) => ask(
            alloc, files, built, times, folder, question, input, out, err,
        ),
        Err(refusal) => without_graph(refuse(refusal, out, err)),
    }
}

/// Writes why arguments are not a question: help and the version go to standard output.
fn refuse<O: Sink, E: Sink>(refusal: &Refusal, out: &mut O, err: &mut E) -> Status
    ensures { Refuses refusal.now (sinks_of (O.state out.old) (E.state err.old))
        (sinks_of (O.state out.new) (E.state err.new)) result }
{
    match refusal {
        Refusal::Help(text) => match write_whole(out, text.as_bytes()) {
            Ok(()) => Status::Done,
            Err(_) => Status::OutputFailed,
        },
        Refusal::Unparsed(text) => {
            report(err, text.as_bytes());
            Status::Usage
        }
        Refusal::OldOption => {
            report(err, OLD_OPTION);
            Status::Usage
        }
        Refusal::OutOfMemory => report_out_of_memory(err),
    }
}
