//! The calls of `nj_ask`.

ghost use Rattle.std.specs.Prelude.{◌≡◌, ◌<◌, ◌++◌, codes, length, map, All, string_bytes};
ghost use Rattle.nj_one_answer.specs.Cited.{around, ended_status, error_kind, files_of, AgreeIfOk, AgreeUpTo, AskWordsAlike, DeclareSame, IsGraphOutOfMemory, OfStatements, ReadAlike, SameDiscovered, SameErrors, SameUnlessFailed, TellAll, UnlessFails};

use crate::answers::{answer_law, known_answer_law, misuse_law};
use nj_ask::{Discovered, Ended, Status};
use nj_deps::DepsLog;
use nj_graph::{FileNo, FileSource, FileTimes, Graph, GraphFault, HashKeys};
use nj_questions::{Question, Refusal};
use nj_tools::Sink;
use std::alloc::{AllocError, Global};
use std::io::{Error, ErrorKind};

/// Free: where a sink fails; what a sink reports if it reported nothing before.
pub fn refuse_words<E: Sink>(one: &mut E, other: &mut E) -> (Status, Status)
    requires { E.state one.old ≡ E.state other.old }
    ensures sinks { SameUnlessFailed (E.state one.old) (E.state one.new) (E.state other.new) }
    ensures status { result.0 ≡ result.1 }
{
    (nj_ask::refuse_words(one), nj_ask::refuse_words(other))
}

/// Free: where a sink fails; what a sink reports if it reported nothing before.
pub fn report_out_of_memory<E: Sink>(one: &mut E, other: &mut E) -> (Status, Status)
    requires { E.state one.old ≡ E.state other.old }
    ensures sinks { SameUnlessFailed (E.state one.old) (E.state one.new) (E.state other.new) }
    ensures status { result.0 ≡ result.1 }
{
    (
        nj_ask::report_out_of_memory(one),
        nj_ask::report_out_of_memory(other),
    )
}

/// Free: whether memory lacks; the wording of the system; where a sink fails; what a sink reports
/// if it reported nothing before.
pub fn refuse_folder<E: Sink>(
    alloc: Global,
    one: &mut E,
    other: &mut E,
    folder: &str,
    error: Error,
    same: Error,
) -> (Status, Status)
    requires sink { E.state one.old ≡ E.state other.old }
    requires error { error ≡ same }
    ensures line { SameErrors (codes "cannot change to '" ++ folder.now ++ codes "': ")
        (E.state one.old) (E.state one.new) (E.state other.new) }
    ensures memory { error_kind error ≡ ErrorKind.OutOfMemory
        → SameUnlessFailed (E.state one.old) (E.state one.new) (E.state other.new) }
    ensures status { result.0 ≡ result.1 }
{
    (
        nj_ask::refuse_folder(alloc, one, folder, error),
        nj_ask::refuse_folder(alloc, other, folder, same),
    )
}

/// Free: whether memory lacks; the wording of the system; where a sink fails; what a sink reports
/// if it reported nothing before.
pub fn refuse_input<E: Sink>(
    alloc: Global,
    one: &mut E,
    other: &mut E,
    error: Error,
    same: Error,
) -> (Status, Status)
    requires sink { E.state one.old ≡ E.state other.old }
    requires error { error ≡ same }
    ensures line { SameErrors (codes "cannot read standard input: ")
        (E.state one.old) (E.state one.new) (E.state other.new) }
    ensures memory { error_kind error ≡ ErrorKind.OutOfMemory
        → SameUnlessFailed (E.state one.old) (E.state one.new) (E.state other.new) }
    ensures status { result.0 ≡ result.1 }
{
    (
        nj_ask::refuse_input(alloc, one, error),
        nj_ask::refuse_input(alloc, other, same),
    )
}

/// For a graph of statements. Free: whether memory lacks.
pub fn made_from(
    alloc: Global,
    graph: &Graph,
    keys: HashKeys,
    files: &[FileNo],
) -> (Result<Vec<bool>, AllocError>, Result<Vec<bool>, AllocError>)
    requires { All (λ file. file.0 < length (files_of graph.now)) files.now }
    ensures { OfStatements graph.now (λ entries.
        AgreeIfOk (λ one other. one.items ≡ other.items) result.0 result.1) }
{
    (
        nj_ask::made_from(alloc, graph, keys, files),
        nj_ask::made_from(alloc, graph, keys, files),
    )
}

/// For a graph of statements, for sources that declare the same at all paths and do not fail, and
/// for times that are declared for all paths. Free: whether memory lacks; the numbers of files;
/// under which name the main file was opened.
pub fn with_discovered<S: FileSource, T: FileTimes>(
    alloc: Global,
    graph: Graph,
    same: Graph,
    log: &DepsLog,
    one: &mut S,
    other: &mut S,
    times: &T,
) -> (
    Result<Discovered, GraphFault>,
    Result<Discovered, GraphFault>,
)
    requires graph { graph ≡ same }
    requires files { DeclareSame (S.state one.old) (S.state other.old) }
    requires times { TellAll (T.times times.now) }
    ensures { OfStatements graph (λ entries.
        UnlessFails (S.state one.old) (S.state one.new) (UnlessFails (S.state other.old) (S.state other.new)
        (AgreeUpTo SameDiscovered IsGraphOutOfMemory result.0 result.1))) }
{
    (
        nj_ask::with_discovered(alloc, graph, log, one, times),
        nj_ask::with_discovered(alloc, same, log, other, times),
    )
}

/// For sources and sinks in the same states. Free: whether memory lacks; where a sink fails; what a
/// sink reports if it reported nothing before; which of the graphs and statements that the sources
/// allow is read, or which line says why no graph is; the graph that is returned.
pub fn ask_read_words<S: FileSource, B: FileSource, T: FileTimes, O: Sink, E: Sink>(
    alloc: Global,
    read: &Result<Question, Refusal>,
    files: &mut S,
    other_files: &mut S,
    built: &mut B,
    other_built: &mut B,
    times: &T,
    folder: &[u8],
    input: &[u8],
    out: &mut O,
    other_out: &mut O,
    err: &mut E,
    other_err: &mut E,
) -> (Ended, Ended)
    requires files { S.state files.old ≡ S.state other_files.old }
    requires built { B.state built.old ≡ B.state other_built.old }
    requires out { O.state out.old ≡ O.state other_out.old }
    requires err { E.state err.old ≡ E.state other_err.old }
    ensures { ReadAlike read.now (T.times times.now) folder.now
        (around (S.state files.old) (B.state built.old) (O.state out.old) (E.state err.old))
        (around (S.state files.new) (B.state built.new) (O.state out.new) (E.state err.new))
        (around (S.state other_files.new) (B.state other_built.new) (O.state other_out.new)
        (E.state other_err.new)) (ended_status result.0) (ended_status result.1) }
{
    answer_law();
    known_answer_law();
    misuse_law();
    (
        nj_ask::ask_read_words(alloc, read, files, built, times, folder, input, out, err),
        nj_ask::ask_read_words(
            alloc,
            read,
            other_files,
            other_built,
            times,
            folder,
            input,
            other_out,
            other_err,
        ),
    )
}

/// For sources and sinks in the same states. Free: whether memory lacks; where a sink fails; what a
/// sink reports if it reported nothing before; which of the graphs and statements that the sources
/// allow is read, or which line says why no graph is; the wording of help, and of what is wrong
/// with arguments.
pub fn ask_words<S: FileSource, B: FileSource, T: FileTimes, O: Sink, E: Sink>(
    alloc: Global,
    words: &[String],
    files: &mut S,
    other_files: &mut S,
    built: &mut B,
    other_built: &mut B,
    times: &T,
    folder: &[u8],
    input: &[u8],
    out: &mut O,
    other_out: &mut O,
    err: &mut E,
    other_err: &mut E,
) -> (Status, Status)
    requires files { S.state files.old ≡ S.state other_files.old }
    requires built { B.state built.old ≡ B.state other_built.old }
    requires out { O.state out.old ≡ O.state other_out.old }
    requires err { E.state err.old ≡ E.state other_err.old }
    ensures { AskWordsAlike (map string_bytes words.now) (T.times times.now) folder.now
        (around (S.state files.old) (B.state built.old) (O.state out.old) (E.state err.old))
        (around (S.state files.new) (B.state built.new) (O.state out.new) (E.state err.new))
        (around (S.state other_files.new) (B.state other_built.new) (O.state other_out.new)
        (E.state other_err.new)) result.0 result.1 }
{
    answer_law();
    known_answer_law();
    misuse_law();
    (
        nj_ask::ask_words(alloc, words, files, built, times, folder, input, out, err),
        nj_ask::ask_words(
            alloc,
            words,
            other_files,
            other_built,
            times,
            folder,
            input,
            other_out,
            other_err,
        ),
    )
}
