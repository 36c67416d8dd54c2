//! Questions about a graph, asked of its files.

ghost use Rattle.std.specs.Prelude.{◌≡◌, Ok, IfOk, IfErr, None, Some, map, true};
ghost use Rattle.nj_ask.specs.Cited.{LacksBuildLog, LeavesAnswer, TakesBuildLog, no_lines, takes_build_log, HasStatements, LacksFiles, ReadsFiles, named_files, sources_of, Fault, SubjectModel, Ends, listed, seeks_undeclared, IsText, kind_lines, around, AsksWith, AnswersTask, IsGiven, IsTask, OfStatements, HasEdges, question_model, subject_model, FailsBy, Usage, Misuses, ended_status, sinks_of};

use crate::affected::answer_affected;
use crate::answer::{Told, conclude, deliver};
use crate::audit::{answer_audit, kinds_asked, list_kinds};
use crate::build_logs::read_build_log;
use crate::chosen_tests::answer_tests;
use crate::discovered::DiscoveredGraph;
use crate::draw::answer_draw;
use crate::failure::Failure;
use crate::given::globs_asked;
use crate::graph_reading::known_graph;
use crate::json::answer_json;
use crate::keys::{PageAsked, answer_keys, page_asked};
use crate::option_files::{OptionFiles, read_option_files};
use crate::stale::{answer_stale, check_stale};
use crate::status::Status;
use crate::test_options::tests_asked;
use crate::times::{answer_timings, check_times};
use crate::why::answer_why;
use nj_audit::{Kind, Kinds};
use nj_build_log::BuildLog;
use nj_globs::Glob;
use nj_graph::{FileSource, FileTimes, Graph};
use nj_questions::{
    AffectedOptions, AuditOptions, DrawOptions, KeysOptions, Question, StaleOptions, Subject,
    TestsOptions, TimesOptions, WhyOptions,
};
use nj_tools::Sink;
use std::alloc::{AllocError, Global};

/// How a question ended, and the graph that it was about, if there was one: who ends the process need
/// not free it.
#[derive(Drop)]
pub struct Ended {
    pub status: Status,
    pub known: Option<Box<DiscoveredGraph>>,
}

/// What is asked of a graph, with options that are taken.
#[derive(Drop)]
enum Task<'q> {
    Affected(&'q AffectedOptions, Vec<Glob>),
    Audit(&'q AuditOptions, Kinds),
    Draw(&'q DrawOptions),
    Json,
    Keys(&'q KeysOptions, PageAsked),
    Stale(&'q StaleOptions),
    Tests(&'q TestsOptions, Vec<Glob>),
    Times(&'q TimesOptions),
    Why(&'q WhyOptions),
}

/// What is read for a question.
#[derive(Drop)]
struct FilesRead {
    /// The files that its options name.
    named: OptionFiles,
    /// Its graph.
    known: Box<DiscoveredGraph>,
}

/// Asks a question of its files: writes the answer to standard output, and to standard error what may
/// be missing from it, or why there is none. Absolute paths below `folder` are the build's.
pub(crate) fn ask<S: FileSource, B: FileSource, T: FileTimes, O: Sink, E: Sink>(
    alloc: Global,
    files: &mut S,
    built: &mut B,
    times: &T,
    folder: &[u8],
    question: &Question,
    input: &[u8],
    out: &mut O,
    err: &mut E,
) -> Ended
    ensures { AsksWith (Ok question.now) (T.times times.now) folder.now input.now
        (around (S.state files.old) (B.state built.old) (O.state out.old) (E.state err.old))
        (around (S.state files.new) (B.state built.new) (O.state out.new) (E.state err.new))
        (ended_status result) }
{
    if question.reads_nothing() {
        return without_graph(write_kinds(alloc, out, err));
    }
    let task = match task_of(alloc, &question.subject) {
        Ok(task) => task,
        Err(failure) => return without_graph(conclude(err, &Err(failure))),
    };
    let seeks = seeks_undeclared(&task);
    match read_files(alloc, files, built, times, folder, question, seeks) {
        Ok(FilesRead { named, known }) => {
            let told = answer_by(
                alloc, &known, built, times, folder, task, &named, input, out,
            );
            Ended {
                status: conclude(err, &told),
                known: Some(known),
            }
        }
        Err(failure) => without_graph(conclude(err, &Err(failure))),
    }
}

/// Reads the files that the options of a question name, and then its graph. Finds undeclared inputs
/// where `seeks` says so.
fn read_files<S: FileSource, B: FileSource, T: FileTimes>(
    alloc: Global,
    files: &mut S,
    built: &mut B,
    times: &T,
    folder: &[u8],
    question: &Question,
    seeks: bool,
) -> Result<FilesRead, Failure>
    requires { seeks ≡ seeks_undeclared (subject_model question.now.subject) }
    ensures read { IfOk result (λ read. ReadsFiles (question_model question.now)
        (T.times times.now) folder.now (sources_of (S.state files.old) (B.state built.old))
        (sources_of (S.state files.new) (B.state built.new)) read.known.value
        (named_files read.named)) }
    ensures stated { IfOk result (λ read. HasStatements read.known.value.graph) }
    ensures edges { IfOk result (λ read. HasEdges read.known.value) }
    ensures lacks { IfErr result (FailsBy Fault (LacksFiles (question_model question.now)
        (T.times times.now) folder.now (sources_of (S.state files.old) (B.state built.old))
        (sources_of (S.state files.new) (B.state built.new)))) }
{
    let named = match read_option_files(alloc, files, folder, &question.subject) {
        Ok(named) => named,
        Err(failure) => return Err(failure),
    };
    match known_graph(alloc, files, built, times, &question.graph, seeks) {
        Ok(known) => Ok(FilesRead { named, known }),
        Err(failure) => Err(failure),
    }
}

/// A question that ended with this status, and without a graph.
pub(crate) fn without_graph(status: Status) -> Ended
    ensures { ended_status result ≡ status }
{
    Ended {
        status,
        known: None,
    }
}

/// Writes the kinds of findings.
fn write_kinds<O: Sink, E: Sink>(alloc: Global, out: &mut O, err: &mut E) -> Status
    ensures { Ends (IsText kind_lines) (sinks_of (O.state out.old) (E.state err.old))
        (sinks_of (O.state out.new) (E.state err.new)) result }
{
    let told = deliver(out, list_kinds(alloc));
    conclude(err, &told)
}

/// What is asked, unless its options are refused.
fn task_of<'q>(alloc: Global, subject: &'q Subject) -> Result<Task<'q>, Failure>
    requires { listed (subject_model subject.now) ≡ None }
    ensures taken { IfOk result (IsTask (subject_model subject.entry.now)) }
    ensures refused { IfErr result (FailsBy Usage
        (Misuses (subject_model subject.entry.now))) }
{
    match subject {
        Subject::Affected(options) => match globs_asked(alloc, options) {
            Ok(globs) => Ok(Task::Affected(options, globs)),
            Err(failure) => Err(failure),
        },
        Subject::Audit(options) => match kinds_asked(alloc, options) {
            Ok(kinds) => Ok(Task::Audit(options, kinds)),
            Err(failure) => Err(failure),
        },
        Subject::Draw(options) => Ok(Task::Draw(options)),
        Subject::Json => Ok(Task::Json),
        Subject::Keys(options) => match page_asked(alloc, options) {
            Ok(page) => Ok(Task::Keys(options, page)),
            Err(failure) => Err(failure),
        },
        Subject::Stale(options) => match check_stale(alloc, options) {
            Ok(()) => Ok(Task::Stale(options)),
            Err(failure) => Err(failure),
        },
        Subject::Tests(options) => match tests_asked(alloc, options) {
            Ok(globs) => Ok(Task::Tests(options, globs)),
            Err(failure) => Err(failure),
        },
        Subject::Times(options) => match check_times(alloc, options) {
            Ok(()) => Ok(Task::Times(options)),
            Err(failure) => Err(failure),
        },
        Subject::Why(options) => Ok(Task::Why(options)),
    }
}

/// Whether a deps log is searched for inputs that edges do not declare.
fn seeks_undeclared(task: &Task<'_>) -> bool
    ensures { (subject : SubjectModel) → IsTask subject task.now
        → result ≡ seeks_undeclared subject }
{
    match task {
        Task::Audit(_, kinds) => kinds.contains(Kind::UndeclaredInput),
        _ => false,
    }
}

/// Whether the build log is read.
fn takes_build_log(task: &Task<'_>) -> bool
    ensures { (subject : SubjectModel) → IsTask subject task.now
        → result ≡ takes_build_log subject }
{
    match task {
        Task::Stale(_) | Task::Times(_) => true,
        _ => false,
    }
}

/// Reads the build log if the task takes it, and writes the answer of a graph to standard output.
fn answer_by<B: FileSource, T: FileTimes, O: Sink>(
    alloc: Global,
    known: &DiscoveredGraph,
    built: &mut B,
    times: &T,
    folder: &[u8],
    task: Task<'_>,
    named: &OptionFiles,
    input: &[u8],
    out: &mut O,
) -> Result<Told, Failure>
    requires edges { HasEdges known.now }
    requires given { IsGiven task }
    ensures { OfStatements known.now.graph (λ entries. (subject : SubjectModel)
        → IsTask subject task.entry → LeavesAnswer known.now entries (T.times times.now)
        folder.now subject (named_files named.now) input.now (B.state built.old)
        (B.state built.new) (O.state out.old) (O.state out.new) result) }
{
    let takes = takes_build_log(&task);
    match build_log_if(alloc, built, &known.graph, takes) {
        Ok(log) => perform(alloc, known, &log, times, folder, task, named, input, out),
        Err(failure) => Err(failure),
    }
}

/// The build log of a graph, if it is read; else one without lines.
fn build_log_if<B: FileSource>(
    alloc: Global,
    built: &mut B,
    graph: &Graph,
    takes: bool,
) -> Result<BuildLog, Failure>
    ensures read { OfStatements graph.now (λ entries. IfOk result (λ log.
        TakesBuildLog takes entries (B.state built.old) (B.state built.new) log)) }
    ensures lacks { OfStatements graph.now (λ entries. IfErr result (FailsBy Fault (λ line.
        (takes ≡ true) × LacksBuildLog entries (B.state built.old) (B.state built.new) line))) }
{
    if takes {
        return read_build_log(alloc, built, graph);
    }
    Ok(without_lines(alloc)?)
}

/// A build log without lines.
fn without_lines(alloc: Global) -> Result<BuildLog, AllocError>
    ensures { IfOk result (λ log. log ≡ no_lines) }
{
    match BuildLog::read(alloc, b"") {
        Ok(log) => Ok(log),
        Err(_) => Err(AllocError),
    }
}

/// Writes the answer of a graph to standard output.
fn perform<T: FileTimes, O: Sink>(
    alloc: Global,
    known: &DiscoveredGraph,
    log: &BuildLog,
    times: &T,
    folder: &[u8],
    task: Task<'_>,
    named: &OptionFiles,
    input: &[u8],
    out: &mut O,
) -> Result<Told, Failure>
    requires edges { HasEdges known.now }
    requires given { IsGiven task }
    ensures { OfStatements known.now.graph (λ entries. AnswersTask known.now entries log.now
        (T.times times.now) folder.now task.entry (named_files named.now) input.now
        (O.state out.old) (O.state out.new) result) }
{
    match task {
        Task::Affected(options, mut globs) => {
            let globs = globs.as_mut_slice();
            deliver(
                out,
                answer_affected(alloc, known, times, folder, options, globs, named, input),
            )
        }
        Task::Audit(options, kinds) => {
            deliver(
                out,
                answer_audit(alloc, known, times, folder, options, kinds),
            )
        }
        Task::Draw(options) => deliver(out, answer_draw(alloc, known, options)),
        Task::Json => answer_json(alloc, known, out),
        Task::Keys(options, page) => {
            let contents = &named.additions;
            deliver(out, answer_keys(alloc, known, options, contents, &page))
        }
        Task::Stale(options) => deliver(out, answer_stale(alloc, known, log, times, options)),
        Task::Tests(options, mut globs) => {
            let globs = globs.as_mut_slice();
            deliver(
                out,
                answer_tests(alloc, known, times, folder, options, globs, named, input),
            )
        }
        Task::Times(options) => deliver(out, answer_timings(alloc, known, log, times, options)),
        Task::Why(options) => deliver(out, answer_why(alloc, known, options)),
    }
}
