//! A run of the program.

ghost use Rattle.std.specs.Prelude.{◌≡◌, ◌⊎◌, ℕ, Ok, Err, IfOk, IfErr, List, map, string_bytes};
ghost use Rattle.nj_cli.specs.Cited.{request_of, OutOfMemory, request_model, ReadsGraph, RunsAs, RunsWords, RunsAsAndKeeps, RunsAndKeeps, around};

use crate::perform::{follows_validations, perform};
use crate::report::{conclude, report_fault, report_misuse};
use crate::status::Status;
use nj_args::{Request, UsageFault, read_words};
use nj_graph::{GraphFault, Loaded, join_dyndeps, load};
use nj_scope::FileSource;
use nj_tools::Sink;
use std::alloc::Global;

/// How a run ended, with its files and graph. The files and the graph are freed when the value is
/// dropped, which takes time: a program that is about to exit may forget it instead.
#[derive(Drop)]
pub struct Ended {
    pub status: Status,
    pub loaded: Option<Loaded>,
}

/// Runs the program with the given arguments, without its own name. Arguments that are not a valid
/// request are reported on standard error, and no file is read.
pub fn run_words<S: FileSource, O: Sink, E: Sink>(
    alloc: Global,
    source: &mut S,
    words: &[String],
    out: &mut O,
    err: &mut E,
) -> Status
    ensures { RunsWords (map string_bytes words.now)
        (around (S.state source.old) (O.state out.old) (E.state err.old))
        (around (S.state source.new) (O.state out.new) (E.state err.new)) result }
{
    status_of(run_words_and_keep(alloc, source, words, out, err))
}

/// The same as [`run_words`], but it also returns the loaded files: if the run was answered, the
/// files that were read and the graph of their statements; otherwise `None`.
pub fn run_words_and_keep<S: FileSource, O: Sink, E: Sink>(
    alloc: Global,
    source: &mut S,
    words: &[String],
    out: &mut O,
    err: &mut E,
) -> Ended
    ensures { RunsAndKeeps (map string_bytes words.now)
        (around (S.state source.old) (O.state out.old) (E.state err.old))
        (around (S.state source.new) (O.state out.new) (E.state err.new))
        result.status result.loaded }
{
    let read = read_words(alloc, words);
    run_read_words(alloc, source, &read, out, err)
}

/// The same as [`run_words_and_keep`] for arguments that [`read_words`] has read.
pub fn run_read_words<S: FileSource, O: Sink, E: Sink>(
    alloc: Global,
    source: &mut S,
    read: &Result<Request, UsageFault>,
    out: &mut O,
    err: &mut E,
) -> Ended
    ensures { (words : List (List ℕ))
        → IfOk read.now (λ request. request_of words ≡ Ok (request_model request))
        → IfErr read.now (λ fault. (fault ≡ OutOfMemory) ⊎ (request_of words ≡ Err fault))
        → RunsAndKeeps words
        (around (S.state source.old) (O.state out.old) (E.state err.old))
        (around (S.state source.new) (O.state out.new) (E.state err.new))
        result.status result.loaded }
{
    match read {
        Ok(request) => run_tool_and_keep(alloc, source, request, out, err),
        Err(fault) => Ended {
            status: report_misuse(alloc, err, fault),
            loaded: None,
        },
    }
}

/// Carries out a request: reads the main file and all that it includes, joins discoveries of dyndep
/// files if requested, and writes the requested output. A fault, or the mark at which the run was
/// stopped, is reported as a line on standard error.
pub fn run_tool<S: FileSource, O: Sink, E: Sink>(
    alloc: Global,
    source: &mut S,
    request: &Request,
    out: &mut O,
    err: &mut E,
) -> Status
    ensures { RunsAs (request_model request.now)
        (around (S.state source.old) (O.state out.old) (E.state err.old))
        (around (S.state source.new) (O.state out.new) (E.state err.new)) result }
{
    status_of(run_tool_and_keep(alloc, source, request, out, err))
}

// Returns the status alone. The call of `drop` frees the files and the graph, by a proof for each
// type; at the end of the function, one proof would open all that they own.
fn status_of(ended: Ended) -> Status
    ensures { result ≡ ended.status }
{
    let status = ended.status;
    drop(ended);
    status
}

// The same as `run_tool`, but it also returns the loaded files and graph.
fn run_tool_and_keep<S: FileSource, O: Sink, E: Sink>(
    alloc: Global,
    source: &mut S,
    request: &Request,
    out: &mut O,
    err: &mut E,
) -> Ended
    ensures { RunsAsAndKeeps (request_model request.now)
        (around (S.state source.old) (O.state out.old) (E.state err.old))
        (around (S.state source.new) (O.state out.new) (E.state err.new))
        result.status result.loaded }
{
    let loaded = match read_graph(alloc, source, request) {
        Ok(loaded) => loaded,
        Err(fault) => {
            return Ended {
                status: report_fault(alloc, err, &fault),
                loaded: None,
            };
        }
    };
    let outcome = perform(alloc, loaded.graph(), &request.action, out);
    let status = conclude(alloc, err, follows_validations(&request.action), outcome);
    Ended {
        status,
        loaded: Some(loaded),
    }
}

// The files of a request, and their graph.
fn read_graph<S: FileSource>(
    alloc: Global,
    source: &mut S,
    request: &Request,
) -> Result<Loaded, GraphFault>
    ensures { ReadsGraph (request_model request.now)
        (S.state source.old) (S.state source.new) result }
{
    let loaded = load(alloc, source, &request.file)?;
    if request.dyndep {
        return join_dyndeps(alloc, loaded, source);
    }
    Ok(loaded)
}
