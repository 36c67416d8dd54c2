//! The build of a graph, as it is judged.

ghost use Rattle.std.specs.Prelude.{◌≡◌, ◌<◌, ◌++◌, IfErr, IfOk, codes, length};
ghost use Rattle.nj_ask.specs.Cited.{FailsBy, Fault, HasCounts, HasEdges, IsJudgedBuild, IsJudgedGraph, LacksTime, OfStatements, path_at, program_line};

use crate::discovered::DiscoveredGraph;
use crate::failure::Failure;
use crate::stated::stated_flags;
use crate::status::Status;
use nj_build_log::BuildLog;
use nj_graph::{EdgeGraph, FileNo, FileTimes};
use nj_state::{JudgedBuild, StateFault, judged_build};
use std::alloc::Global;

/// The build of a graph, as it is judged.
#[derive(Drop)]
pub(crate) struct JudgedGraph {
    pub build: JudgedBuild,
    /// By file number, whether the manifest itself names the file.
    pub stated: Vec<bool>,
}

/// Judges the build of a graph, by a build log and the times of files. Looks up each file once.
///
/// # Errors
///
/// `Refused` if the time of a file cannot be read, and `OutOfMemory` if an allocation failed.
pub(crate) fn judged_graph<T: FileTimes>(
    alloc: Global,
    known: &DiscoveredGraph,
    log: &BuildLog,
    times: &T,
) -> Result<JudgedGraph, Failure>
    requires { HasEdges known.now }
    ensures judged { IfOk result (IsJudgedGraph known.now) }
    ensures build { OfStatements known.now.graph (λ entries. IfOk result (λ judged.
        IsJudgedBuild known.now entries log.now (T.times times.now) judged.build)) }
    ensures refused { IfErr result (FailsBy Fault
        (LacksTime (T.times times.now) known.now.graph)) }
{
    let build = match build_of(alloc, known, log, times) {
        Ok(build) => build,
        Err(failure) => return Err(failure),
    };
    let stated = stated_flags(alloc, &known.graph, &known.stated_inputs)?;
    Ok(JudgedGraph { build, stated })
}

/// The judged build.
fn build_of<T: FileTimes>(
    alloc: Global,
    known: &DiscoveredGraph,
    log: &BuildLog,
    times: &T,
) -> Result<JudgedBuild, Failure>
    requires { HasEdges known.now }
    ensures counts { IfOk result (HasCounts known.now.graph.built.graph) }
    ensures build { OfStatements known.now.graph (λ entries. IfOk result
        (IsJudgedBuild known.now entries log.now (T.times times.now))) }
    ensures refused { IfErr result (FailsBy Fault
        (LacksTime (T.times times.now) known.now.graph)) }
{
    match judged_build(alloc, &known.graph, &known.unknown, log, times) {
        Ok(build) => Ok(build),
        Err(StateFault::NoTime(file)) => Err(of_time(alloc, &known.graph, file)),
        Err(StateFault::OutOfMemory) => Err(Failure::OutOfMemory),
    }
}

/// That the time of a file cannot be read.
fn of_time(alloc: Global, graph: &EdgeGraph, file: FileNo) -> Failure
    requires { file.0 < length graph.now.files }
    ensures { FailsBy Fault (λ line. line ≡ program_line
        (path_at graph.now.files file ++ codes ": its time cannot be read")) result }
{
    let path = graph.path(file);
    Failure::in_words(
        alloc,
        b"",
        path,
        b": its time cannot be read",
        Status::Fault,
    )
}
