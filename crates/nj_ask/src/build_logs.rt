//! The build log that `stale` is answered by.

ghost use Rattle.std.specs.Prelude.{◌≡◌, ◌≢◌, ◌++◌, ◌∷◌, [], Ok, codes, IfErr, IfOk, string_bytes};
ghost use Rattle.nj_build_log.specs.Faults.{fault_text};
ghost use Rattle.nj_build_log.specs.declared.build_log_fault.BuildLogFault.TheVariants.{OutOfMemory};
ghost use Rattle.nj_ask.specs.Cited.{value_if_bound, OfStatements, Fault, program_line, FailsBy, IsNoBuildLog, LacksBuildLog, LacksBuildLogAt, ReadsBuildLog, ReadsBuildLogAt, bad_log_line, build_log_of, built_path};

use crate::deps_log::{builddir, bytes_at, of_path};
use crate::failure::Failure;
use crate::status::Status;
use nj_build_log::{BuildLog, BuildLogFault};
use nj_graph::{FileSource, Graph, HashKeys};
use std::alloc::{AllocError, Global};

/// The build log of the directory where Ninja has it. One that is not there has no line.
///
/// # Errors
///
/// `Refused` if it cannot be read, or is no build log of a version that is read here; and
/// `OutOfMemory` if an allocation failed.
#[inline(never)]
pub(crate) fn read_build_log<S: FileSource>(
    alloc: Global,
    built: &mut S,
    graph: &Graph,
) -> Result<BuildLog, Failure>
    ensures read { OfStatements graph.now (λ entries. IfOk result (λ log.
        ReadsBuildLog entries (S.state built.old) (S.state built.new) log)) }
    ensures lacks { OfStatements graph.now (λ entries. IfErr result (FailsBy Fault
        (LacksBuildLog entries (S.state built.old) (S.state built.new)))) }
{
    match String::from_utf8(build_log_path(alloc, graph)?) {
        Ok(path) => build_log_at(alloc, built, &path),
        Err(_) => Err(not_text(alloc)),
    }
}

/// That the path of the build log is no text.
fn not_text(alloc: Global) -> Failure
    ensures { FailsBy Fault (λ line. line
        ≡ program_line (codes "the path of the build log is not UTF-8")) result }
{
    let text = b"the path of the build log is not UTF-8";
    Failure::in_words(alloc, b"", b"", text, Status::Fault)
}

/// The build log at a path.
fn build_log_at<S: FileSource>(
    alloc: Global,
    built: &mut S,
    path: &str,
) -> Result<BuildLog, Failure>
    ensures read { IfOk result (λ log.
        ReadsBuildLogAt path.now (S.state built.old) (S.state built.new) log) }
    ensures lacks { IfErr result (FailsBy Fault
        (LacksBuildLogAt path.now (S.state built.old) (S.state built.new))) }
{
    let bytes = match bytes_at(alloc, built, path) {
        Ok(bytes) => bytes,
        Err(failure) => return Err(failure),
    };
    match bytes {
        Some(bytes) => build_log_in(alloc, built.hash_keys(), path, &bytes),
        None => build_log_in(alloc, built.hash_keys(), path, b""),
    }
}

/// The build log in the bytes of the file at a path.
fn build_log_in(
    alloc: Global,
    keys: HashKeys,
    path: &str,
    bytes: &[u8],
) -> Result<BuildLog, Failure>
    ensures log { IfOk result (λ log. build_log_of bytes.now ≡ Ok log) }
    ensures fault { IfErr result (FailsBy Fault (IsNoBuildLog path.now bytes.now)) }
{
    match BuildLog::read_with_keys(alloc, keys, bytes) {
        Ok(log) => Ok(log),
        Err(fault) => Err(of_build_log(alloc, path, fault)),
    }
}

/// Why the file at a path is no build log. That memory ran out is no reason.
fn of_build_log(alloc: Global, path: &str, fault: BuildLogFault) -> Failure
    ensures { FailsBy Fault (λ line. (line ≡ bad_log_line path.now fault)
        × (fault ≢ OutOfMemory)) result }
{
    match fault_words(alloc, fault) {
        Ok(words) => of_path(alloc, path, words.as_bytes()),
        Err(_) => Failure::OutOfMemory,
    }
}

/// The place of a fault in the first line, and its text. That memory ran out is no fault of it.
fn fault_words(alloc: Global, fault: BuildLogFault) -> Result<String, AllocError>
    ensures text { IfOk result (λ text.
        string_bytes text ≡ codes ":1:1: " ++ fault_text fault) }
    ensures reason { IfOk result (λ _. fault ≢ OutOfMemory) }
{
    if matches!(fault, BuildLogFault::OutOfMemory) {
        return Err(AllocError);
    }
    format!(in alloc; ":1:1: {fault}")
}

/// Where Ninja has its build log: `.ninja_log`, in the directory that the main scope's `builddir`
/// names after all statements ("Ninja log" in the Ninja manual).
fn build_log_path(alloc: Global, graph: &Graph) -> Result<Vec<u8>, AllocError>
    ensures { OfStatements graph.now (λ entries. IfOk result (λ path. path.items
        ≡ built_path (value_if_bound entries (0 ∷ []) (codes "builddir")))) }
{
    let mut path = Vec::new(alloc);
    if let Some(folder) = builddir(graph) {
        if !folder.is_empty() {
            path.extend_from_slice(folder)?;
            path.push(b'/')?;
        }
    }
    path.extend_from_slice(b".ninja_log")?;
    Ok(path)
}
