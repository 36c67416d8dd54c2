//! The deps log on which an answer is based.

ghost use Rattle.std.specs.Prelude.{◌≡◌, ◌≢◌, ◌++◌, ◌∷◌, [], codes, false, true, IfErr, IfOk, option_copied, string_bytes};
ghost use Rattle.nj_deps.specs.Faults.{fault_text};
ghost use Rattle.nj_deps.specs.declared.log_fault.DepsLogFault.TheVariants.{OutOfMemory};
ghost use Rattle.nj_ask.specs.Cited.{outcome_bytes, value_if_bound, IsLogFault, IsLogOf, opening, OfStatements, Fault, line, program_line, LacksLog, ReadsBytes, ReadsLog, cut_line, log_path, own_path, FailsBy, IsUnreadable, LacksAt, ReadsAt};

use crate::failure::Failure;
use crate::status::Status;
use nj_deps::{DepsLog, DepsLogFault};
use nj_graph::{FileSource, Graph, MAIN_SCOPE, SourceFault};
use std::alloc::{AllocError, Global};

/// A deps log of the latest version without records.
const EMPTY_LOG: &[u8] = b"# ninjadeps\n\x04\x00\x00\x00";

/// A deps log that was read.
#[derive(Drop)]
pub(crate) struct ReadLog {
    /// The path of the log.
    pub(crate) path: String,
    /// Its records.
    pub(crate) log: DepsLog,
    /// A line that says why records may be missing; empty if nothing is wrong with the file.
    pub(crate) caveat: Vec<u8>,
}

/// The deps log at the named path, or without a name Ninja's own. Ninja's own has no records if it
/// is missing, or if Ninja would start it over: if it is not a deps log, or has another version.
#[inline(never)]
pub(crate) fn read_log<S: FileSource>(
    alloc: Global,
    built: &mut S,
    graph: &Graph,
    named: Option<&str>,
) -> Result<ReadLog, Failure>
    ensures path { OfStatements graph.now (λ entries. IfOk result (λ read.
        string_bytes read.path ≡ log_path (option_copied named.entry) entries)) }
    ensures read { OfStatements graph.now (λ entries. IfOk result (λ read.
        ReadsLog (option_copied named.entry) entries (S.state built.old) (S.state built.new)
        read.log read.caveat.items)) }
    ensures lacks { OfStatements graph.now (λ entries. IfErr result (FailsBy Fault
        (LacksLog (option_copied named.entry) entries (S.state built.old) (S.state built.new)))) }
{
    if let Some(path) = named {
        return named_log(alloc, built, path);
    }
    match String::from_utf8(own_path(alloc, graph)?) {
        Ok(path) => own_log(alloc, built, path),
        Err(_) => Err(not_text(alloc)),
    }
}

/// The failure for a path of Ninja's own log that is not UTF-8.
fn not_text(alloc: Global) -> Failure
    ensures { FailsBy Fault (λ line. line
        ≡ program_line (codes "the path of the deps log is not UTF-8")) result }
{
    let text = b"the path of the deps log is not UTF-8";
    Failure::in_words(alloc, b"", b"", text, Status::Fault)
}

/// The log at the named path. Refuses a missing file, and a file that is not a log.
fn named_log<S: FileSource>(alloc: Global, built: &mut S, path: &str) -> Result<ReadLog, Failure>
    ensures read { IfOk result
        (ReadsAt true path.now (S.state built.old) (S.state built.new)) }
    ensures lacks { IfErr result (FailsBy Fault
        (LacksAt true path.now (S.state built.old) (S.state built.new))) }
{
    let bytes = match bytes_at(alloc, built, path) {
        Ok(Some(bytes)) => bytes,
        Ok(None) => return Err(of_path(alloc, path, b": there is no such file")),
        Err(failure) => return Err(failure),
    };
    match DepsLog::read_with_keys(alloc, built.hash_keys(), &bytes) {
        Ok(log) => Ok(whole_or_cut(alloc, String::from_str(alloc, path)?, log, bytes.len())?),
        Err(fault) => Err(of_log(alloc, path, fault)),
    }
}

/// Ninja's own log.
fn own_log<S: FileSource>(alloc: Global, built: &mut S, path: String) -> Result<ReadLog, Failure>
    ensures read { IfOk result
        (ReadsAt false (string_bytes path) (S.state built.old) (S.state built.new)) }
    ensures lacks { IfErr result (FailsBy Fault
        (LacksAt false (string_bytes path) (S.state built.old) (S.state built.new))) }
{
    let bytes = match bytes_at(alloc, built, &path) {
        Ok(Some(bytes)) => bytes,
        Ok(None) => return Ok(without_records(alloc, path, Vec::new(alloc))?),
        Err(failure) => return Err(failure),
    };
    match DepsLog::read_with_keys(alloc, built.hash_keys(), &bytes) {
        Ok(log) => Ok(whole_or_cut(alloc, path, log, bytes.len())?),
        Err(fault) => {
            let caveat = caveat_about(alloc, &path, fault)?;
            Ok(without_records(alloc, path, caveat)?)
        }
    }
}

/// The line that says why the file at a path is started over.
fn caveat_about(alloc: Global, path: &str, fault: DepsLogFault) -> Result<Vec<u8>, AllocError>
    ensures line { IfOk result (λ caveat. caveat.items
        ≡ line (path.now ++ codes ": " ++ fault_text fault)) }
    ensures reason { IfOk result (λ _. fault ≢ OutOfMemory) }
{
    let text = log_text(alloc, fault)?;
    let mut caveat = Vec::from_slice(alloc, path.as_bytes())?;
    caveat.extend_from_slice(text.as_bytes())?;
    caveat.push(b'\n')?;
    Ok(caveat)
}

/// The log of a file of `size` bytes, with a caveat if not all of them were read.
fn whole_or_cut(
    alloc: Global,
    path: String,
    log: DepsLog,
    size: usize,
) -> Result<ReadLog, AllocError>
    ensures path { IfOk result (λ read. read.path ≡ path) }
    ensures log { IfOk result (λ read. read.log ≡ log) }
    ensures caveat { IfOk result (λ read. read.caveat.items
        ≡ cut_line (string_bytes path) log.is_whole log.size size) }
{
    let caveat = cut_line(alloc, &path, &log, size)?;
    Ok(ReadLog { path, log, caveat })
}

/// The line that says how much was read of a log of `size` bytes; empty if all was.
fn cut_line(alloc: Global, path: &str, log: &DepsLog, size: usize) -> Result<Vec<u8>, AllocError>
    ensures { IfOk result (λ line. line.items
        ≡ cut_line path.now log.now.is_whole log.now.size size) }
{
    let mut line = Vec::new(alloc);
    if log.is_whole() {
        return Ok(line);
    }
    let read = log.size();
    line.extend_from_slice(path.as_bytes())?;
    let rest = format!(in alloc; ": {read} of its {size} bytes were read\n")?;
    line.extend_from_slice(rest.as_bytes())?;
    Ok(line)
}

/// A log without records, with the given caveat.
fn without_records(alloc: Global, path: String, caveat: Vec<u8>) -> Result<ReadLog, AllocError>
    ensures path { IfOk result (λ read. read.path ≡ path) }
    ensures log { IfOk result (λ read. IsLogOf (opening 4) read.log) }
    ensures caveat { IfOk result (λ read. read.caveat ≡ caveat) }
{
    let log = empty_log(alloc)?;
    Ok(ReadLog { path, log, caveat })
}

/// A log without records.
fn empty_log(alloc: Global) -> Result<DepsLog, AllocError>
    ensures { IfOk result (IsLogOf (opening 4)) }
{
    match DepsLog::read(alloc, EMPTY_LOG) {
        Ok(log) => Ok(log),
        Err(_) => Err(AllocError),
    }
}

/// The bytes of the file at a path; `None` if there is no file.
pub(crate) fn bytes_at<S: FileSource>(
    alloc: Global,
    built: &mut S,
    path: &str,
) -> Result<Option<Vec<u8>>, Failure>
    ensures read { IfOk result (λ bytes. ReadsBytes (S.state built.old) (S.state built.new)
        path.now (outcome_bytes bytes)) }
    ensures unreadable { IfErr result (FailsBy Fault
        (IsUnreadable path.now (S.state built.old) (S.state built.new))) }
{
    match built.read(alloc, path) {
        Ok(bytes) => Ok(bytes),
        Err(SourceFault::Io) => Err(of_path(alloc, path, b": the file could not be read")),
        Err(SourceFault::OutOfMemory) => Err(Failure::OutOfMemory),
    }
}

/// The failure with the given words about a path.
pub(crate) fn of_path(alloc: Global, path: &str, said: &[u8]) -> Failure
    ensures { FailsBy Fault (λ line. line ≡ program_line (path.now ++ said.now)) result }
{
    Failure::in_words(alloc, b"", path.as_bytes(), said, Status::Fault)
}

/// The failure for a file that is not a log.
fn of_log(alloc: Global, path: &str, fault: DepsLogFault) -> Failure
    ensures { FailsBy Fault (λ line. (line
        ≡ program_line (path.now ++ codes ": " ++ fault_text fault)) × (fault ≢ OutOfMemory))
        result }
{
    match log_text(alloc, fault) {
        Ok(text) => of_path(alloc, path, text.as_bytes()),
        Err(_) => Failure::OutOfMemory,
    }
}

/// The text after the path of a file that is not a log. Fails if memory ran out.
fn log_text(alloc: Global, fault: DepsLogFault) -> Result<String, AllocError>
    ensures text { IfOk result (λ text.
        string_bytes text ≡ codes ": " ++ fault_text fault) }
    ensures reason { IfOk result (λ _. fault ≢ OutOfMemory) }
{
    if matches!(fault, DepsLogFault::OutOfMemory) {
        return Err(AllocError);
    }
    format!(in alloc; ": {fault}")
}

/// The path of Ninja's deps log: `.ninja_deps`, in the directory that the main scope's `builddir`
/// names after all statements ("Deps" in the Ninja manual).
fn own_path(alloc: Global, graph: &Graph) -> Result<Vec<u8>, AllocError>
    ensures { OfStatements graph.now (λ entries. IfOk result (λ path. path.items
        ≡ own_path (value_if_bound entries (0 ∷ []) (codes "builddir")))) }
{
    let mut path = Vec::new(alloc);
    if let Some(folder) = builddir(graph) {
        if !folder.is_empty() {
            path.extend_from_slice(folder)?;
            path.push(b'/')?;
        }
    }
    path.extend_from_slice(b".ninja_deps")?;
    Ok(path)
}

/// The value of `builddir` in the main scope after all statements.
pub(crate) fn builddir(graph: &Graph) -> Option<&[u8]>
    ensures { OfStatements graph.now (λ entries.
        option_copied result ≡ value_if_bound entries (0 ∷ []) (codes "builddir")) }
{
    let count = graph.scope_count();
    if count == 0 {
        return None;
    }
    graph.scope_value(MAIN_SCOPE, b"builddir")
}
