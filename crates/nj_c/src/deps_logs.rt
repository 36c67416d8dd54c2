//! Deps logs.

ghost use Rattle.std.specs.Prelude.{◌≡◌, ◌≢◌, None};
ghost use Rattle.nj_c.specs.Cited.{bool_code, GivesItem, IfLoaded, IfOpen, read_of, JoinsDeps, Changes, code_of, JoinsKnown, KeepsJoined};

use crate::asking::{alter, ask};
use crate::loads::keep_fault;
use crate::session::Session;
use crate::session_state::{Kept, LogRead};
use crate::status::Status;
use nj_deps::{DepsLog, DepsLogFault};
use nj_graph::{Graph, GraphFault};
use nj_scope::FileSource;
use std::alloc::Global;

/// Joins the bytes of a deps log, as `.ninja_deps` has them, to the loaded graph ("Deps" in the
/// Ninja manual): each file that it names for the first output of an edge whose value of `deps` is
/// not empty becomes an implicit input of the edge, unless it is an explicit or implicit input of
/// it already. A log that is cut off is read as far as it goes. A dependency cycle is a fault;
/// after it, and after a failed allocation, no graph is loaded.
#[unsafe(no_mangle)]
pub extern "C" fn nx_join_deps(alloc: Global, session: &mut Session, log: &[u8]) -> i32
    ensures { Changes session.old.kept session.new.kept result (λ kept after.
        JoinsDeps kept after log.now) }
{
    alter!(session, alloc, kept => join_bytes(alloc, &mut kept, log))
}

/// How far the deps log that was joined to the graph last was read: how many of its bytes, and
/// whether that is the whole log. Reading ends before the first invalid record, as in Ninja.
#[unsafe(no_mangle)]
pub extern "C" fn nx_log_read(
    alloc: Global,
    session: &mut Session,
    size: &mut usize,
    is_whole: &mut i32,
) -> i32
    ensures kept { session.new.kept ≡ session.old.kept }
    ensures read { IfOpen session.old.kept result (λ kept.
        IfLoaded kept.graph result (λ g. GivesItem kept.log result (λ log.
        (size.new ≡ log.size) × (is_whole.new ≡ bool_code log.is_whole)))) }
{
    ask!(session, alloc, kept => match &kept.graph {
        Some(_) => give_log(&kept.log, size, is_whole),
        None => Status::NotLoaded,
    })
}

fn give_log(log: &Option<LogRead>, size: &mut usize, is_whole: &mut i32) -> Status
    ensures { GivesItem log.now (code_of result) (λ log.
        (size.new ≡ log.size) × (is_whole.new ≡ bool_code log.is_whole)) }
{
    match log {
        Some(log) => {
            *size = log.size;
            *is_whole = i32::from(log.is_whole);
            Status::Done
        }
        None => Status::Nothing,
    }
}

fn join_bytes(alloc: Global, kept: &mut Kept, bytes: &[u8]) -> Status
    ensures { JoinsDeps kept.old kept.new bytes.now result }
{
    if kept.graph.is_none() {
        return Status::NotLoaded;
    }
    match DepsLog::read_with_keys(alloc, kept.files.hash_keys(), bytes) {
        Ok(log) => join_log(alloc, kept, &log),
        Err(DepsLogFault::NoDepsLog) => Status::BadLog,
        Err(DepsLogFault::OtherVersion(_)) => Status::BadLog,
        Err(DepsLogFault::OutOfMemory) => {
            drop(kept.graph.take());
            Status::OutOfMemory
        }
    }
}

// Joins a log to the kept graph.
fn join_log(alloc: Global, kept: &mut Kept, log: &DepsLog) -> Status
    requires { kept.old.graph ≢ None }
    ensures { JoinsKnown kept.old kept.new log.now result }
{
    match kept.graph.take() {
        Some(graph) => keep_joined(kept, log, graph.join_deps(alloc, log)),
        None => Status::NotLoaded,
    }
}

// Keeps the graph with a log and how far the log was read, or the fault.
fn keep_joined(kept: &mut Kept, log: &DepsLog, joined: Result<Graph, GraphFault>) -> Status
    ensures { KeepsJoined kept.old kept.new log.now joined result }
{
    match joined {
        Ok(graph) => {
            kept.graph = Some(graph);
            kept.log = Some(log_read(log));
            Status::Done
        }
        Err(fault) => keep_fault(kept, fault),
    }
}

/// How far a log was read.
pub(crate) fn log_read(log: &DepsLog) -> LogRead
    ensures { result ≡ read_of log.now }
{
    LogRead {
        size: log.size(),
        is_whole: log.is_whole(),
    }
}
