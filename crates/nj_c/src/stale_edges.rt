//! The edges that Ninja would run, and why.

ghost use Rattle.std.specs.Prelude.{◌≡◌, ◌<◌, All, IfErr, IfOk, Ok, length, map, slice_get};
ghost use Rattle.nj_c.specs.Cited.{AreStaleEdges, Changes, FindsStale, GivesItem, IfOpen, ListsStale, LogRefused, OfStatements, TimesRefused, build_log_of, code_of, edges_of, files_of, given_times, reason_code, reason_place};

use crate::asking::{alter, ask};
use crate::dirty_edges::flagged;
use crate::file_times::GivenTimes;
use crate::pages::graph_and_files;
use crate::session::Session;
use crate::session_state::Kept;
use crate::status::Status;
use nj_build_log::{BuildLog, BuildLogFault};
use nj_graph::{EdgeNo, FileNo, Graph};
use nj_scope::{FileSource, HashKeys};
use nj_state::{Reason, StaleEdge, StateFault, stale_edges};
use std::alloc::Global;
use std::mem;

/// Lists the edges that Ninja would run for the given targets: of the edges with commands that they
/// need, those that are stale, in the order in which they may run. `log` has the bytes of a build
/// log, as `.ninja_log` has them, and no bytes stand for a log without lines. `times` has for each
/// file, by its number, when it was last changed, in nanoseconds since 1970, and 0 if it does not
/// exist. `nx_stale_edge` returns them.
///
/// An edge is stale if its discovered inputs are not known, if an explicit or implicit input is
/// stale or a missing source, or if an output is missing, older than the newest of these inputs, or
/// not logged as the result of the present command. Before `nx_join_discovered` the discovered
/// inputs of all edges are treated as known.
#[unsafe(no_mangle)]
pub extern "C" fn nx_stale(
    alloc: Global,
    session: &mut Session,
    log: &[u8],
    times: &[u64],
    targets: &[usize],
) -> i32
    ensures { Changes session.old.kept session.new.kept result (λ kept after.
        ListsStale kept after log.now times.now targets.now) }
{
    alter!(session, alloc, kept => list_stale(alloc, &mut kept, log, times, targets))
}

/// The edge at an index among the stale edges that were listed last, the number of its first reason,
/// and the place of the file that the reason is about: among the inputs of the edge for a stale
/// input, else among its outputs. It is 0 if the discovered inputs are not known.
#[unsafe(no_mangle)]
pub extern "C" fn nx_stale_edge(
    alloc: Global,
    session: &mut Session,
    index: usize,
    edge: &mut usize,
    reason: &mut i32,
    place: &mut usize,
) -> i32
    ensures kept { session.new.kept ≡ session.old.kept }
    ensures stale { IfOpen session.old.kept result (λ kept. GivesItem
        (slice_get kept.stale.items index) result (λ stale. (edge.new ≡ stale.edge.0)
        × (reason.new ≡ reason_code stale.reason) × (place.new ≡ reason_place stale.reason))) }
{
    ask!(session, alloc, kept => give_stale(&kept.stale, index, edge, reason, place))
}

fn give_stale(
    list: &[StaleEdge],
    index: usize,
    edge: &mut usize,
    reason: &mut i32,
    place: &mut usize,
) -> Status
    ensures { GivesItem (slice_get list.now index) (code_of result) (λ stale.
        (edge.new ≡ stale.edge.0) × (reason.new ≡ reason_code stale.reason)
        × (place.new ≡ reason_place stale.reason)) }
{
    match list.get(index) {
        Some(stale) => {
            *edge = stale.edge.0;
            *reason = reason_number(stale.reason);
            *place = reason_place(stale.reason);
            Status::Done
        }
        None => Status::Nothing,
    }
}

// The number of a reason.
fn reason_number(reason: Reason) -> i32
    ensures { result ≡ reason_code reason }
{
    match reason {
        Reason::UnknownInputs => 0,
        Reason::StaleInput(_) => 1,
        Reason::MissingOutput(_) => 2,
        Reason::OlderOutput(_) => 3,
        Reason::OtherCommand(_) => 4,
        Reason::EarlierBuild(_) => 5,
        Reason::NotLogged(_) => 6,
    }
}

// The place of the input or the output that a reason is about.
fn reason_place(reason: Reason) -> usize
    ensures { result ≡ reason_place reason }
{
    match reason {
        Reason::UnknownInputs => 0,
        Reason::StaleInput(place) => place,
        Reason::MissingOutput(place) => place,
        Reason::OlderOutput(place) => place,
        Reason::OtherCommand(place) => place,
        Reason::EarlierBuild(place) => place,
        Reason::NotLogged(place) => place,
    }
}

// Keeps the stale edges, or returns the status that says why not.
fn list_stale(
    alloc: Global,
    kept: &mut Kept,
    log: &[u8],
    times: &[u64],
    targets: &[usize],
) -> Status
    ensures { ListsStale kept.old kept.new log.now times.now targets.now result }
{
    match find_stale(alloc, kept, log, times, targets) {
        Ok(stale) => {
            drop(mem::replace(&mut kept.stale, stale));
            Status::Done
        }
        Err(status) => status,
    }
}

// The stale edges of a session.
fn find_stale(
    alloc: Global,
    kept: &Kept,
    bytes: &[u8],
    times: &[u64],
    targets: &[usize],
) -> Result<Vec<StaleEdge>, Status>
    ensures { FindsStale kept.now bytes.now times.now targets.now result }
{
    let (graph, files) = graph_and_files(alloc, kept, targets)?;
    if times.len() != graph.file_count() {
        return Err(Status::BadNumber);
    }
    let log = read_log(alloc, kept.files.hash_keys(), bytes)?;
    let unknown = flagged(alloc, &kept.unknown, graph.edge_count())?;
    stale_in(alloc, graph, &unknown, &log, times, &files)
}

// The build log in the given bytes.
fn read_log(alloc: Global, keys: HashKeys, bytes: &[u8]) -> Result<BuildLog, Status>
    ensures log { IfOk result (λ log. build_log_of bytes.now ≡ Ok log) }
    ensures refused { IfErr result (LogRefused bytes.now) }
{
    match BuildLog::read_with_keys(alloc, keys, bytes) {
        Ok(log) => Ok(log),
        Err(BuildLogFault::NoBuildLog) => Err(Status::BadLog),
        Err(BuildLogFault::OtherVersion(_)) => Err(Status::BadLog),
        Err(BuildLogFault::OutOfMemory) => Err(Status::OutOfMemory),
    }
}

// The stale edges of a graph by a log.
fn stale_in(
    alloc: Global,
    graph: &Graph,
    unknown: &[EdgeNo],
    log: &BuildLog,
    times: &[u64],
    targets: &[FileNo],
) -> Result<Vec<StaleEdge>, Status>
    requires unknown { All (λ edge. edge.0 < length (edges_of graph.now)) unknown.now }
    requires targets { All (λ file. file.0 < length (files_of graph.now)) targets.now }
    ensures stale { OfStatements graph.now (λ entries. IfOk result (λ stale.
        AreStaleEdges graph.now.built.graph entries (map (λ edge. edge.0) unknown.now) log.now
        (given_times graph.now times.now) targets.now stale.items)) }
    ensures refused { IfErr result (TimesRefused graph.now) }
{
    match stale_edges(
        alloc,
        graph,
        unknown,
        log,
        &GivenTimes { graph, times },
        targets,
    ) {
        Ok(stale) => Ok(stale),
        Err(StateFault::NoTime(_)) => Err(Status::NotUtf8),
        Err(StateFault::OutOfMemory) => Err(Status::OutOfMemory),
    }
}
