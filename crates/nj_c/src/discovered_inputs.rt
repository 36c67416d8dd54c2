//! Inputs that builds discovered.

ghost use Rattle.std.specs.Prelude.{◌≡◌, ◌≢◌, ◌<◌, List, length, map, slice_get, IfOk, IfErr, Some, None};
ghost use Rattle.nj_c.specs.Cited.{IsLogOf, IsLogFault, ReadStatement, AreDiscovered, edges_of, GraphModel, IsGraphOf, bool_code, GivesItem, IfLoaded, IfNumber, IfOpen, given_read, lacking_depfiles, log_bytes, times_of, unknown_of, ForgetsGraph, JoinsDiscovered, JoinsFound, supplied_state, SameFiles, Changes, code_of, FindsOr, JoinsTo, KeepsFound};

use crate::asking::{alter, ask};
use crate::deps_logs::log_read;
use crate::edge_times::EdgeTimes;
use crate::lacking_depfiles::lacking_depfiles;
use crate::loads::keep_fault;
use crate::session::Session;
use crate::session_state::{Kept, LogRead};
use crate::status::Status;
use crate::supplied_files::SuppliedFiles;
use nj_deps::{DepsLog, DepsLogFault};
use nj_graph::{Discoveries, Graph, GraphFault, Verdict};
use nj_scope::{FileSource, HashKeys};
use std::alloc::{AllocError, Global};
use std::mem;

// A deps log without records.
const EMPTY_LOG: &[u8] = b"# ninjadeps\n\x04\x00\x00\x00";

/// Joins the inputs that builds discovered to the loaded graph, as Ninja loads them before a build
/// ("Deps" and "C/C++ header dependencies" in the Ninja manual): by a deps log for an edge whose
/// value of `deps` is not empty, else by its depfile, which is one of the supplied files. No bytes
/// stand for a log without records. `times` has for each edge when its first output was last
/// changed, in nanoseconds since 1970: 0 if the output is missing, and 2^64 - 1 if the time is not
/// known. A record of the log that is older than the output is ignored.
///
/// Depfiles that were not supplied are wanted, and the graph is unchanged. A dependency cycle is a
/// fault; after it, and after a failed allocation, no graph is loaded.
#[unsafe(no_mangle)]
pub extern "C" fn nx_join_discovered(
    alloc: Global,
    session: &mut Session,
    log: &[u8],
    times: &[u64],
) -> i32
    ensures { Changes session.old.kept session.new.kept result (λ kept after.
        JoinsDiscovered kept after log.now times.now) }
{
    alter!(session, alloc, kept => join_bytes(alloc, &mut kept, log, times))
}

/// Whether the discovered inputs of an edge are not known: the deps log has no usable record of it,
/// or its depfile is missing, empty or faulty. `NX_NOTHING` before `nx_join_discovered`.
#[unsafe(no_mangle)]
pub extern "C" fn nx_is_unknown(
    alloc: Global,
    session: &mut Session,
    edge: usize,
    unknown: &mut i32,
) -> i32
    ensures kept { session.new.kept ≡ session.old.kept }
    ensures unknown { IfOpen session.old.kept result (λ kept. IfLoaded kept.graph result (λ g.
        IfNumber edge (length (edges_of g)) result (GivesItem (slice_get kept.unknown.items edge)
        result (λ is. unknown.new ≡ bool_code is)))) }
{
    ask!(session, alloc, kept => match &kept.graph {
        Some(graph) => if edge < graph.edge_count() {
            give_flag(&kept.unknown, edge, unknown)
        } else {
            Status::BadNumber
        },
        None => Status::NotLoaded,
    })
}

fn give_flag(flags: &[bool], index: usize, flag: &mut i32) -> Status
    ensures { GivesItem (slice_get flags.now index) (code_of result)
        (λ is. flag.new ≡ bool_code is) }
{
    match flags.get(index) {
        Some(is) => {
            *flag = i32::from(*is);
            Status::Done
        }
        None => Status::Nothing,
    }
}

fn join_bytes(alloc: Global, kept: &mut Kept, bytes: &[u8], times: &[u64]) -> Status
    ensures { JoinsDiscovered kept.old kept.new bytes.now times.now result }
{
    let Some(graph) = &kept.graph else {
        return Status::NotLoaded;
    };
    if times.len() != graph.edge_count() {
        return Status::BadNumber;
    }
    match read_log(alloc, kept.files.hash_keys(), bytes) {
        Ok(given) => join_log(alloc, kept, &given, times),
        Err(DepsLogFault::NoDepsLog) => Status::BadLog,
        Err(DepsLogFault::OtherVersion(_)) => Status::BadLog,
        Err(DepsLogFault::OutOfMemory) => {
            forget_graph(kept);
            Status::OutOfMemory
        }
    }
}

// A given log, and how far it was read.
#[derive(Drop)]
struct GivenLog {
    log: DepsLog,
    read: LogRead,
}

// The log in the given bytes, where no bytes stand for a log without records.
fn read_log(alloc: Global, keys: HashKeys, bytes: &[u8]) -> Result<GivenLog, DepsLogFault>
    ensures log { IfOk result (λ given. IsLogOf (log_bytes bytes.now) given.log) }
    ensures read { IfOk result (λ given. given.read ≡ given_read bytes.now given.log) }
    ensures fault { IfErr result (λ fault. IsLogFault (log_bytes bytes.now) fault) }
{
    let log = DepsLog::read_with_keys(alloc, keys, log_bytes(bytes))?;
    let read = given_read(bytes, &log);
    Ok(GivenLog { log, read })
}

fn log_bytes(bytes: &[u8]) -> &[u8]
    ensures { result.now ≡ log_bytes bytes.now }
{
    if bytes.is_empty() {
        return EMPTY_LOG;
    }
    bytes
}

// How far the log in the given bytes was read.
fn given_read(bytes: &[u8], log: &DepsLog) -> LogRead
    ensures { result ≡ given_read bytes.now log.now }
{
    if bytes.is_empty() {
        return LogRead {
            size: 0,
            is_whole: true,
        };
    }
    log_read(log)
}

// Frees the graph, and forgets the wanted paths.
fn forget_graph(kept: &mut Kept)
    ensures { ForgetsGraph kept.old kept.new }
{
    drop(kept.graph.take());
    kept.wanted.clear();
}

// Joins what the edges of the kept graph discovered.
fn join_log(alloc: Global, kept: &mut Kept, given: &GivenLog, times: &[u64]) -> Status
    requires { kept.old.graph ≢ None }
    ensures { (g : GraphModel) → kept.old.graph ≡ Some g
        → JoinsFound g kept.old kept.new given.now.log given.now.read times.now result }
{
    match kept.graph.take() {
        Some(graph) => join_to(alloc, kept, graph, given, times),
        None => Status::NotLoaded,
    }
}

// The same for a graph that was taken out.
fn join_to(alloc: Global, kept: &mut Kept, graph: Graph, given: &GivenLog, times: &[u64]) -> Status
    ensures { JoinsFound graph kept.old kept.new given.now.log given.now.read times.now result }
{
    match lacking_depfiles(alloc, &kept.files, &graph) {
        Ok(wanted) => join_or_want(alloc, kept, graph, wanted, given, times),
        Err(_) => {
            drop(graph);
            forget_graph(kept);
            Status::OutOfMemory
        }
    }
}

// Keeps the wanted paths, or without any, joins what the edges discovered.
fn join_or_want(
    alloc: Global,
    kept: &mut Kept,
    graph: Graph,
    wanted: Vec<Vec<u8>>,
    given: &GivenLog,
    times: &[u64],
) -> Status
    requires { (stated : List ReadStatement) → IsGraphOf graph stated
        → map (λ p. p.items) wanted.items
        ≡ lacking_depfiles kept.old.files stated (length (edges_of graph)) }
    ensures { JoinsFound graph kept.old kept.new given.now.log given.now.read times.now result }
{
    let none_wanted = wanted.as_slice().is_empty();
    drop(mem::replace(&mut kept.wanted, wanted));
    if none_wanted {
        let joined = join_found(alloc, graph, &mut kept.files, &given.log, times);
        return keep_found(kept, given.read, joined);
    }
    drop(kept.graph.replace(graph));
    Status::Wanted
}

/// A graph with the inputs that its edges discovered.
#[derive(Drop)]
pub struct Joined {
    pub(crate) graph: Graph,
    /// For each edge, whether its discovered inputs are not known.
    pub(crate) unknown: Vec<bool>,
}

// Joins what the edges of a graph discovered.
fn join_found(
    alloc: Global,
    graph: Graph,
    files: &mut SuppliedFiles,
    log: &DepsLog,
    times: &[u64],
) -> Result<Joined, GraphFault>
    ensures files { SameFiles files.old files.new }
    ensures finds { FindsOr graph files.old files.new log.now times.now result }
{
    files.begin();
    let found = discover(alloc, &graph, files, log, times)?;
    join_known(alloc, graph, &found)
}

// Joins the given discoveries to a graph.
fn join_known(alloc: Global, graph: Graph, found: &Discoveries) -> Result<Joined, GraphFault>
    requires { length found.now.edges ≡ length (edges_of graph) }
    ensures { JoinsTo graph found.now result }
{
    let unknown = unknown_edges(alloc, found)?;
    let graph = graph.join_discovered(alloc, found)?;
    Ok(Joined { graph, unknown })
}

// What the edges of a graph discovered.
fn discover(
    alloc: Global,
    graph: &Graph,
    files: &mut SuppliedFiles,
    log: &DepsLog,
    times: &[u64],
) -> Result<Discoveries, AllocError>
    ensures files { SameFiles files.old files.new }
    ensures count { IfOk result (λ found.
        length found.edges ≡ length (edges_of graph.now)) }
    ensures discovered { (stated : List ReadStatement) → IsGraphOf graph.now stated
        → IfOk result (AreDiscovered (supplied_state files.old) (supplied_state files.new)
        (times_of graph.now times.now) log.now stated) }
{
    graph.discover(alloc, log, files, &EdgeTimes { graph, times })
}

// For each edge, whether its discovered inputs are not known.
fn unknown_edges(alloc: Global, found: &Discoveries) -> Result<Vec<bool>, AllocError>
    ensures { IfOk result (λ flags. flags.items ≡ unknown_of found.now) }
{
    let mut flags = Vec::new(alloc);
    'edges: for edge in 0..found.edge_count() {
        flags.push(!matches!(found.verdict(edge), Verdict::Known))?;
    }
    Ok(flags)
}

// Keeps the graph, how far the log was read and which edges are unknown, or the fault.
fn keep_found(kept: &mut Kept, read: LogRead, joined: Result<Joined, GraphFault>) -> Status
    ensures { KeepsFound kept.old kept.new read joined result }
{
    match joined {
        Ok(Joined { graph, unknown }) => {
            drop(kept.graph.replace(graph));
            drop(mem::replace(&mut kept.unknown, unknown));
            kept.log = Some(read);
            Status::Done
        }
        Err(fault) => {
            drop(kept.graph.take());
            keep_fault(kept, fault)
        }
    }
}
