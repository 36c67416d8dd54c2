//! Loads.

ghost use Rattle.std.specs.Prelude.{◌≡◌, ◌≢◌, false, map, not, nat_eq, Err};
ghost use Rattle.nj_c.specs.Cited.{no_memory, GivesTextAt, IfOpen, KeptUnlessDone, supplied_state, graph_loaded, unread, Changes, GivesGraph, KeepsNothing, LeavesNothing, LoadsKept, SameRun, FinishesLoad, KeepsFault, KeepsLoad, KeepsResult};

use crate::asking::{alter, ask};
use crate::buffers::copy_text;
use crate::session::Session;
use crate::session_state::Kept;
use crate::status::Status;
use crate::supplied_files::SuppliedFiles;
use crate::wanted_files::wanted_after;
use nj_graph::{Cause, Graph, GraphFault, Loaded, join_dyndeps, load};
use std::alloc::Global;
use std::mem;

/// Loads the main file at a path and all files that it includes, from the supplied files; and joins
/// the dyndep files to which edges are bound, if `joins_dyndeps` is not 0 ("Dynamic Dependencies"
/// in the Ninja manual). An earlier graph is freed. If files that were not supplied are wanted,
/// `nx_wanted` returns their paths; the `nx_fault_` calls return a fault.
#[unsafe(no_mangle)]
pub extern "C" fn nx_load(
    alloc: Global,
    session: &mut Session,
    main: &[u8],
    joins_dyndeps: u32,
) -> i32
    ensures { Changes session.old.kept session.new.kept result (λ kept after.
        LoadsKept kept after main.now (not (nat_eq joins_dyndeps 0))) }
{
    alter!(session, alloc, kept => load_main(alloc, &mut kept, main, joins_dyndeps != 0))
}

/// The path at an index among those that the last load wanted and that were not supplied.
#[unsafe(no_mangle)]
pub extern "C" fn nx_wanted(
    alloc: Global,
    session: &mut Session,
    index: usize,
    buffer: &mut [u8],
    needed: &mut usize,
) -> i32
    ensures kept { session.new.kept ≡ session.old.kept }
    ensures path { IfOpen session.old.kept result (λ kept. GivesTextAt
        (map (λ p. p.items) kept.wanted.items) index buffer.old buffer.new needed.new result) }
    ensures buffer { KeptUnlessDone buffer.old buffer.new result }
{
    ask!(session, alloc, kept => match kept.wanted.get(index) {
        Some(path) => copy_text(path, buffer, needed),
        None => Status::Nothing,
    })
}

// Loads the main file at a path.
fn load_main(alloc: Global, kept: &mut Kept, main: &[u8], joins: bool) -> Status
    ensures { LoadsKept kept.old kept.new main.now joins result }
{
    forget_load(kept);
    let Ok(main) = str::from_utf8(main) else {
        return Status::NotUtf8;
    };
    let loaded = load(alloc, &mut kept.files, main);
    finish_load(alloc, kept, loaded, joins)
}

// Forgets the load, what was joined to it, the readings and the lists.
fn forget_load(kept: &mut Kept)
    ensures files { kept.new.files ≡ unread kept.old.files }
    ensures nothing { KeepsNothing kept.new }
    ensures lists { LeavesNothing kept.new }
    ensures run { SameRun kept.old kept.new }
{
    drop(kept.graph.take());
    drop(kept.fault.take());
    kept.files.begin();
    kept.wanted.clear();
    kept.found.clear();
    kept.mark.clear();
    kept.log = None;
    kept.unknown.clear();
    kept.stale.clear();
}

// Keeps the wanted paths, or the result of the load.
fn finish_load(
    alloc: Global,
    kept: &mut Kept,
    loaded: Result<Loaded, GraphFault>,
    joins: bool,
) -> Status
    ensures { FinishesLoad kept.old kept.new joins loaded result }
{
    if lacks_memory(&loaded) {
        drop(loaded);
        return Status::OutOfMemory;
    }
    match wanted_after(alloc, &kept.files, &loaded, joins) {
        Ok(wanted) => keep_load(alloc, kept, loaded, wanted, joins),
        Err(_) => {
            drop(loaded);
            Status::OutOfMemory
        }
    }
}

// Whether a load ended because an allocation failed.
fn lacks_memory(loaded: &Result<Loaded, GraphFault>) -> bool
    ensures { result ≡ false → loaded.now ≢ Err no_memory }
{
    match loaded {
        Ok(_) => false,
        Err(fault) => matches!(fault.cause, Cause::OutOfMemory),
    }
}

// Keeps the wanted paths, or without any, the result of the load.
fn keep_load(
    alloc: Global,
    kept: &mut Kept,
    loaded: Result<Loaded, GraphFault>,
    wanted: Vec<Vec<u8>>,
    joins: bool,
) -> Status
    ensures { KeepsLoad kept.old kept.new joins loaded wanted result }
{
    if wanted.as_slice().is_empty() {
        let result = joined_graph(alloc, &mut kept.files, loaded, joins);
        return keep_result(kept, result);
    }
    drop(loaded);
    drop(mem::replace(&mut kept.wanted, wanted));
    Status::Wanted
}

// The graph of a load, to which its dyndep files are joined if that is requested.
#[tactic(auto, using(crate::proofs::LoadLemmas::gives_fault, crate::proofs::LoadLemmas::gives_loaded, crate::proofs::LoadLemmas::gives_joined))]
fn joined_graph(
    alloc: Global,
    files: &mut SuppliedFiles,
    loaded: Result<Loaded, GraphFault>,
    joins: bool,
) -> Result<Graph, GraphFault>
    ensures { GivesGraph (supplied_state files.old) (supplied_state files.new) joins loaded result }
{
    let loaded = loaded?;
    if !joins {
        return Ok(loaded.into_graph());
    }
    graph_of(join_dyndeps(alloc, loaded, files))
}

fn graph_of(loaded: Result<Loaded, GraphFault>) -> Result<Graph, GraphFault>
    ensures { result ≡ graph_loaded loaded }
{
    Ok(loaded?.into_graph())
}

/// Keeps the graph or the fault of a load, unless an allocation failed.
fn keep_result(kept: &mut Kept, loaded: Result<Graph, GraphFault>) -> Status
    ensures { KeepsResult kept.old kept.new loaded result }
{
    match loaded {
        Ok(graph) => {
            drop(kept.graph.replace(graph));
            Status::Done
        }
        Err(fault) => keep_fault(kept, fault),
    }
}

/// Keeps the fault of a load or a join, unless an allocation failed.
pub(crate) fn keep_fault(kept: &mut Kept, fault: GraphFault) -> Status
    ensures { KeepsFault kept.old kept.new fault result }
{
    if matches!(fault.cause, Cause::OutOfMemory) {
        return Status::OutOfMemory;
    }
    drop(kept.fault.replace(fault));
    Status::Fault
}
