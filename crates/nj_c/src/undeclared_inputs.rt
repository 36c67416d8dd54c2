//! Inputs that deps logs name for edges that do not declare them.

ghost use Rattle.std.specs.Prelude.{◌≡◌, ◌⊎◌, map};
ghost use Rattle.nj_c.specs.Cited.{AtGraph, OutOfMemory, code_of, filled, numbered_input, GivesInputs, GivesUndeclared, InputsKeptUnlessDone};

use crate::asking::ask;
use crate::session::Session;
use crate::status::Status;
use nj_deps::{DepsLog, DepsLogFault};
use nj_graph::{Graph, UndeclaredInput, undeclared_inputs};
use nj_scope::{FileSource, HashKeys};
use std::alloc::Global;

/// An input of an edge.
#[derive(Clone, Copy)]
#[repr(C)]
pub struct EdgeInput {
    pub edge: usize,
    pub file: usize,
}

/// The inputs that edges use without declaring them ("Deps" in the Ninja manual), by the bytes of a
/// deps log, as `.ninja_deps` has them: the log names a file for the first output of an edge whose
/// value of `deps` is not empty, another edge makes that file, and the edge does not need that
/// maker through any chain of inputs. By edge, then in the log's order, without duplicates. An edge
/// for which the log names `build.ninja`, by that very path, is left out. A log that is cut off is
/// read as far as it goes.
///
/// Stores as many inputs as fit, and how many there are. It reads the log again each time, and
/// joins nothing: call it before `nx_join_deps`, which makes logged files inputs.
#[unsafe(no_mangle)]
pub extern "C" fn nx_undeclared(
    alloc: Global,
    session: &mut Session,
    log: &[u8],
    inputs: &mut [EdgeInput],
    count: &mut usize,
) -> i32
    ensures kept { session.new.kept ≡ session.old.kept }
    ensures inputs { AtGraph session.old.kept result (λ g.
        GivesUndeclared g log.now inputs.old inputs.new count.new result) }
    ensures buffer { InputsKeptUnlessDone inputs.old inputs.new result }
{
    ask!(session, alloc, kept => match &kept.graph {
        Some(graph) => {
            give_undeclared(alloc, graph, kept.files.hash_keys(), log, inputs, count)
        }
        None => Status::NotLoaded,
    })
}

fn give_undeclared(
    alloc: Global,
    graph: &Graph,
    keys: HashKeys,
    bytes: &[u8],
    inputs: &mut [EdgeInput],
    count: &mut usize,
) -> Status
    ensures inputs { GivesUndeclared graph.now bytes.now inputs.old inputs.new count.new
        (code_of result) }
    ensures buffer { InputsKeptUnlessDone inputs.old inputs.new (code_of result) }
{
    match DepsLog::read_with_keys(alloc, keys, bytes) {
        Ok(log) => give_inputs(alloc, graph, &log, inputs, count),
        Err(DepsLogFault::NoDepsLog) => Status::BadLog,
        Err(DepsLogFault::OtherVersion(_)) => Status::BadLog,
        Err(DepsLogFault::OutOfMemory) => Status::OutOfMemory,
    }
}

// The same, by a log that was read.
fn give_inputs(
    alloc: Global,
    graph: &Graph,
    log: &DepsLog,
    inputs: &mut [EdgeInput],
    count: &mut usize,
) -> Status
    ensures inputs { (GivesInputs graph.now log.now inputs.old inputs.new count.new (code_of result))
        ⊎ (result ≡ OutOfMemory) }
    ensures buffer { InputsKeptUnlessDone inputs.old inputs.new (code_of result) }
{
    match undeclared_inputs(alloc, graph, log) {
        Ok(found) => {
            *count = found.as_slice().len();
            write_inputs(&found, inputs);
            Status::Done
        }
        Err(_) => Status::OutOfMemory,
    }
}

// Writes as many inputs as fit.
fn write_inputs(found: &[UndeclaredInput], inputs: &mut [EdgeInput])
    ensures { inputs.new ≡ filled (map numbered_input found.now) inputs.old }
{
    let fitting = found.len().min(inputs.len());
    'inputs: for at in 0..fitting {
        inputs[at] = numbered_input(found[at]);
    }
}

fn numbered_input(input: UndeclaredInput) -> EdgeInput
    ensures { result ≡ numbered_input input }
{
    EdgeInput {
        edge: input.edge.0,
        file: input.file.0,
    }
}
