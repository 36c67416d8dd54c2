//! Which files the manifest is made from.

ghost use Rattle.std.specs.Prelude.{◌≡◌, map, IfErr, IfOk, Some};
ghost use Rattle.nj_c.specs.Cited.{AreRefused, bool_code, AtGraph, filled, TellMadeFrom, FlagsKeptUnlessDone, GivesMadeFrom, AreKnown, code_of};

use crate::asking::ask;
use crate::pages::known_files;
use crate::session::Session;
use crate::status::Status;
use nj_ask::made_from;
use nj_graph::Graph;
use nj_scope::{FileSource, HashKeys};
use std::alloc::Global;

/// For each given file, whether the manifest is made from it: whether it was opened in the load, or
/// is an input of an edge that makes an opened file or has a value of `generator`, or that such an
/// edge needs through any chain of inputs. A change of the file may change everything.
///
/// Stores 1 or 0 for as many files as fit.
#[unsafe(no_mangle)]
pub extern "C" fn nx_made_from(
    alloc: Global,
    session: &mut Session,
    files: &[usize],
    flags: &mut [i32],
) -> i32
    ensures kept { session.new.kept ≡ session.old.kept }
    ensures flags { AtGraph session.old.kept result (λ g.
        GivesMadeFrom g files.now flags.old flags.new result) }
    ensures buffer { FlagsKeptUnlessDone flags.old flags.new result }
{
    ask!(session, alloc, kept => match &kept.graph {
        Some(graph) => give_made_from(alloc, graph, kept.files.hash_keys(), files, flags),
        None => Status::NotLoaded,
    })
}

fn give_made_from(
    alloc: Global,
    graph: &Graph,
    keys: HashKeys,
    numbers: &[usize],
    flags: &mut [i32],
) -> Status
    ensures flags { GivesMadeFrom graph.now numbers.now flags.old flags.new (code_of result) }
    ensures buffer { FlagsKeptUnlessDone flags.old flags.new (code_of result) }
{
    match made_from_numbers(alloc, graph, keys, numbers) {
        Ok(made) => {
            write_flags(&made, flags);
            Status::Done
        }
        Err(status) => status,
    }
}

// For each file with one of the given numbers, whether the manifest is made from it.
fn made_from_numbers(
    alloc: Global,
    graph: &Graph,
    keys: HashKeys,
    numbers: &[usize],
) -> Result<Vec<bool>, Status>
    ensures made { IfOk result (λ made.
        AreKnown graph.now numbers.now × TellMadeFrom graph.now numbers.now made.items) }
    ensures refused { IfErr result (AreRefused (Some graph.now) numbers.now) }
{
    let files = known_files(alloc, graph, numbers)?;
    Ok(made_from(alloc, graph, keys, &files)?)
}

// Writes as many flags as fit.
fn write_flags(made: &[bool], flags: &mut [i32])
    ensures { flags.new ≡ filled (map bool_code made.now) flags.old }
{
    let fitting = made.len().min(flags.len());
    'flags: for at in 0..fitting {
        flags[at] = flag_of(made[at]);
    }
}

fn flag_of(is: bool) -> i32
    ensures { result ≡ bool_code is }
{
    i32::from(is)
}
