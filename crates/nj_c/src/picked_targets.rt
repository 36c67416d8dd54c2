//! Targets, as words of a command line name them.

ghost use Rattle.std.specs.Prelude.{◌≡◌};
ghost use Rattle.nj_c.specs.Cited.{Changes, PicksFile, KeepsFault};

use crate::asking::change;
use crate::sealed_box::Seal;
use crate::session::Session;
use crate::status::Status;
use nj_graph::{Cause, GraphFault, pick_target};
use std::alloc::Global;

/// The file that a word of the command line denotes: the file at its path, which is cleaned first;
/// for `FILE^` the first output of the first edge that has FILE as an input ("Running Ninja" in the
/// Ninja manual). Without such a file, that is the last fault of the session.
#[unsafe(no_mangle)]
pub extern "C" fn nx_pick_target(
    alloc: Global,
    session: &mut Session,
    word: &[u8],
    file: &mut usize,
) -> i32
    ensures { Changes session.old.kept session.new.kept result (λ kept after.
        PicksFile kept after word.now file.old file.new) }
{
    change!(session, alloc, seal => pick_file(alloc, seal, word, file))
}

fn pick_file(alloc: Global, seal: Seal, word: &[u8], file: &mut usize) -> (Seal, Status)
    ensures { PicksFile seal.kept result.0.kept word.now file.old file.new result.1 }
{
    let Some(graph) = &seal.get().graph else {
        return (seal, Status::NotLoaded);
    };
    match pick_target(alloc, graph, word) {
        Ok(found) => {
            *file = found.0;
            (seal, Status::Done)
        }
        Err(fault) => keep_fault(seal, fault),
    }
}

// Keeps the fault, unless an allocation failed.
fn keep_fault(seal: Seal, fault: GraphFault) -> (Seal, Status)
    ensures { KeepsFault seal.kept result.0.kept fault result.1 }
{
    if matches!(fault.cause, Cause::OutOfMemory) {
        return (seal, Status::OutOfMemory);
    }
    let mut kept = seal.into_box();
    kept.fault = Some(fault);
    (Seal::new(kept), Status::Fault)
}
