//! The files that were opened.

ghost use Rattle.std.specs.Prelude.{◌≡◌, map};
ghost use Rattle.nj_c.specs.Cited.{GivesTextAt, KeptUnlessDone, AtGraph, code_of};

use crate::asking::ask_graph;
use crate::buffers::copy_text;
use crate::session::Session;
use crate::status::Status;
use nj_graph::Graph;
use std::alloc::Global;

/// The path at an index among the files that the load opened: that of the main file, and one more
/// for each `include` and `subninja` statement, even where it opens a file again ("Ninja file
/// reference" in the Ninja manual).
#[unsafe(no_mangle)]
pub extern "C" fn nx_opened(
    alloc: Global,
    session: &mut Session,
    index: usize,
    buffer: &mut [u8],
    needed: &mut usize,
) -> i32
    ensures kept { session.new.kept ≡ session.old.kept }
    ensures path { AtGraph session.old.kept result (λ g. GivesTextAt
        (map (λ o. o.path) g.origins.openings) index buffer.old buffer.new needed.new result) }
    ensures buffer { KeptUnlessDone buffer.old buffer.new result }
{
    ask_graph!(session, alloc, graph => give_opened(graph, index, buffer, needed))
}

fn give_opened(graph: &Graph, index: usize, buffer: &mut [u8], needed: &mut usize) -> Status
    ensures path { GivesTextAt (map (λ o. o.path) graph.now.origins.openings) index
        buffer.old buffer.new needed.new (code_of result) }
    ensures buffer { KeptUnlessDone buffer.old buffer.new (code_of result) }
{
    match graph.opening(index) {
        Some(opening) => copy_text(opening.path, buffer, needed),
        None => Status::Nothing,
    }
}
