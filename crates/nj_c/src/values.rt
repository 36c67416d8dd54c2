//! The values of variables for edges.

ghost use Rattle.std.specs.Prelude.{◌≡◌, ◌<◌, length, codes};
ghost use Rattle.nj_c.specs.Cited.{edges_of, OutOfMemory, GivesValue, KeptUnlessDone, AtEdge, code_of};

use crate::asking::ask_edge;
use crate::buffers::copy_text;
use crate::session::Session;
use crate::status::Status;
use nj_graph::{EdgeNo, Graph};
use std::alloc::Global;

/// The value of a variable for an edge, where its rule is used after all statements ("Rule
/// variables" in the Ninja manual): `description`, `depfile`, `rspfile` or any other name. An
/// unbound name has the empty value.
#[unsafe(no_mangle)]
pub extern "C" fn nx_variable(
    alloc: Global,
    session: &mut Session,
    edge: usize,
    name: &[u8],
    buffer: &mut [u8],
    needed: &mut usize,
) -> i32
    ensures kept { session.new.kept ≡ session.old.kept }
    ensures value { AtEdge session.old.kept edge result (λ g.
        GivesValue g edge name.now buffer.old buffer.new needed.old needed.new result) }
    ensures buffer { KeptUnlessDone buffer.old buffer.new result }
{
    ask_edge!(session, alloc, edge, graph => value(alloc, graph, edge, name, buffer, needed))
}

/// The command of an edge, as it is passed to a shell; for a phony edge, the value that its block
/// binds to `command`, usually empty.
#[unsafe(no_mangle)]
pub extern "C" fn nx_command(
    alloc: Global,
    session: &mut Session,
    edge: usize,
    buffer: &mut [u8],
    needed: &mut usize,
) -> i32
    ensures kept { session.new.kept ≡ session.old.kept }
    ensures value { AtEdge session.old.kept edge result (λ g.
        GivesValue g edge (codes "command") buffer.old buffer.new needed.old needed.new result) }
    ensures buffer { KeptUnlessDone buffer.old buffer.new result }
{
    nx_variable(alloc, session, edge, b"command", buffer, needed)
}

fn value(
    alloc: Global,
    graph: &Graph,
    edge: EdgeNo,
    name: &[u8],
    buffer: &mut [u8],
    needed: &mut usize,
) -> Status
    requires { edge.0 < length (edges_of graph.now) }
    ensures gives { GivesValue graph.now edge.0 name.now buffer.old buffer.new
        needed.old needed.new (code_of result) }
    ensures buffer { KeptUnlessDone buffer.old buffer.new (code_of result) }
{
    match graph.edge_at(edge).variable(alloc, name) {
        Ok(text) => copy_text(&text, buffer, needed),
        Err(_) => Status::OutOfMemory,
    }
}
