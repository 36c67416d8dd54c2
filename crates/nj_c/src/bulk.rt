//! Lists that are returned many items at a time.

ghost use Rattle.std.specs.Prelude.{◌≡◌, ◌≢◌, ◌<◌, ◌-◌, ℕ, List, length, map, min, drop};
ghost use Rattle.nj_c.specs.Cited.{edge_at, inputs_of, outputs_of, users_of, path_at, AreFiles, edges_of, files_of, Done, KeptUnlessDone, AtEdge, AtFile, filled, kinds_of, GivesFiles, GivesNumbers, code_of};

use crate::asking::{ask_edge, ask_file};
use crate::items::kind_number;
use crate::session::Session;
use crate::status::Status;
use nj_graph::{EdgeGraph, EdgeNo, FileNo};
use std::alloc::Global;

/// The outputs of an edge, the explicit ones first, from an index on: as many as fit; and how many
/// there are in all.
#[unsafe(no_mangle)]
pub extern "C" fn nx_outputs(
    alloc: Global,
    session: &mut Session,
    edge: usize,
    from: usize,
    files: &mut [usize],
    count: &mut usize,
) -> i32
    ensures kept { session.new.kept ≡ session.old.kept }
    ensures files { AtEdge session.old.kept edge result (λ g.
        GivesFiles (files_of g) (outputs_of (edge_at (edges_of g) edge)) from
        files.old files.new count.new result) }
    ensures buffer { KeptUnlessDone files.old files.new result }
{
    ask_edge!(session, alloc, edge, graph => give_files(graph.outputs(edge), from, files, count))
}

/// The inputs of an edge and their kinds, as `nx_input` returns them, from an index on: as many of
/// each as fit; and how many inputs there are in all.
#[unsafe(no_mangle)]
pub extern "C" fn nx_inputs(
    alloc: Global,
    session: &mut Session,
    edge: usize,
    from: usize,
    files: &mut [usize],
    kinds: &mut [i32],
    count: &mut usize,
) -> i32
    ensures kept { session.new.kept ≡ session.old.kept }
    ensures files { AtEdge session.old.kept edge result (λ g.
        (GivesFiles (files_of g) (inputs_of (edge_at (edges_of g) edge)) from
        files.old files.new count.new result)
        × (kinds.new ≡ filled (drop from (kinds_of (edge_at (edges_of g) edge))) kinds.old)) }
    ensures file_buffer { KeptUnlessDone files.old files.new result }
    ensures kind_buffer { result ≢ code_of Done → kinds.new ≡ kinds.old }
{
    ask_edge!(session, alloc, edge, graph => {
        write_kinds(graph, edge, from, kinds);
        give_files(graph.inputs(edge), from, files, count)
    })
}

/// The edges that have a file as an input, by number, without duplicates, from an index on: as many
/// as fit; and how many there are in all.
#[unsafe(no_mangle)]
pub extern "C" fn nx_users(
    alloc: Global,
    session: &mut Session,
    file: usize,
    from: usize,
    edges: &mut [usize],
    count: &mut usize,
) -> i32
    ensures kept { session.new.kept ≡ session.old.kept }
    ensures edges { AtFile session.old.kept file result (λ g.
        GivesNumbers (users_of (edges_of g) (path_at (files_of g) (record { 0 = file }))) from
        edges.old edges.new count.new result) }
    ensures buffer { KeptUnlessDone edges.old edges.new result }
{
    ask_file!(session, alloc, file, graph => give_edges(graph.users(file), from, edges, count))
}

// Writes the numbers of the files of a list from an index on, as many as fit, and stores how many
// it has in all.
fn give_files(list: &[FileNo], from: usize, files: &mut [usize], count: &mut usize) -> Status
    ensures gives { (known paths : List (List ℕ)) → AreFiles known list.now paths
        → GivesFiles known paths from files.old files.new count.new (code_of result) }
    ensures done { result ≡ Done }
    ensures buffer { KeptUnlessDone files.old files.new (code_of result) }
{
    *count = list.len();
    let fitting = fitting_count(list.len(), from, files.len());
    'items: for at in 0..fitting {
        files[at] = list[from + at].0;
    }
    Status::Done
}

// The same for the numbers of edges.
fn give_edges(list: &[EdgeNo], from: usize, edges: &mut [usize], count: &mut usize) -> Status
    ensures gives { GivesNumbers (map (λ e. e.0) list.now) from edges.old edges.new count.new
        (code_of result) }
    ensures buffer { KeptUnlessDone edges.old edges.new (code_of result) }
{
    *count = list.len();
    let fitting = fitting_count(list.len(), from, edges.len());
    'items: for at in 0..fitting {
        edges[at] = list[from + at].0;
    }
    Status::Done
}

// Writes the kinds of an edge's inputs from an index on, as many as fit.
fn write_kinds(graph: &EdgeGraph, edge: EdgeNo, from: usize, kinds: &mut [i32])
    requires { edge.0 < length graph.now.edges }
    ensures { kinds.new ≡ filled (drop from (kinds_of (edge_at graph.now.edges edge.0))) kinds.old }
{
    let fitting = fitting_count(graph.inputs(edge).len(), from, kinds.len());
    'items: for at in 0..fitting {
        kinds[at] = kind_number(graph.input_kind(edge, from + at));
    }
}

// How many of the items from an index on fit.
fn fitting_count(count: usize, from: usize, room: usize) -> usize
    ensures { result ≡ min (count - from) room }
{
    count.saturating_sub(from).min(room)
}
