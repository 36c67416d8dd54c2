//! The edges that are to be built again where files changed.

ghost use Rattle.std.specs.Prelude.{◌≡◌, ◌<◌, All, IfOk};
ghost use Rattle.nj_c.specs.Cited.{flagged, AreDirty, ListsDirty, Changes, numbers_of, AreRefused, FindsEdges};

use crate::asking::list;
use crate::pages::{Page, graph_and_files};
use crate::session::Session;
use crate::session_state::Kept;
use crate::status::Status;
use nj_ask::is_set;
use nj_graph::{EdgeGraph, EdgeNo};
use std::alloc::{AllocError, Global};

/// Lists the edges that are to be built again where the given files changed, phony edges among
/// them, without duplicates, by number: those whose discovered inputs are not known, those that
/// have one of the files as an output or as an explicit or implicit input, and those that have an
/// output of an edge that is to be built again as an explicit or implicit input. `nx_found` returns
/// them.
///
/// Before `nx_join_discovered` the discovered inputs of all edges are treated as known.
#[unsafe(no_mangle)]
pub extern "C" fn nx_dirtied(alloc: Global, session: &mut Session, files: &[usize]) -> i32
    ensures { Changes session.old.kept session.new.kept result (λ kept after.
        ListsDirty kept after files.now) }
{
    list!(session, alloc, kept => dirtied(alloc, kept, files))
}

// The edges that are to be built again where files with the given numbers changed.
fn dirtied(alloc: Global, kept: &Kept, numbers: &[usize]) -> Result<Page, Status>
    ensures { FindsEdges kept.now numbers.now (AreDirty kept.now numbers.now)
        (AreRefused kept.now.graph numbers.now) result }
{
    let (graph, files) = graph_and_files(alloc, kept, numbers)?;
    let graph: &EdgeGraph = graph;
    let unknown = flagged(alloc, &kept.unknown, graph.edge_count())?;
    let edges = graph.dirtied_by(alloc, &files, &unknown)?;
    let mark = Vec::new(alloc);
    Ok(Page { edges, mark })
}

/// The edges with a flag, of the first ones.
pub(crate) fn flagged(
    alloc: Global,
    flags: &[bool],
    count: usize,
) -> Result<Vec<EdgeNo>, AllocError>
    ensures edges { IfOk result (λ edges. numbers_of edges.items ≡ flagged flags.now count) }
    ensures below { IfOk result (λ edges. All (λ edge. edge.0 < count) edges.items) }
{
    let mut edges = Vec::new(alloc);
    'edges: for edge in 0..count {
        if is_set(flags, edge) {
            edges.push(EdgeNo(edge))?;
        }
    }
    Ok(edges)
}
