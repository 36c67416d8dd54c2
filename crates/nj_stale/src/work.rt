//! Which edges have something to do in a build.

ghost use Rattle.std.specs.Prelude.{◌≡◌, ◌<◌, None, IfOk, is_some, length, option_map, slice_index_or, false};
ghost use Rattle.nj_stale.specs.Cited.{AreWorkFlags, edge_at, has_flag, has_flagged_maker, is_idle, work_held, works_held};

use crate::order::edge_numbers;
use crate::reason::Reason;
use crate::reasons::has_no_input;
use nj_edges::{EdgeGraph, EdgeNo};
use std::alloc::{AllocError, Global};

/// Returns by edge number whether an edge has something to do, given the reasons of all edges: it
/// is stale, or an edge has something to do that makes an input of any kind. A phony edge without
/// any input has nothing to do.
///
/// Takes time in proportion to the edges and their inputs. Fails only if an allocation fails.
pub fn work_flags(
    alloc: Global,
    graph: &EdgeGraph,
    reasons: &[Option<Reason>],
) -> Result<Vec<bool>, AllocError>
    ensures { IfOk result (λ flags. AreWorkFlags graph.now.edges reasons.now flags.items) }
{
    let order = edge_numbers(alloc, graph)?;
    let mut flags = vec![in alloc; false; graph.edge_count()]?;
    'turns: for turn in 0..order.len() {
        let edge = EdgeNo(order[turn]);
        flags[edge.0] = has_work(graph, reasons, &flags, edge);
    }
    Ok(flags)
}

// Whether an edge has something to do, given the flags of the makers of its inputs.
fn has_work(graph: &EdgeGraph, reasons: &[Option<Reason>], flags: &[bool], edge: EdgeNo) -> bool
    requires { edge.0 < length graph.now.edges }
    ensures { result ≡ work_held graph.now.edges reasons.now flags.now edge.0 }
{
    let works = works(graph, reasons, edge);
    works || has_flagged_maker(graph, flags, edge)
}

// Whether an edge has something to do itself.
fn works(graph: &EdgeGraph, reasons: &[Option<Reason>], edge: EdgeNo) -> bool
    requires { edge.0 < length graph.now.edges }
    ensures { result ≡ works_held graph.now.edges reasons.now edge.0 }
{
    let idle = is_idle(graph, edge);
    has_reason(reasons, edge) && !idle
}

// Whether an edge has a reason.
fn has_reason(reasons: &[Option<Reason>], edge: EdgeNo) -> bool
    ensures { result ≡ is_some (slice_index_or reasons.now edge.0 None) }
{
    match reasons.get(edge.0) {
        Some(reason) => reason.is_some(),
        None => false,
    }
}

// Whether an edge is phony and has no input of any kind.
fn is_idle(graph: &EdgeGraph, edge: EdgeNo) -> bool
    requires { edge.0 < length graph.now.edges }
    ensures { result ≡ is_idle (edge_at graph.now.edges edge.0) }
{
    let is_empty = has_no_input(graph, edge);
    graph.is_phony(edge) && is_empty
}

// Whether one of the makers of the inputs of an edge has a flag.
fn has_flagged_maker(graph: &EdgeGraph, flags: &[bool], edge: EdgeNo) -> bool
    requires { edge.0 < length graph.now.edges }
    ensures { result ≡ has_flagged_maker graph.now.edges flags.now edge.0 }
{
    'inputs: for index in 0..graph.inputs(edge).len() {
        if has_flag(flags, graph.maker_at(edge, index).unwrap_or(None)) {
            return true;
        }
    }
    false
}

// Whether a maker has a flag.
fn has_flag(flags: &[bool], maker: Option<EdgeNo>) -> bool
    ensures { result ≡ has_flag flags.now (option_map (λ edge. edge.0) maker) }
{
    match maker {
        Some(edge) => flag_at(flags, edge),
        None => false,
    }
}

/// Returns the flag of an edge.
pub(crate) fn flag_at(flags: &[bool], edge: EdgeNo) -> bool
    ensures { result ≡ slice_index_or flags.now edge.0 false }
{
    match flags.get(edge.0) {
        Some(flag) => *flag,
        None => false,
    }
}
