//! The calls of `nj_needs`.

ghost use Rattle.std.specs.Prelude.{◌≡◌, ◌<◌, [], length, string_bytes, All};
ghost use Rattle.nj_one_answer.specs.Cited.{AgreeUpTo, AgreeBut, AgreeIfOk, IsMarkOutOfMemory, SameWalk, SameRoom, written};

use nj_edges::{EdgeGraph, EdgeNo, FileNo};
use nj_needs::{Mark, MarkFault, Needs};
use std::alloc::{AllocError, Global};

/// Free: whether memory lacks.
pub fn grow_targets(
    alloc: Global,
    graph: &EdgeGraph,
    targets: &[FileNo],
) -> (
    Result<Vec<FileNo>, AllocError>,
    Result<Vec<FileNo>, AllocError>,
)
    requires { All (λ f. f.0 < length graph.now.files) targets.now }
    ensures { AgreeIfOk (λ one other. one.items ≡ other.items) result.0 result.1 }
{
    graph.file_count();
    (
        nj_needs::grow_targets(alloc, graph, targets),
        nj_needs::grow_targets(alloc, graph, targets),
    )
}

/// Free: whether memory lacks.
pub fn mark_from_numbers(
    alloc: Global,
    numbers: &[u64],
) -> (Result<Mark, AllocError>, Result<Mark, AllocError>)
    ensures { AgreeIfOk (λ one other. one ≡ other) result.0 result.1 }
{
    (
        Mark::from_numbers(alloc, numbers),
        Mark::from_numbers(alloc, numbers),
    )
}

/// Free: whether memory lacks.
pub fn mark_read(alloc: Global, text: &str) -> (Result<Mark, MarkFault>, Result<Mark, MarkFault>)
    ensures { AgreeBut IsMarkOutOfMemory result.0 result.1 }
{
    (Mark::read(alloc, text), Mark::read(alloc, text))
}

/// Free: whether memory lacks.
pub fn mark_to_text(
    alloc: Global,
    mark: &Mark,
) -> (Result<String, AllocError>, Result<String, AllocError>)
    ensures { AgreeIfOk (λ one other. string_bytes one ≡ string_bytes other) result.0 result.1 }
{
    (mark.to_text(alloc), mark.to_text(alloc))
}

/// Free: whether memory lacks.
pub fn needs_new<'g>(
    alloc: Global,
    graph: &'g EdgeGraph,
    targets: &'g [FileNo],
) -> (Result<Needs<'g>, AllocError>, Result<Needs<'g>, AllocError>)
    requires { All (λ f. f.0 < length graph.now.files) targets.now }
    ensures { AgreeIfOk (λ one other. one ≡ other) result.0 result.1 }
{
    (
        Needs::new(alloc, graph, targets),
        Needs::new(alloc, graph, targets),
    )
}

/// Free: whether memory lacks; how many turns are counted, up to their bound.
pub fn needs_resume<'g>(
    alloc: Global,
    graph: &'g EdgeGraph,
    targets: &'g [FileNo],
    mark: &Mark,
) -> (Result<Needs<'g>, MarkFault>, Result<Needs<'g>, MarkFault>)
    requires { All (λ f. f.0 < length graph.now.files) targets.now }
    ensures { AgreeUpTo SameWalk IsMarkOutOfMemory result.0 result.1 }
{
    (
        Needs::resume(alloc, graph, targets, mark),
        Needs::resume(alloc, graph, targets, mark),
    )
}

/// Free: how many turns are counted, up to their bound.
pub fn needs_next<'g>(
    graph: &EdgeGraph,
    one: &mut Needs<'g>,
    other: &mut Needs<'g>,
) -> (Option<EdgeNo>, Option<EdgeNo>)
    requires same { SameWalk one.old other.old }
    requires graph { one.old.graph ≡ graph.now }
    ensures edge { result.0 ≡ result.1 }
    ensures walk { SameWalk one.new other.new }
{
    graph.edge_count();
    (one.next(), other.next())
}

/// Free: whether memory lacks.
pub fn needs_mark<'g>(
    alloc: Global,
    walk: &Needs<'g>,
) -> (Result<Mark, AllocError>, Result<Mark, AllocError>)
    ensures { AgreeIfOk (λ one other. one ≡ other) result.0 result.1 }
{
    (walk.mark(alloc), walk.mark(alloc))
}

/// Free: how many turns are counted; the room that is left where it suffices for all edges that are
/// left: with one edge left, `Some(2)` and `None`.
pub fn needs_next_on_page<'g>(
    graph: &EdgeGraph,
    one: &mut Needs<'g>,
    other: &mut Needs<'g>,
    room: &mut Option<u64>,
    other_room: &mut Option<u64>,
) -> (Option<EdgeNo>, Option<EdgeNo>)
    requires same { SameWalk one.old other.old }
    requires graph { one.old.graph ≡ graph.now }
    requires room { SameRoom one.old.left room.old other_room.old }
    ensures edge { result.0 ≡ result.1 }
    ensures walk { SameWalk one.new other.new }
    ensures room { SameRoom one.new.left room.new other_room.new }
{
    graph.edge_count();
    (one.next_on_page(room), other.next_on_page(other_room))
}

/// For a complete page. Free: whether memory lacks; the walk after the call.
pub fn needs_mark_after_page<'g>(
    alloc: Global,
    one: &mut Needs<'g>,
    other: &mut Needs<'g>,
    room: Option<u64>,
) -> (
    Result<Option<Mark>, AllocError>,
    Result<Option<Mark>, AllocError>,
)
    requires same { SameWalk one.old other.old }
    requires ended { written room one.old.left ≡ [] }
    ensures { AgreeIfOk (λ one other. one ≡ other) result.0 result.1 }
{
    (
        one.mark_after_page(alloc, room),
        other.mark_after_page(alloc, room),
    )
}
