//! The edges that files need, or that they affect.

ghost use Rattle.std.specs.Prelude.{◌≡◌, ◌∷◌, []};
ghost use Rattle.nj_one_answer.specs.Cited.{file_of, AgreeIfOk, SameButTies};

use nj_graph::{EdgeList, File, FileList, NeededCommands};
use std::alloc::{AllocError, Global};

/// Free: whether memory lacks.
pub fn file_list_needed_commands<'a>(
    alloc: Global,
    list: &'a FileList<'_>,
) -> (
    Result<NeededCommands<'a>, AllocError>,
    Result<NeededCommands<'a>, AllocError>,
)
    ensures { AgreeIfOk (λ one other. one ≡ other) result.0 result.1 }
{
    (list.needed_commands(alloc), list.needed_commands(alloc))
}

/// Free: whether memory lacks.
pub fn file_affected_edges<'g>(
    alloc: Global,
    file: File<'g>,
) -> (
    Result<EdgeList<'g>, AllocError>,
    Result<EdgeList<'g>, AllocError>,
)
    ensures { AgreeIfOk (λ one other. one ≡ other) result.0 result.1 }
{
    (file.affected_edges(alloc), file.affected_edges(alloc))
}

/// Free: whether memory lacks.
pub fn file_list_affected_edges<'g>(
    alloc: Global,
    list: &FileList<'g>,
) -> (
    Result<EdgeList<'g>, AllocError>,
    Result<EdgeList<'g>, AllocError>,
)
    ensures { AgreeIfOk (λ one other. one ≡ other) result.0 result.1 }
{
    (list.affected_edges(alloc), list.affected_edges(alloc))
}

/// Free: whether memory lacks; the order of edges that are equally far from the file: where both
/// edges 1 and 2 make inputs of the edge 0, which makes the file, `[0, 1, 2]` and `[0, 2, 1]`.
pub fn file_needed_edges<'g>(
    alloc: Global,
    file: File<'g>,
) -> (
    Result<EdgeList<'g>, AllocError>,
    Result<EdgeList<'g>, AllocError>,
)
    ensures { AgreeIfOk (SameButTies (file_of file.entry).graph ((file_of file.entry).path ∷ []))
        result.0 result.1 }
{
    (file.needed_edges(alloc), file.needed_edges(alloc))
}

/// Free: whether memory lacks; the order of edges that are equally far from the files.
pub fn file_list_needed_edges<'g>(
    alloc: Global,
    list: &FileList<'g>,
) -> (
    Result<EdgeList<'g>, AllocError>,
    Result<EdgeList<'g>, AllocError>,
)
    ensures { AgreeIfOk (SameButTies list.now.graph list.now.paths) result.0 result.1 }
{
    (list.needed_edges(alloc), list.needed_edges(alloc))
}
