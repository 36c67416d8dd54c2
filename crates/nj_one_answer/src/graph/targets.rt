//! The targets that words name.

ghost use Rattle.std.specs.Prelude.{◌≡◌};
ghost use Rattle.nj_one_answer.specs.Cited.{file_of, AgreeUpTo, AgreeBut, IsGraphOutOfMemory};

use nj_graph::{File, FileList, FileNo, Graph, GraphFault};
use std::alloc::Global;
use std::convert::AsSlice;

/// Free: whether memory lacks.
pub fn pick_target(
    alloc: Global,
    graph: &Graph,
    word: &[u8],
) -> (Result<FileNo, GraphFault>, Result<FileNo, GraphFault>)
    ensures { AgreeBut IsGraphOutOfMemory result.0 result.1 }
{
    let _files = graph.files();
    (
        nj_graph::pick_target(alloc, graph, word),
        nj_graph::pick_target(alloc, graph, word),
    )
}

/// Free: whether memory lacks.
pub fn graph_target<'a>(
    alloc: Global,
    graph: &'a Graph,
    word: &[u8],
) -> (Result<File<'a>, GraphFault>, Result<File<'a>, GraphFault>)
    ensures { AgreeUpTo (λ one other. file_of one ≡ file_of other) IsGraphOutOfMemory
        result.0 result.1 }
{
    (graph.target(alloc, word), graph.target(alloc, word))
}

/// Free: whether memory lacks.
pub fn graph_targets<'a, W: AsSlice<u8>>(
    alloc: Global,
    graph: &'a Graph,
    words: &[W],
) -> (
    Result<FileList<'a>, GraphFault>,
    Result<FileList<'a>, GraphFault>,
)
    ensures { AgreeBut IsGraphOutOfMemory result.0 result.1 }
{
    (graph.targets(alloc, words), graph.targets(alloc, words))
}

/// Free: whether memory lacks.
pub fn graph_pick_targets<W: AsSlice<u8>>(
    alloc: Global,
    graph: &Graph,
    words: &[W],
) -> (
    Result<Vec<FileNo>, GraphFault>,
    Result<Vec<FileNo>, GraphFault>,
)
    ensures { AgreeUpTo (λ one other. one.items ≡ other.items) IsGraphOutOfMemory
        result.0 result.1 }
{
    let _files = graph.files();
    (
        graph.pick_targets(alloc, words),
        graph.pick_targets(alloc, words),
    )
}

/// Free: whether memory lacks.
pub fn graph_pick_named<W: AsSlice<u8>>(
    alloc: Global,
    graph: &Graph,
    words: &[W],
) -> (
    Result<Vec<FileNo>, GraphFault>,
    Result<Vec<FileNo>, GraphFault>,
)
    ensures { AgreeUpTo (λ one other. one.items ≡ other.items) IsGraphOutOfMemory
        result.0 result.1 }
{
    let _files = graph.files();
    (
        graph.pick_named(alloc, words),
        graph.pick_named(alloc, words),
    )
}
