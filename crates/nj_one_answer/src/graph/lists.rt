//! Lists of a graph's files and edges.

ghost use Rattle.std.specs.Prelude.{◌≡◌, ℕ, List, bytes_eq};
ghost use Rattle.nj_one_answer.specs.Cited.{edges_in, files_in, files_of, GraphModel, IsDistinct};

use nj_graph::{EdgeNo, Edges, FileList, FileNo, Files, Graph};

/// For files of one graph, whose paths are distinct.
pub fn files_numbers<'g>(files: &Files<'g>) -> (&'g [FileNo], &'g [FileNo])
    ensures { (graph : GraphModel) (paths : List (List ℕ)) → files.now ≡ files_in graph paths
        → IsDistinct bytes_eq (files_of graph) → result.0.now ≡ result.1.now }
{
    (files.numbers(), files.numbers())
}

/// For edges of one graph.
pub fn edges_numbers<'g>(edges: &Edges<'g>) -> (&'g [EdgeNo], &'g [EdgeNo])
    ensures { (graph : GraphModel) (numbers : List ℕ) → edges.now ≡ edges_in graph numbers
        → result.0.now ≡ result.1.now }
{
    (edges.numbers(), edges.numbers())
}

/// Nothing is free.
pub fn file_list_numbers<'a>(list: &'a FileList<'_>) -> (&'a [FileNo], &'a [FileNo])
    ensures { result.0.now ≡ result.1.now }
{
    let _files = list.graph().files();
    (list.numbers(), list.numbers())
}

/// Nothing is free.
pub fn graph_defaults(graph: &Graph) -> (&[FileNo], &[FileNo])
    ensures { result.0.now ≡ result.1.now }
{
    let _files = graph.files();
    (graph.defaults(), graph.defaults())
}
