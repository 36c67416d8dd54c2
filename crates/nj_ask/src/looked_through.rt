//! The files that the inputs of an edge stand for.

ghost use Rattle.std.specs.Prelude.{◌≡◌, ◌<◌, [], All, OnOk, is_some, length, map, unwrap_or};
ghost use Rattle.nj_ask.specs.Cited.{behind, fold, phony_inputs, paths_found, path_at, with_led, with_name, WalkFindsAllThatIsLedTo};

use nj_graph::{EdgeGraph, EdgeNo, FileNo};
use nj_names::RoundSet;
use std::alloc::AllocError;

/// Adds the files to which the given files lead through phony edges, each after the files that lead to
/// it.
pub(crate) fn add_led(
    graph: &EdgeGraph,
    found: &mut RoundSet,
    files: &[FileNo],
) -> Result<(), AllocError>
    requires limit { found.old.limit ≡ length graph.now.files }
    requires files { All (λ file. file.0 < length graph.now.files) files.now }
    ensures limit { found.new.limit ≡ found.old.limit }
    ensures found { OnOk result (paths_found graph.now.files found.new
        ≡ with_led graph.now.edges found.old.limit (paths_found graph.now.files found.old)
        (map (path_at graph.now.files) files.now)) }
{
    let mut place = found.numbers().len();
    add_files(graph, found, files)?;
    'places: while place < found.numbers().len() {
        let file = FileNo(found.numbers()[place]);
        add_files(graph, found, files_behind(graph, file))?;
        place += 1;
    }
    Ok(())
}

/// Adds files.
fn add_files(graph: &EdgeGraph, found: &mut RoundSet, files: &[FileNo]) -> Result<(), AllocError>
    requires limit { found.old.limit ≡ length graph.now.files }
    requires files { All (λ file. file.0 < length graph.now.files) files.now }
    ensures limit { found.new.limit ≡ found.old.limit }
    ensures found { OnOk result (paths_found graph.now.files found.new
        ≡ fold with_name (paths_found graph.now.files found.old)
        (map (path_at graph.now.files) files.now)) }
{
    // no path has two files, and the numbers are those of files
    let _file_count = graph.file_count();
    let _found_count = found.numbers().len();
    'files: for file in files {
        found.insert(file.0)?;
    }
    Ok(())
}

/// The inputs of the phony edge that makes a file; none if no phony edge does.
fn files_behind(graph: &EdgeGraph, file: FileNo) -> &[FileNo]
    requires { file.0 < length graph.now.files }
    ensures files { map (path_at graph.entry.now.files) result.now
        ≡ unwrap_or (behind graph.entry.now.edges (path_at graph.entry.now.files file)) [] }
    ensures known { All (λ file. file.0 < length graph.entry.now.files) result.now }
{
    match graph.maker(file) {
        Some(edge) => phony_inputs(graph, edge),
        None => &[],
    }
}

/// The inputs of an edge, if it is phony; else none.
fn phony_inputs(graph: &EdgeGraph, edge: EdgeNo) -> &[FileNo]
    requires { edge.0 < length graph.now.edges }
    ensures files { map (path_at graph.entry.now.files) result.now
        ≡ unwrap_or (phony_inputs graph.entry.now.edges edge.0) [] }
    ensures known { All (λ file. file.0 < length graph.entry.now.files) result.now }
{
    if graph.is_phony(edge) {
        graph.inputs(edge)
    } else {
        &[]
    }
}

/// Whether a phony edge makes a file.
pub(crate) fn is_phony_made(graph: &EdgeGraph, file: FileNo) -> bool
    requires { file.0 < length graph.now.files }
    ensures { result
        ≡ is_some (behind graph.now.edges (path_at graph.now.files file)) }
{
    match graph.maker(file) {
        Some(edge) => graph.is_phony(edge),
        None => false,
    }
}

/// The walk finds exactly the files that were found before it, and those to which the new files lead
/// through phony edges.
pub fn looked_through_law()
    ensures { WalkFindsAllThatIsLedTo }
{}
