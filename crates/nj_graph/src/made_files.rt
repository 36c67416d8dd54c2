//! The files that edges make at the paths of a deps log.

ghost use Rattle.std.specs.Prelude.{◌≡◌, length, All, IfOk, OnOk, bytes_eq};
ghost use Rattle.nj_graph.specs.Cited.{IsDistinct, AreMade, IsKnownIfAny, MadeIs};

use nj_deps::DepsLog;
use nj_discovered::clean;
use nj_edges::{EdgeGraph, EdgeNo, FileNo};
use std::alloc::{AllocError, Global};

/// A file, and the edge that makes it.
#[derive(Clone, Copy)]
pub(crate) struct MadeFile {
    pub(crate) file: FileNo,
    pub(crate) maker: EdgeNo,
}

/// For each path of a log, the file at its clean path; `None` if no edge makes the file.
pub(crate) fn made_files(
    alloc: Global,
    graph: &EdgeGraph,
    log: &DepsLog,
) -> Result<Vec<Option<MadeFile>>, AllocError>
    ensures count { IfOk result (λ made. length made.items ≡ length log.now.paths) }
    ensures made { IfOk result (λ made. AreMade graph.now log.now.paths made.items) }
    ensures known { IfOk result (λ made. All (IsKnownIfAny graph.now) made.items) }
    ensures each_path_once { OnOk result (IsDistinct bytes_eq log.now.paths) }
{
    let mut made = Vec::with_capacity(alloc, log.path_count())?;
    let mut buffer = Vec::new(alloc);
    'paths: for path in log.paths() {
        let clean_path = clean(&mut buffer, path)?;
        made.push(made_file(graph, clean_path))?;
    }
    Ok(made)
}

// The file at a path, which must be clean; `None` if no edge makes it.
fn made_file(graph: &EdgeGraph, path: &[u8]) -> Option<MadeFile>
    ensures made { MadeIs graph.now path.now result }
    ensures known { IsKnownIfAny graph.now result }
{
    let file = graph.file_named(path)?;
    let maker = graph.maker(file)?;
    Some(MadeFile { file, maker })
}
