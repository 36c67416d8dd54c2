//! The depfiles that were not supplied.

ghost use Rattle.std.specs.Prelude.{◌≡◌, ◌<◌, List, length, map, option_map, IfOk};
ghost use Rattle.nj_c.specs.Cited.{ReadStatement, edges_of, IsGraphOf, depfile_at, lacking_depfiles};

use crate::supplied_files::SuppliedFiles;
use crate::wanted_files::{copied_paths, name_if_lacking};
use nj_edges::Files;
use nj_graph::{EdgeNo, Graph};
use nj_scope::FileSource;
use std::alloc::{AllocError, Global};

/// The depfiles of edges that were not supplied, without duplicates. For an edge with a value of
/// `deps`, Ninja reads the deps log instead of the depfile.
pub(crate) fn lacking_depfiles(
    alloc: Global,
    files: &SuppliedFiles,
    graph: &Graph,
) -> Result<Vec<Vec<u8>>, AllocError>
    ensures { (stated : List ReadStatement) → IsGraphOf graph.now stated
        → IfOk result (λ paths. map (λ p. p.items) paths.items
        ≡ lacking_depfiles files.now stated (length (edges_of graph.now))) }
{
    let lacking = lacking_names(alloc, files, graph)?;
    let paths = copied_paths(alloc, &lacking);
    drop(lacking);
    paths
}

// The same, in a table.
fn lacking_names(alloc: Global, files: &SuppliedFiles, graph: &Graph) -> Result<Files, AllocError>
    ensures { (stated : List ReadStatement) → IsGraphOf graph.now stated
        → IfOk result (λ lacking. lacking
        ≡ lacking_depfiles files.now stated (length (edges_of graph.now))) }
{
    let mut lacking = Files::new(alloc, files.hash_keys());
    'edges: for number in 0..graph.edge_count() {
        let depfile = depfile_at(alloc, graph, EdgeNo(number))?;
        match depfile {
            Some(path) => name_if_lacking(files, &path, &mut lacking)?,
            None => {}
        }
    }
    Ok(lacking)
}

// The depfile of an edge, if Ninja would read it.
fn depfile_at(alloc: Global, graph: &Graph, edge: EdgeNo) -> Result<Option<Vec<u8>>, AllocError>
    requires { edge.0 < length (edges_of graph.now) }
    ensures { (stated : List ReadStatement) → IsGraphOf graph.now stated
        → IfOk result (λ path. option_map (λ p. p.items) path ≡ depfile_at stated edge.0) }
{
    let edge = graph.edge_at(edge);
    let deps = edge.variable(alloc, b"deps")?;
    let depfile = edge.variable(alloc, b"depfile")?;
    if deps.is_empty() && !depfile.is_empty() {
        return Ok(Some(depfile));
    }
    Ok(None)
}
