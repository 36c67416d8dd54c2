//! The targets of a run.

ghost use Rattle.std.specs.Prelude.{◌<◌, All, IfOk, length, map, string_bytes};
ghost use Rattle.nj_cli.specs.Cited.{OfStatements, files_of, PicksTargets, targets_of};

use nj_graph::{FileNo, Graph, GraphFault};
use nj_needs::grow_targets;
use std::alloc::Global;

/// The files of a run's targets: the files that the arguments name, in their order, or the defaults
/// in force if there are no arguments. With `validations`, the validations of the edges that the
/// targets need come after them.
///
/// # Errors
///
/// The fault of the first argument that does not name a target; or an allocation failed.
pub(crate) fn targets_of(
    alloc: Global,
    graph: &Graph,
    words: &[String],
    validations: bool,
) -> Result<Vec<FileNo>, GraphFault>
    ensures picks { OfStatements graph.now (λ entries. PicksTargets (files_of graph.now)
        (targets_of entries validations (map string_bytes words.now)) result) }
    ensures known { IfOk result (λ files.
        All (λ file. file.0 < length (files_of graph.now)) files.items) }
{
    let targets = graph.pick_targets(alloc, words)?;
    if validations {
        return Ok(grow_targets(alloc, graph, &targets)?);
    }
    Ok(targets)
}
