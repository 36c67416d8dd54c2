//! Outputs of a build log that the manifest no longer has.

ghost use Rattle.std.specs.Prelude.{◌≡◌, IfOk, map};
ghost use Rattle.nj_times.specs.Cited.{dead_outputs, is_dead};

use nj_build_log::BuildLog;
use nj_edges::EdgeGraph;
use std::alloc::{AllocError, Global};

/// The outputs that the log has and that no edge makes or has as an input, in the order of their
/// first lines. Validations are not inputs. Where their files are still on the disk, `ninja -t
/// cleandead` deletes them.
///
/// Takes time in proportion to the outputs of the log. Fails only if an allocation fails.
pub fn dead_outputs<'l>(
    alloc: Global,
    graph: &EdgeGraph,
    log: &'l BuildLog,
) -> Result<Vec<&'l [u8]>, AllocError>
    ensures { IfOk result (λ dead. map (λ output. output.now) dead.items
        ≡ dead_outputs graph.entry.now.edges log.entry.now.lines) }
{
    let mut dead = Vec::new(alloc);
    'outputs: for output in log.outputs() {
        if is_dead(graph, output) {
            dead.push(output)?;
        }
    }
    Ok(dead)
}

// Whether no edge makes a file or has it as an input.
fn is_dead(graph: &EdgeGraph, path: &[u8]) -> bool
    ensures { result ≡ is_dead graph.now.edges path.now }
{
    match graph.file_named(path) {
        Some(file) => graph.maker(file).is_none() && graph.users(file).is_empty(),
        None => true,
    }
}
