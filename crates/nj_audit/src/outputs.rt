//! Outputs that nothing uses.

ghost use Rattle.std.specs.Prelude.{◌≡◌, ◌++◌, IfOk, OnOk};
ghost use Rattle.nj_audit.specs.Cited.{edge_of, file_of, unused_outputs, unused_outputs_at, is_unused_output, first_output_at, HasDefaults};

use crate::file_set::FileSet;
use crate::findings::Findings;
use crate::kinds::Kind;
use nj_graph::{Edge, File, Graph};
use std::alloc::{AllocError, Global};

/// Appends the outputs that are neither an input nor a validation of an edge, and are not among the
/// defaults.
#[tactic(auto, using(crate::proofs::HandleLemmas::numbers_there))]
pub fn find_unused_outputs<'a>(
    alloc: Global,
    graph: &'a Graph,
    found: &mut Findings<'a>,
) -> Result<(), AllocError>
    ensures { OnOk result (found.new ≡ found.old ++ unused_outputs graph.entry.now) }
{
    let defaults = defaults_of(alloc, graph)?;
    'edges: for edge in graph.edges() {
        push_unused_outputs(edge, &defaults, found)?;
    }
    Ok(())
}

/// Returns the defaults.
#[tactic(auto, using(crate::proofs::HandleLemmas::paths_there))]
fn defaults_of(alloc: Global, graph: &Graph) -> Result<FileSet<'_>, AllocError>
    ensures { IfOk result (HasDefaults graph.now) }
{
    let mut defaults = FileSet::new(alloc, graph)?;
    'files: for file in graph.default_files() {
        defaults.add(file)?;
    }
    Ok(defaults)
}

/// Appends the unused outputs of an edge.
#[tactic(auto, using(crate::proofs::HandleLemmas::paths_there))]
fn push_unused_outputs<'a>(
    edge: Edge<'a>,
    defaults: &FileSet<'_>,
    found: &mut Findings<'a>,
) -> Result<(), AllocError>
    requires { HasDefaults (edge_of edge).graph defaults.now }
    ensures { OnOk result (found.new ≡ found.old
        ++ unused_outputs_at (edge_of edge.entry).graph (edge_of edge.entry).number) }
{
    'outputs: for output in edge.outputs() {
        if is_unused(output, defaults) {
            found.push_at(edge, Kind::UnusedOutput, output.path())?;
        }
    }
    Ok(())
}

/// Whether nothing uses an output.
fn is_unused(file: File<'_>, defaults: &FileSet<'_>) -> bool
    requires { HasDefaults (file_of file).graph defaults.now }
    ensures { result ≡ is_unused_output (file_of file.entry).graph (file_of file.entry).path }
{
    file.users().is_empty() && file.validation_users().is_empty() && !defaults.has(file)
}

/// Returns the path of the first output of an edge.
pub fn first_output<'g>(edge: Edge<'g>) -> &'g [u8]
    ensures { result.now ≡ first_output_at (edge_of edge.entry).graph (edge_of edge.entry).number }
{
    match edge.outputs().first() {
        Some(file) => file.path(),
        None => b"",
    }
}
