//! Sources that are missing on the disk.

ghost use Rattle.std.specs.Prelude.{◌≡◌, ◌++◌, [], OnOk, find, option_map};
ghost use Rattle.nj_audit.specs.Cited.{cons_option, edge_of, file_of, is_set, missing_file, missing_sources};

use crate::findings::Findings;
use crate::kinds::Kind;
use nj_graph::{Edge, Edges, File, Graph};
use std::alloc::AllocError;

/// Appends the sources that are missing, each at the first edge that has it as an input and serves a
/// command.
pub fn find_missing_sources<'a>(
    graph: &'a Graph,
    missing: &[bool],
    serving: &[bool],
    found: &mut Findings<'a>,
) -> Result<(), AllocError>
    ensures { OnOk result (found.new ≡ found.old
        ++ missing_sources graph.entry.now missing.now serving.now) }
{
    'files: for file in graph.files() {
        push_if_missing(file, missing, serving, found)?;
    }
    Ok(())
}

/// Appends a file, if it is a source and missing, at the first edge that has it as an input and
/// serves a command.
fn push_if_missing<'a>(
    file: File<'a>,
    missing: &[bool],
    serving: &[bool],
    found: &mut Findings<'a>,
) -> Result<(), AllocError>
    ensures { OnOk result (found.new ≡ found.old
        ++ cons_option (missing_file missing.now serving.now (file_of file.entry)) []) }
{
    if !is_set(missing, file.number().0) || file.maker().is_some() {
        return Ok(());
    }
    match first_set(file.users(), serving) {
        Some(edge) => found.push_at(edge, Kind::MissingSource, file.path()),
        None => Ok(()),
    }
}

/// Returns the first of the given edges whose flag is set, if any.
fn first_set<'g>(edges: Edges<'g>, flags: &[bool]) -> Option<Edge<'g>>
    ensures { option_map edge_of result
        ≡ find (λ edge. is_set flags.now edge.number) edges.entry }
{
    'edges: for edge in edges {
        if is_set(flags, edge.number().0) {
            return Some(edge);
        }
    }
    None
}

/// Whether the flag at the given index is set. Past the last flag, it is not.
fn is_set(flags: &[bool], index: usize) -> bool
    ensures { result ≡ is_set flags.now index }
{
    matches!(flags.get(index), Some(true))
}
