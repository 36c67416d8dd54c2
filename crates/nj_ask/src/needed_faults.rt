//! The faults of depfiles that a question meets.

ghost use Rattle.std.specs.Prelude.{false, ◌≡◌, ◌<◌, All, IfOk, find, length, map, option_copied, slice_index_or};
ghost use Rattle.nj_ask.specs.Cited.{path_at, files_of, IsFirstFault};

use crate::discovered::DiscoveredGraph;
use crate::doubts::EdgeFault;
use crate::manifest::{edge_flags, is_set};
use nj_graph::FileNo;
use std::alloc::{AllocError, Global};

/// The fault of the depfile of an edge that the given files need through any chain of inputs, if
/// any: of several such edges, the one with the lowest number. Ninja stops there, so a question
/// about the files has no answer.
pub fn needed_fault<'k>(
    alloc: Global,
    known: &'k DiscoveredGraph,
    files: &[FileNo],
) -> Result<Option<&'k EdgeFault>, AllocError>
    requires { All (λ file. file.0 < length (files_of known.now.graph)) files.now }
    ensures { IfOk result (λ found. IsFirstFault known.now
        (map (path_at (files_of known.now.graph)) files.now) (option_copied found)) }
{
    let graph = &known.graph;
    let needed = graph.needed_by(alloc, files)?;
    let flags = edge_flags(alloc, graph.edge_count(), &needed)?;
    Ok(first_flagged(&known.faults, &flags))
}

/// The first fault of an edge with a flag.
fn first_flagged<'k>(faults: &'k [EdgeFault], flags: &[bool]) -> Option<&'k EdgeFault>
    ensures { option_copied result
        ≡ find (λ fault. slice_index_or flags.now fault.edge.0 false) faults.now }
{
    'faults: for fault in faults {
        if is_set(flags, fault.edge.0) {
            return Some(fault);
        }
    }
    None
}
