//! The refusal of questions that need a faulty depfile.

ghost use Rattle.std.specs.Prelude.{◌<◌, All, IfErr, IfOk, length, map};
ghost use Rattle.nj_ask.specs.Cited.{Fault, path_at, files_of, FailsBy, HasDepfileFault, IsClear};

use crate::discovered::DiscoveredGraph;
use crate::failure::Failure;
use crate::needed_faults::needed_fault;
use crate::status::Status;
use nj_graph::FileNo;
use std::alloc::Global;

/// Refuses a question about files that need an edge whose depfile has a fault: Ninja stops there.
/// Without faults it does nothing.
pub fn check_depfiles(
    alloc: Global,
    known: &DiscoveredGraph,
    files: &[FileNo],
) -> Result<(), Failure>
    requires { All (λ file. file.0 < length (files_of known.now.graph)) files.now }
    ensures clear { IfOk result (λ _. IsClear known.now
        (map (path_at (files_of known.now.graph)) files.now)) }
    ensures refused { IfErr result (FailsBy Fault (HasDepfileFault known.now
        (map (path_at (files_of known.now.graph)) files.now))) }
{
    if known.faults.is_empty() {
        return Ok(());
    }
    match needed_fault(alloc, known, files)? {
        Some(fault) => Err(Failure::in_words(alloc, b"", &fault.text, b"", Status::Fault)),
        None => Ok(()),
    }
}
