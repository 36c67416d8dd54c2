//! The times of all files of a graph.

ghost use Rattle.std.specs.Prelude.{◌≡◌, ◌⊎◌, IfErr, IfOk};
ghost use Rattle.nj_state.specs.Cited.{FaultsAt, HasTime, HaveTimes, IsFirstUnanswered};

use crate::state_fault::StateFault;
use nj_discovered::time_of;
use nj_graph::{EdgeGraph, FileNo, FileTimes, TimeFound};
use std::alloc::Global;

/// Returns the time of each file of a graph, 0 if it is missing. Looks up each file once.
///
/// # Errors
///
/// `NoTime` at the first file for which the source has no answer, and `OutOfMemory` if an
/// allocation failed.
pub fn times_of<T: FileTimes>(
    alloc: Global,
    graph: &EdgeGraph,
    times: &T,
) -> Result<Vec<u64>, StateFault>
    ensures found { IfOk result (λ found.
        HaveTimes (T.times times.now) graph.now.files found.items) }
    ensures fault { IfErr result (FaultsAt (T.times times.now) graph.now.files) }
{
    let mut found = Vec::with_capacity(alloc, graph.file_count())?;
    'files: for number in 0..graph.file_count() {
        let file = FileNo(number);
        match time_of(times, graph.path(file))? {
            TimeFound::Time(time) => found.push(time.unwrap_or(0))?,
            TimeFound::NoAnswer => return Err(StateFault::NoTime(file)),
        }
    }
    Ok(found)
}
