//! The calls of `nj_deps`.

ghost use Rattle.nj_one_answer.specs.Cited.{AgreeBut, IsLogOutOfMemory};

use nj_deps::{DepsLog, DepsLogFault, HashKeys};
use std::alloc::Global;

/// Free: whether memory lacks.
pub fn deps_log_read(
    alloc: Global,
    bytes: &[u8],
) -> (Result<DepsLog, DepsLogFault>, Result<DepsLog, DepsLogFault>)
    ensures { AgreeBut IsLogOutOfMemory result.0 result.1 }
{
    (DepsLog::read(alloc, bytes), DepsLog::read(alloc, bytes))
}

/// With any keys. Free: whether memory lacks.
pub fn deps_log_read_with_keys(
    alloc: Global,
    keys: HashKeys,
    others: HashKeys,
    bytes: &[u8],
) -> (Result<DepsLog, DepsLogFault>, Result<DepsLog, DepsLogFault>)
    ensures { AgreeBut IsLogOutOfMemory result.0 result.1 }
{
    (
        DepsLog::read_with_keys(alloc, keys, bytes),
        DepsLog::read_with_keys(alloc, others, bytes),
    )
}
