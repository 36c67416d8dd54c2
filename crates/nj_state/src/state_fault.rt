//! Why it is not known what is stale.

ghost use Rattle.std.specs.Prelude.{◌≡◌};
ghost use Rattle.nj_state.specs.Cited.{OutOfMemory};

use nj_graph::FileNo;
use std::alloc::{AllocError, AllocFailed};

/// Why it is not known what is stale.
#[derive(Clone, Copy, Debug, PartialEq, Eq)]
pub enum StateFault {
    /// The time of this file is not known: the source has no answer for its path.
    NoTime(FileNo),
    /// An allocation failed.
    OutOfMemory,
}

impl From<AllocError> for StateFault {
    ghost from_gives = { λ _ e. e ≡ OutOfMemory };

    fn from(_e: AllocError) -> StateFault {
        StateFault::OutOfMemory
    }
}

impl<T: Drop> From<AllocFailed<T>> for StateFault {
    ghost from_gives = { λ _ e. e ≡ OutOfMemory };

    fn from(_e: AllocFailed<T>) -> StateFault {
        StateFault::OutOfMemory
    }
}
