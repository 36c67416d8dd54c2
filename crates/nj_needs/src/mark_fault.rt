//! Faults of marks.

ghost use Rattle.std.specs.Prelude.{◌≡◌, Some};
ghost use Rattle.nj_needs.specs.Cited.{OutOfMemory, fault_text};

use nj_text::OUT_OF_MEMORY_TEXT;
use std::alloc::{AllocError, AllocFailed};
use std::error::Error;
use std::fmt;

/// Why a text is not read as a mark, or why a walk cannot be resumed at a mark.
#[derive(Clone, Copy, Debug, PartialEq, Eq)]
pub enum MarkFault {
    /// The text is not a mark.
    BadMark,
    /// The mark is an address that does not lead to an edge.
    MarkOutOfRange,
    /// An allocation failed.
    OutOfMemory,
}

impl fmt::Display for MarkFault {
    ghost output = { λ fault. Some (fault_text fault) };

    fn fmt<W: fmt::Write>(&self, f: &mut fmt::Formatter<W>) -> fmt::Result {
        match self {
            MarkFault::BadMark => f.write_str("bad mark"),
            MarkFault::MarkOutOfRange => f.write_str("mark out of range"),
            MarkFault::OutOfMemory => f.write_str(OUT_OF_MEMORY_TEXT),
        }
    }
}

impl Error for MarkFault {}

impl From<AllocError> for MarkFault {
    ghost from_gives = { λ _ e. e ≡ OutOfMemory };

    fn from(_e: AllocError) -> MarkFault {
        MarkFault::OutOfMemory
    }
}

impl<T: Drop> From<AllocFailed<T>> for MarkFault {
    ghost from_gives = { λ _ e. e ≡ OutOfMemory };

    fn from(_e: AllocFailed<T>) -> MarkFault {
        MarkFault::OutOfMemory
    }
}
