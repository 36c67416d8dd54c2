//! The statuses that calls return.

ghost use Rattle.std.specs.Prelude.{◌≡◌};
ghost use Rattle.nj_c.specs.Cited.{OutOfMemory, code_of, mark_status};

use nj_needs::MarkFault;
use std::alloc::{AllocError, AllocFailed};

/// The result of a call. Its number never changes.
#[derive(Clone, Copy, Debug, PartialEq, Eq)]
pub enum Status {
    /// It succeeded.
    Done,
    /// There is nothing there: past the end of a list, no maker, no file with the given path.
    Nothing,
    /// The buffer is too small, and nothing was written to it.
    Short,
    /// There is a fault, which is kept.
    Fault,
    /// Files that were not supplied are wanted.
    Wanted,
    /// No graph is loaded.
    NotLoaded,
    /// The number is not that of an edge or a file.
    BadNumber,
    /// The text is not a mark, or leads to no edge.
    BadMark,
    /// The path is not UTF-8.
    NotUtf8,
    /// The session is not open.
    NotOpen,
    /// An allocation failed.
    OutOfMemory,
    /// The bytes are not a deps log of version 4.
    BadLog,
}

impl From<AllocError> for Status {
    ghost from_gives = { λ _ s. s ≡ OutOfMemory };

    fn from(_e: AllocError) -> Status {
        Status::OutOfMemory
    }
}

impl<T: Drop> From<AllocFailed<T>> for Status {
    ghost from_gives = { λ _ s. s ≡ OutOfMemory };

    fn from(_e: AllocFailed<T>) -> Status {
        Status::OutOfMemory
    }
}

impl From<MarkFault> for Status {
    ghost from_gives = { λ fault s. s ≡ mark_status fault };

    fn from(fault: MarkFault) -> Status {
        match fault {
            MarkFault::OutOfMemory => Status::OutOfMemory,
            MarkFault::BadMark | MarkFault::MarkOutOfRange => Status::BadMark,
        }
    }
}

impl Status {
    /// The number that C sees.
    pub(crate) fn code(self) -> i32
        ensures { result ≡ code_of self }
    {
        match self {
            Status::Done => 0,
            Status::Nothing => 1,
            Status::Short => 2,
            Status::Fault => 3,
            Status::Wanted => 4,
            Status::NotLoaded => 5,
            Status::BadNumber => 6,
            Status::BadMark => 7,
            Status::NotUtf8 => 8,
            Status::NotOpen => 9,
            Status::OutOfMemory => 10,
            Status::BadLog => 11,
        }
    }
}
