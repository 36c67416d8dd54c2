//! Why a pattern is not a glob.

ghost use Rattle.std.specs.Prelude.{◌≡◌, Some};
ghost use Rattle.nj_globs.specs.Cited.{OutOfMemory, fault_text};

use std::alloc::{AllocError, AllocFailed};
use std::error::Error;
use std::fmt;

/// Why a pattern is not a glob, with the offset of a byte, from 0.
#[derive(Clone, Copy, Debug, PartialEq, Eq)]
pub enum GlobFault {
    /// A `[` at this offset without its `]`.
    UnclosedSet(usize),
    /// A `\` at the end, which is at this offset.
    BackslashAtEnd(usize),
    /// A range in a set that ends below its start, which is at this offset.
    ReversedRange(usize),
    /// An allocation failed.
    OutOfMemory,
}

impl fmt::Display for GlobFault {
    ghost output = { λ fault. Some (fault_text fault) };

    fn fmt<W: fmt::Write>(&self, f: &mut fmt::Formatter<W>) -> fmt::Result {
        match self {
            GlobFault::UnclosedSet(at) => write!(f, "an unclosed [ at byte {at}"),
            GlobFault::BackslashAtEnd(_) => f.write_str("a \\ at the end"),
            GlobFault::ReversedRange(at) => write!(f, "a reversed range at byte {at}"),
            GlobFault::OutOfMemory => f.write_str("out of memory"),
        }
    }
}

impl Error for GlobFault {}

impl From<AllocError> for GlobFault {
    ghost from_gives = { λ _ e. e ≡ OutOfMemory };

    fn from(_e: AllocError) -> GlobFault {
        GlobFault::OutOfMemory
    }
}

impl<T: Drop> From<AllocFailed<T>> for GlobFault {
    ghost from_gives = { λ _ e. e ≡ OutOfMemory };

    fn from(_e: AllocFailed<T>) -> GlobFault {
        GlobFault::OutOfMemory
    }
}
