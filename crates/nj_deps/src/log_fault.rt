//! Why a deps log is not read.

ghost use Rattle.std.specs.Prelude.{◌≡◌, Some};
ghost use Rattle.nj_deps.specs.Cited.{OutOfMemory, fault_text};

use std::alloc::{AllocError, AllocFailed};
use std::error::Error;
use std::fmt;

/// Why a deps log is not read at all.
#[derive(Clone, Copy, Debug, PartialEq, Eq)]
pub enum DepsLogFault {
    /// The bytes do not begin as a deps log: another first line, or no version after it.
    NoDepsLog,
    /// A deps log of this version, and not of version 4.
    OtherVersion(u32),
    /// An allocation failed.
    OutOfMemory,
}

impl fmt::Display for DepsLogFault {
    ghost output = { λ fault. Some (fault_text fault) };

    fn fmt<W: fmt::Write>(&self, f: &mut fmt::Formatter<W>) -> fmt::Result {
        match self {
            DepsLogFault::NoDepsLog => f.write_str("not a deps log"),
            DepsLogFault::OtherVersion(version) => write!(f, "deps log of version {version}"),
            DepsLogFault::OutOfMemory => f.write_str("out of memory"),
        }
    }
}

impl Error for DepsLogFault {}

impl From<AllocError> for DepsLogFault {
    ghost from_gives = { λ _ e. e ≡ OutOfMemory };

    fn from(_e: AllocError) -> DepsLogFault {
        DepsLogFault::OutOfMemory
    }
}

impl<T: Drop> From<AllocFailed<T>> for DepsLogFault {
    ghost from_gives = { λ _ e. e ≡ OutOfMemory };

    fn from(_e: AllocFailed<T>) -> DepsLogFault {
        DepsLogFault::OutOfMemory
    }
}
