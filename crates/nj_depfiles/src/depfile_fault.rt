//! Why a depfile is not read.

ghost use Rattle.std.specs.Prelude.{◌≡◌, Some};
ghost use Rattle.nj_depfiles.specs.Cited.{OutOfMemory, fault_text};

use std::alloc::{AllocError, AllocFailed};
use std::error::Error;
use std::fmt;

/// Why a depfile is not read.
#[derive(Clone, Copy, Debug, PartialEq, Eq)]
pub enum DepfileFault {
    /// No word ends in a colon.
    NoColon,
    /// A target that was an input has new inputs on its line.
    InputHasInputs,
    /// An allocation failed.
    OutOfMemory,
}

impl fmt::Display for DepfileFault {
    ghost output = { λ fault. Some (fault_text fault) };

    fn fmt<W: fmt::Write>(&self, f: &mut fmt::Formatter<W>) -> fmt::Result {
        match self {
            DepfileFault::NoColon => f.write_str("expected ':' in depfile"),
            DepfileFault::InputHasInputs => f.write_str("inputs may not also have inputs"),
            DepfileFault::OutOfMemory => f.write_str("out of memory"),
        }
    }
}

impl Error for DepfileFault {}

impl From<AllocError> for DepfileFault {
    ghost from_gives = { λ _ e. e ≡ OutOfMemory };

    fn from(_e: AllocError) -> DepfileFault {
        DepfileFault::OutOfMemory
    }
}

impl<T: Drop> From<AllocFailed<T>> for DepfileFault {
    ghost from_gives = { λ _ e. e ≡ OutOfMemory };

    fn from(_e: AllocFailed<T>) -> DepfileFault {
        DepfileFault::OutOfMemory
    }
}
