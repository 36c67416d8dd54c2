//! Why a build log is not read.

ghost use Rattle.std.specs.Prelude.{◌≡◌, Some};
ghost use Rattle.nj_build_log.specs.Cited.{OutOfMemory, fault_text};

use std::alloc::{AllocError, AllocFailed};
use std::error::Error;
use std::fmt;

/// Why a build log is not read.
#[derive(Clone, Copy, Debug, PartialEq, Eq)]
pub enum BuildLogFault {
    /// The first line is not `# ninja log v` and a number.
    NoBuildLog,
    /// A build log of the given version, which is not 5, 6 or 7.
    OtherVersion(u64),
    /// An allocation failed.
    OutOfMemory,
}

impl fmt::Display for BuildLogFault {
    ghost output = { λ fault. Some (fault_text fault) };

    fn fmt<W: fmt::Write>(&self, f: &mut fmt::Formatter<W>) -> fmt::Result {
        match self {
            BuildLogFault::NoBuildLog => f.write_str("not a build log"),
            BuildLogFault::OtherVersion(version) => write!(f, "build log of version {version}"),
            BuildLogFault::OutOfMemory => f.write_str("out of memory"),
        }
    }
}

impl Error for BuildLogFault {}

impl From<AllocError> for BuildLogFault {
    ghost from_gives = { λ _ e. e ≡ OutOfMemory };

    fn from(_e: AllocError) -> BuildLogFault {
        BuildLogFault::OutOfMemory
    }
}

impl<T: Drop> From<AllocFailed<T>> for BuildLogFault {
    ghost from_gives = { λ _ e. e ≡ OutOfMemory };

    fn from(_e: AllocFailed<T>) -> BuildLogFault {
        BuildLogFault::OutOfMemory
    }
}
