//! Where the bytes of files come from.

ghost use Rattle.std.specs.Prelude.{◌≡◌};
ghost use Rattle.nj_scope.specs.declared.source.SourceFault.TheVariants.{OutOfMemory};

use nj_names::HashKeys;
use nj_text::OUT_OF_MEMORY_TEXT;
use std::alloc::{AllocError, AllocFailed, Global};
use std::error::Error;
use std::fmt;

/// Why a file could not be read. A missing file is not a fault.
#[derive(Clone, Copy, Debug, PartialEq, Eq)]
pub enum SourceFault {
    /// The file exists, or may exist, and reading it failed.
    Io,
    /// Memory for the bytes ran out.
    OutOfMemory,
}

impl fmt::Display for SourceFault {
    ghost use Rattle.std.specs.Prelude.{Some};
    ghost use Rattle.nj_scope.specs.Faults.{fault_text};

    ghost output = { λ fault. Some (fault_text fault) };

    fn fmt<W: fmt::Write>(&self, f: &mut fmt::Formatter<W>) -> fmt::Result {
        match self {
            SourceFault::Io => f.write_str("the file could not be read"),
            SourceFault::OutOfMemory => f.write_str(OUT_OF_MEMORY_TEXT),
        }
    }
}

impl Error for SourceFault {}

impl From<AllocError> for SourceFault {
    ghost from_gives = { λ _ e. e ≡ OutOfMemory };

    fn from(_e: AllocError) -> SourceFault {
        SourceFault::OutOfMemory
    }
}

impl<T: Drop> From<AllocFailed<T>> for SourceFault {
    ghost from_gives = { λ _ e. e ≡ OutOfMemory };

    fn from(_e: AllocFailed<T>) -> SourceFault {
        SourceFault::OutOfMemory
    }
}

/// Where the bytes of a file come from, by its path: the files of a disk, or files in memory.
pub trait FileSource {
    ghost use Rattle.nj_scope.specs.Sources.{SourceState, ReadsPath};

    // The state of the source, as far as it can be known.
    ghost state: { Self → SourceState };

    /// Returns the bytes of the file at `path`, or `None` if no file is there.
    ///
    /// # Errors
    ///
    /// `Io` if the file could not be read, and `OutOfMemory`. The source can be read again after
    /// either.
    fn read(&mut self, alloc: Global, path: &str) -> Result<Option<Vec<u8>>, SourceFault>
        ensures { ReadsPath (state self.old) (state self.new) path.now result };

    /// The keys for maps of names in its files. A source of untrusted files draws them; no result
    /// depends on them, only how long it takes.
    fn hash_keys(&self) -> HashKeys {
        HashKeys::default()
    }
}
