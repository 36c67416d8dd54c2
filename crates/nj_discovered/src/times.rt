//! The times of files.

ghost use Rattle.std.specs.Prelude.{IfOk};
ghost use Rattle.nj_discovered.specs.Times.{IsTimeOf};

use nj_scope::SourceFault;
use std::alloc::AllocError;

/// Where the times of files come from: a disk, or times in memory.
pub trait FileTimes {
    ghost use Rattle.std.specs.Prelude.{ℕ, List, Option};
    ghost use Rattle.nj_discovered.specs.Times.{AsksTime};
    ghost use Rattle.nj_discovered.specs.declared.times.TimeFound.{TimeFound};

    // The answers that the source declares.
    ghost times: { Self → List ℕ → Option TimeFound };

    /// Returns when the file at `path` was last changed, in nanoseconds since 1970, or `None` if no
    /// file is there. A time before 1970 is reported as 0.
    ///
    /// # Errors
    ///
    /// `Io` if the time could not be read, and `OutOfMemory`.
    fn time(&self, path: &str) -> Result<Option<u64>, SourceFault>
        ensures { AsksTime (times self.now) path.now result };
}

/// The time of a file, if the source could give one.
#[derive(Clone, Copy, Debug)]
pub enum TimeFound {
    /// In nanoseconds since 1970; `None` if there is no file.
    Time(Option<u64>),
    /// The source has no answer for the path, or the path is not UTF-8.
    NoAnswer,
}

/// The time of the file at a path; the source is not asked for a path that is not UTF-8.
///
/// # Errors
///
/// If an allocation failed.
pub fn time_of<T: FileTimes>(times: &T, path: &[u8]) -> Result<TimeFound, AllocError>
    ensures { IfOk result (IsTimeOf (T.times times.now) path.now) }
{
    let Ok(path) = str::from_utf8(path) else {
        return Ok(TimeFound::NoAnswer);
    };
    match times.time(path) {
        Ok(time) => Ok(TimeFound::Time(time)),
        Err(SourceFault::Io) => Ok(TimeFound::NoAnswer),
        Err(SourceFault::OutOfMemory) => Err(AllocError),
    }
}
