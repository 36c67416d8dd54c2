//! The times of the files of the working directory.

ghost use Rattle.std.specs.Prelude.{◌≡◌, ◌<◌, None};

use nj_discovered::FileTimes;
use nj_scope::SourceFault;
use std::fs::{self, Metadata};
use std::io::ErrorKind;
use std::marker::Model;
use std::rt::Files;
use std::time::UNIX_EPOCH;

/// Nanoseconds in a second.
const SECOND: u64 = 1_000_000_000;

/// The times of the files of the working directory.
#[derive(Drop)]
pub struct DiskTimes<R: Drop> {
    rt: R,
}

impl<R: Drop> Model for DiskTimes<R> {
    ghost use Rattle.nj_disk.specs.Disk.{Times};

    ghost Value = { Times };

    ghost view = { λ _. record {} };
}

impl<R: Drop> DiskTimes<R> {
    /// The times of the files of the working directory.
    pub fn new(rt: R) -> DiskTimes<R> {
        DiskTimes { rt }
    }
}

impl<R: Files + Drop> FileTimes for DiskTimes<R> {
    ghost times = { λ _ path. None };

    fn time(&self, path: &str) -> Result<Option<u64>, SourceFault> {
        match fs::metadata(&self.rt, path) {
            Ok(metadata) => Ok(Some(time_in(&metadata))),
            Err(error) => match error.kind() {
                ErrorKind::NotFound | ErrorKind::NotADirectory => Ok(None),
                ErrorKind::OutOfMemory => Err(SourceFault::OutOfMemory),
                _ => Err(SourceFault::Io),
            },
        }
    }
}

// The time of the last change. As in Ninja, all of the second 0 is one nanosecond after 1970 began,
// so that it differs from no time; a time before that, which the system's library does not report,
// is 0.
fn time_in(metadata: &Metadata) -> u64 {
    let Ok(time) = metadata.modified() else {
        return 0;
    };
    let Ok(since_1970) = time.duration_since(UNIX_EPOCH) else {
        return 0;
    };
    match u64::try_from(since_1970.as_nanos()) {
        Ok(time) if time < SECOND => 1,
        Ok(time) => time,
        Err(_) => u64::MAX,
    }
}
