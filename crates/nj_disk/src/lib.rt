//! The files of the working directory, as a source of the files of a run.
#![tactic(auto)]

mod disk;
mod times;

pub use disk::DiskFiles;
pub use nj_discovered::FileTimes;
pub use nj_scope::{FileSource, HashKeys, SourceFault};
pub use times::DiskTimes;
