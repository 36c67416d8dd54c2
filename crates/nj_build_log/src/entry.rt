//! The contents of a build log for an output.

/// The contents of a line of a build log, apart from its output.
#[derive(Clone, Copy, Debug, PartialEq, Eq)]
pub struct Entry {
    /// When the command started, in milliseconds since its build started.
    pub start: i32,
    /// When the command ended, in milliseconds since its build started.
    pub end: i32,
    /// The time that the log records for the output, in nanoseconds since 1970.
    pub time: i64,
    /// The hash of the command, as [`command_hash`](crate::command_hash) returns it.
    pub hash: u64,
}

/// A line of a build log that counts.
#[derive(Clone, Copy, Debug)]
pub struct LoggedLine<'a> {
    /// The path of the output, as written in the log.
    pub output: &'a [u8],
    /// The rest of the line.
    pub entry: Entry,
}
