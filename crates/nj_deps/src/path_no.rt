//! Numbers of paths.

/// The number of a path in its log, in the order in which the log names them.
#[derive(Clone, Copy, Debug, PartialEq, Eq)]
pub struct PathNo(pub u32);
