//! Why tests are chosen.

/// The link of a path, which a word of a test names, to a change.
#[derive(Clone, Copy, Debug, PartialEq, Eq)]
pub enum Link {
    /// It is an output of an affected edge.
    AffectedOutput,
    /// It is a changed file.
    ChangedFile,
    /// It is a directory with an affected output or a changed file below it.
    Directory,
    /// It is an output that needs an affected output or a changed file, if only for its order.
    NeedsAffected,
}

/// Why a test is chosen by itself.
#[derive(Drop)]
pub enum Reason {
    /// One of its words names this full path.
    Named(Link, Vec<u8>),
    /// Its command is not known.
    UnknownCommand,
    /// None of its words names an output, or a directory with an output.
    Unnamed,
}
