//! What is known of a build before it runs.

/// What is known of an edge besides its files.
#[derive(Clone, Copy, Debug, PartialEq, Eq)]
pub struct EdgeFacts {
    /// The inputs that builds discovered for it are not known.
    pub is_unknown: bool,
    /// Its value of `restat` is not empty.
    pub restat: bool,
    /// Its value of `generator` is not empty.
    pub generator: bool,
    /// The hash of its command, as in a build log of the version that is read.
    pub command_hash: u64,
}
