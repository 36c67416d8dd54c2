//! Versions of build logs.

/// The version of a build log, which determines how commands are hashed.
#[derive(Clone, Copy, Debug, PartialEq, Eq)]
pub enum LogVersion {
    /// Version 5, of Ninja up to 1.11: hashes by MurmurHash64A.
    Five,
    /// Version 6, of Ninja 1.12: hashes by MurmurHash64A.
    Six,
    /// Version 7, of Ninja since 1.13: hashes by rapidhash.
    Seven,
}
