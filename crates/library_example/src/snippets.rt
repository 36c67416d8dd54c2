//! The functions that docs/LIBRARY.md shows.

pub mod changes;
pub mod declared;
pub mod dyndeps;
pub mod edges;
pub mod errors;
pub mod lines;
pub mod loading;
pub mod sources;
pub mod targets;
pub mod variables;
pub mod walks;
pub mod writers;
