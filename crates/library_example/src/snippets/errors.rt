//! How errors are shown and distinguished.

use ninja::{Cause, Error};
use std::alloc::{AllocError, Global};

/// The line of an error for the log of a program `indexer`. Names are in it verbatim, whether they
/// are UTF-8 or not.
pub fn log_line(alloc: Global, error: &Error) -> Result<Vec<u8>, AllocError> {
    match error {
        Error::Graph(fault) => fault.line_for(alloc, "indexer"),
        other => Ok(format!(in alloc; "indexer: {other}")?.into_bytes()),
    }
}

/// Whether the error is in an argument of the user, and not in a file: the argument does not name a
/// target, or is not a mark.
pub fn is_of_words(error: &Error) -> bool {
    match error {
        Error::Graph(fault) => matches!(
            &fault.cause,
            Cause::EmptyPath | Cause::UnknownTarget(_) | Cause::NoOutEdge(_)
        ),
        Error::EmptyPath | Error::BadMark | Error::MarkOutOfRange => true,
        _ => false,
    }
}
