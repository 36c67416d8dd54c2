//! Any error of a client's work on a graph.

ghost use Rattle.std.specs.Prelude.{◌≡◌, Some};
ghost use Rattle.nj_graph.specs.Cited.{TakesFault, error_of_text, error_text, OutOfMemory};

use nj_faults::{Cause, GraphFault};
use nj_text::{OUT_OF_MEMORY_TEXT, TextFault};
use std::alloc::{AllocError, AllocFailed};
use std::{error, fmt};

/// Why a client's work on a graph went no further. The errors of this crate's calls convert into it
/// by `?`; lack of memory is `OutOfMemory`, whichever call ran out of it.
#[derive(Debug, PartialEq, Eq, Drop)]
pub enum Error {
    /// The files are not a graph, or a request about their graph has no answer.
    Graph(GraphFault),
    /// A path is empty, and so has no clean form.
    EmptyPath,
    /// An allocation failed.
    OutOfMemory,
}

/// `FILE:LINE:COLUMN: TEXT`, or `TEXT` if the fault has no place. In names U+FFFD replaces invalid
/// UTF-8.
impl fmt::Display for Error {
    ghost output = { λ error. Some (error_text error) };

    fn fmt<W: fmt::Write>(&self, f: &mut fmt::Formatter<W>) -> fmt::Result {
        match self {
            Error::Graph(fault) => write!(f, "{fault}"),
            Error::EmptyPath => f.write_str("empty path"),
            Error::OutOfMemory => f.write_str(OUT_OF_MEMORY_TEXT),
        }
    }
}

impl std::error::Error for Error {}

impl From<GraphFault> for Error {
    ghost from_gives = { TakesFault };

    fn from(fault: GraphFault) -> Error {
        match &fault.cause {
            Cause::OutOfMemory => Error::OutOfMemory,
            _ => Error::Graph(fault),
        }
    }
}

impl From<TextFault> for Error {
    ghost from_gives = { λ fault error. error ≡ error_of_text fault };

    fn from(fault: TextFault) -> Error {
        match fault {
            TextFault::EmptyPath => Error::EmptyPath,
            TextFault::OutOfMemory => Error::OutOfMemory,
        }
    }
}

impl From<AllocError> for Error {
    ghost from_gives = { λ _ error. error ≡ OutOfMemory };

    fn from(_e: AllocError) -> Error {
        Error::OutOfMemory
    }
}

impl<T: Drop> From<AllocFailed<T>> for Error {
    ghost from_gives = { λ _ error. error ≡ OutOfMemory };

    fn from(_e: AllocFailed<T>) -> Error {
        Error::OutOfMemory
    }
}
