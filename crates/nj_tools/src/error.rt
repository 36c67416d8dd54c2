//! Any error of a client's work on a graph and with the output of tools.

ghost use Rattle.nj_tools.specs.declared.error.Error.TheVariants.{OutOfMemory, Write};
ghost use Rattle.std.specs.Prelude.{◌≡◌, Some};
ghost use Rattle.nj_tools.specs.Cited.{error_of_text, TakesGraphFault, error_of_graph, error_of_mark, error_of_tool, error_text};

use crate::sinks::SinkFault;
use crate::tool_fault::ToolFault;
use nj_graph::{GraphFault, TextFault};
use nj_needs::MarkFault;
use nj_text::OUT_OF_MEMORY_TEXT;
use std::alloc::{AllocError, AllocFailed};
use std::{error, fmt};

/// Why a client's work went no further. The errors of the calls of this crate and of `nj_graph`
/// convert into it by `?`; lack of memory is `OutOfMemory`, whichever call ran out of it.
#[derive(Debug, PartialEq, Eq, Drop)]
pub enum Error {
    /// The files are not a graph, or a request about their graph has no answer.
    Graph(GraphFault),
    /// A path is empty, and so has no clean form.
    EmptyPath,
    /// A text is not a mark.
    BadMark,
    /// A mark leads to no edge.
    MarkOutOfRange,
    /// The sink failed.
    Write,
    /// An allocation failed.
    OutOfMemory,
}

/// `FILE:LINE:COLUMN: TEXT`, or `TEXT` if the fault has no place. In names U+FFFD replaces invalid
/// UTF-8.
impl fmt::Display for Error {
    ghost output = { λ error. Some (error_text error) };

    fn fmt<W: fmt::Write>(&self, f: &mut fmt::Formatter<W>) -> fmt::Result {
        match self {
            Error::Graph(fault) => write!(f, "{fault}"),
            Error::EmptyPath => f.write_str("empty path"),
            Error::BadMark => f.write_str("bad mark"),
            Error::MarkOutOfRange => f.write_str("mark out of range"),
            Error::Write => f.write_str("the output could not be written"),
            Error::OutOfMemory => f.write_str(OUT_OF_MEMORY_TEXT),
        }
    }
}

impl std::error::Error for Error {}

impl From<nj_graph::Error> for Error {
    ghost from_gives = { λ taken error. error ≡ error_of_graph taken };

    fn from(error: nj_graph::Error) -> Error {
        match error {
            nj_graph::Error::Graph(fault) => Error::Graph(fault),
            nj_graph::Error::EmptyPath => Error::EmptyPath,
            nj_graph::Error::OutOfMemory => Error::OutOfMemory,
        }
    }
}

impl From<GraphFault> for Error {
    ghost from_gives = { TakesGraphFault };

    fn from(fault: GraphFault) -> Error {
        let taken: nj_graph::Error = fault.into();
        taken.into()
    }
}

impl From<TextFault> for Error {
    ghost from_gives = { λ fault error. error ≡ error_of_graph (error_of_text fault) };

    fn from(fault: TextFault) -> Error {
        let taken: nj_graph::Error = fault.into();
        taken.into()
    }
}

impl From<MarkFault> for Error {
    ghost from_gives = { λ fault error. error ≡ error_of_mark fault };

    fn from(fault: MarkFault) -> Error {
        match fault {
            MarkFault::BadMark => Error::BadMark,
            MarkFault::MarkOutOfRange => Error::MarkOutOfRange,
            MarkFault::OutOfMemory => Error::OutOfMemory,
        }
    }
}

impl From<ToolFault> for Error {
    ghost from_gives = { λ fault error. error ≡ error_of_tool fault };

    fn from(fault: ToolFault) -> Error {
        match fault {
            ToolFault::TextNotUtf8(fault) => Error::Graph(fault),
            ToolFault::Write => Error::Write,
            ToolFault::OutOfMemory => Error::OutOfMemory,
        }
    }
}

impl From<SinkFault> for Error {
    ghost from_gives = { λ _ error. error ≡ Write };

    fn from(_e: SinkFault) -> Error {
        Error::Write
    }
}

impl From<AllocError> for Error {
    ghost from_gives = { λ _ error. error ≡ OutOfMemory };

    fn from(_e: AllocError) -> Error {
        Error::OutOfMemory
    }
}

impl<T: Drop> From<AllocFailed<T>> for Error {
    ghost from_gives = { λ _ error. error ≡ OutOfMemory };

    fn from(_e: AllocFailed<T>) -> Error {
        Error::OutOfMemory
    }
}
