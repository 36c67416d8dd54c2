//! Why a tool stopped.

ghost use Rattle.nj_tools.specs.declared.tool_fault.ToolFault.TheVariants.{Write, OutOfMemory};
ghost use Rattle.std.specs.Prelude.{◌≡◌, Some};
ghost use Rattle.nj_tools.specs.Cited.{fault_text};

use crate::sinks::SinkFault;
use nj_graph::GraphFault;
use nj_text::OUT_OF_MEMORY_TEXT;
use std::alloc::{AllocError, AllocFailed};
use std::error::Error;
use std::fmt;

/// Why a tool stopped before the end of its text.
#[derive(Debug, PartialEq, Eq, Drop)]
pub enum ToolFault {
    /// A text of an edge is not UTF-8, so that JSON cannot contain it: the fault is at the build
    /// statement of the edge.
    TextNotUtf8(GraphFault),
    /// The sink failed.
    Write,
    /// An allocation failed.
    OutOfMemory,
}

impl fmt::Display for ToolFault {
    ghost output = { λ fault. Some (fault_text fault) };

    fn fmt<W: fmt::Write>(&self, f: &mut fmt::Formatter<W>) -> fmt::Result {
        match self {
            ToolFault::TextNotUtf8(fault) => write!(f, "{fault}"),
            ToolFault::Write => f.write_str("the output could not be written"),
            ToolFault::OutOfMemory => f.write_str(OUT_OF_MEMORY_TEXT),
        }
    }
}

impl Error for ToolFault {}

impl From<SinkFault> for ToolFault {
    ghost from_gives = { λ _ e. e ≡ Write };

    fn from(_e: SinkFault) -> ToolFault {
        ToolFault::Write
    }
}

impl From<AllocError> for ToolFault {
    ghost from_gives = { λ _ e. e ≡ OutOfMemory };

    fn from(_e: AllocError) -> ToolFault {
        ToolFault::OutOfMemory
    }
}

impl<T: Drop> From<AllocFailed<T>> for ToolFault {
    ghost from_gives = { λ _ e. e ≡ OutOfMemory };

    fn from(_e: AllocFailed<T>) -> ToolFault {
        ToolFault::OutOfMemory
    }
}
