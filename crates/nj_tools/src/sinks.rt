//! Destinations of bytes.

ghost use Rattle.std.specs.Prelude.{Some, codes};

use std::error::Error;
use std::fmt;

/// The sink could not accept bytes.
#[derive(Clone, Copy, Debug, PartialEq, Eq)]
pub struct SinkFault;

impl fmt::Display for SinkFault {
    ghost output = { λ _. Some (codes "the output could not be written") };

    fn fmt<W: fmt::Write>(&self, f: &mut fmt::Formatter<W>) -> fmt::Result {
        write!(f, "the output could not be written")
    }
}

impl Error for SinkFault {}

/// Accepts bytes, and counts how often it could not.
pub trait Sink {
    ghost use Rattle.nj_tools.specs.Sinks.{SinkState, Puts};

    // The known state of the sink.
    ghost state: { Self → SinkState };

    /// Accepts bytes from the front, and returns their number. An error, or 0 for a text that is
    /// not empty, is a failure: nothing was accepted, and the count of failures rises by one.
    fn put(&mut self, bytes: &[u8]) -> Result<usize, SinkFault>
        ensures { Puts (state self.old) (state self.new) bytes.now result };
}
