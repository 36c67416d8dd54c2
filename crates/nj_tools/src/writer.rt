//! A sink over a writer of std.

ghost use Rattle.std.specs.Prelude.{◌≡◌, false};

use crate::sinks::{Sink, SinkFault};
use std::io::Write;
use std::marker::Model;

/// Passes each text to a writer, in one call. An interrupted write is a failure like any other.
#[derive(Drop)]
pub struct WriteSink<W: Write> {
    writer: W,
    failures: u64,
    took_since_failure: bool,
}

impl<W: Write> Model for WriteSink<W> {
    ghost use Rattle.nj_tools.specs.Sinks.{SinkState};

    ghost Value = { SinkState };

    ghost view = { λ s. record {
      taken = W.contents s.writer;
      failures = s.failures;
      took_since_failure = s.took_since_failure;
    } };
}

impl<W: Write> WriteSink<W> {
    /// Returns a sink over the writer that has not failed yet.
    pub fn new(writer: W) -> WriteSink<W>
        ensures { result ≡ record {
          taken = W.contents writer;
          failures = 0;
          took_since_failure = false;
        } }
    {
        WriteSink {
            writer,
            failures: 0,
            took_since_failure: false,
        }
    }
}

impl<W: Write> Sink for WriteSink<W> {
    ghost use Rattle.nj_tools.specs.Sinks.{Puts};

    ghost state = { λ s. s };

    fn put(&mut self, bytes: &[u8]) -> Result<usize, SinkFault>
        ensures { Puts self.old self.new bytes.now result }
    {
        match self.writer.write(bytes) {
            Ok(count) if count > 0 || bytes.is_empty() => {
                self.took_since_failure = self.took_since_failure || count > 0;
                Ok(count)
            }
            _ => {
                self.failures = self.failures.saturating_add(1);
                self.took_since_failure = false;
                Err(SinkFault)
            }
        }
    }
}
