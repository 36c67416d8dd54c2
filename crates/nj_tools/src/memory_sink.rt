//! A sink that keeps the bytes that it accepts.

ghost use Rattle.std.specs.Prelude.{◌≡◌, ◌≢◌, ◌<◌, ◌≤◌, ◌+◌, ◌⊎◌, [], length, IsErr, IsOk, IfOk, OnErr, None, false};
ghost use Rattle.nj_tools.specs.Cited.{ForSome};

use crate::sinks::{Sink, SinkFault};
use std::alloc::Global;
use std::marker::Model;

/// Keeps in memory the bytes that it accepts, up to a limit. A failed allocation is a failure like
/// any other.
#[derive(Drop)]
pub struct MemorySink {
    bytes: Vec<u8>,
    limit: Option<usize>,
    failures: u64,
    took_since_failure: bool,
}

impl Model for MemorySink {
    ghost use Rattle.std.specs.Prelude.{length, vec_capacity, ◌≤◌};
    ghost use Rattle.std.specs.Option.{ForSome};
    ghost use Rattle.nj_tools.specs.MemorySinks.{Memory};

    ghost Value = { Memory };

    ghost view = { λ s. record {
      bytes = s.bytes.items;
      limit = s.limit;
      capacity = vec_capacity s.bytes;
      failures = s.failures;
      took_since_failure = s.took_since_failure;
    } };

    ghost invariant = { λ s. ForSome s.limit (λ limit. length s.bytes.items ≤ limit) };
}

impl MemorySink {
    ghost use Rattle.nj_tools.specs.Inside.MemorySinksHeld.{fitting};

    /// Returns a sink that has accepted nothing yet, and accepts at most `limit` bytes. Does not
    /// allocate.
    pub fn new(alloc: Global, limit: Option<usize>) -> MemorySink
        ensures { result ≡ record {
          bytes = [];
          limit = limit;
          capacity = 0;
          failures = 0;
          took_since_failure = false;
        } }
    {
        MemorySink {
            bytes: Vec::new(alloc),
            limit,
            failures: 0,
            took_since_failure: false,
        }
    }

    /// The bytes that the sink has accepted so far.
    pub fn bytes(&self) -> &[u8]
        ensures taken { result.now ≡ self.now.bytes }
        ensures within_limit { ForSome self.now.limit (λ limit. length result.now ≤ limit) }
    {
        self.bytes.as_slice()
    }

    /// How often the sink failed to accept bytes; the count saturates.
    pub fn failures(&self) -> u64
        ensures { result ≡ self.now.failures }
    {
        self.failures
    }

    // The prefix of the bytes that fits within the limit.
    fn fitting<'a>(&self, bytes: &'a [u8]) -> &'a [u8]
        ensures { result.now ≡ fitting self.now bytes.now }
    {
        match self.limit {
            None => bytes,
            Some(limit) => &bytes[..bytes.len().min(limit - self.bytes.len())],
        }
    }
}

impl Sink for MemorySink {
    ghost use Rattle.nj_tools.specs.Sinks.{Puts};
    ghost use Rattle.nj_tools.specs.MemorySinks.{state_of};
    ghost use Rattle.nj_tools.specs.Inside.MemorySinksHeld.{fitting};

    ghost state = { state_of };

    fn put(&mut self, bytes: &[u8]) -> Result<usize, SinkFault>
        ensures puts { Puts (state_of self.old) (state_of self.new) bytes.now result }
        ensures limit { self.new.limit ≡ self.old.limit }
        ensures count { IfOk result (λ count. count ≡ length (fitting self.old bytes.now)) }

        // At the limit a call with bytes always fails; below the limit, only if the memory would
        // have to grow.
        ensures empty { bytes.now ≡ [] → IsOk result }
        ensures full { bytes.now ≢ [] → fitting self.old bytes.now ≡ [] → IsErr result }
        ensures memory { OnErr result ((fitting self.old bytes.now ≡ [])
            ⊎ (self.old.capacity < length self.old.bytes + length (fitting self.old bytes.now))) }
    {
        if bytes.is_empty() {
            return Ok(0);
        }
        let fitting = self.fitting(bytes);
        if fitting.is_empty() || self.bytes.extend_from_slice(fitting).is_err() {
            self.failures = self.failures.saturating_add(1);
            self.took_since_failure = false;
            return Err(SinkFault);
        }
        self.took_since_failure = true;
        Ok(fitting.len())
    }
}
