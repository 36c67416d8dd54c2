//! The hasher of hashes.
ghost use Rattle.std.specs.Prelude.{◌≡◌};
ghost use Rattle.nj_names.specs.Cited.{write_plain};

use crate::byte_hash::with_bytes;
use std::hash::Hasher;
use std::marker::Model;

/// Returns a number of 64 bits unchanged: the hasher of a map whose keys are hashes, such as the
/// hashes of [`HashKeys::hash_bytes`](crate::HashKeys::hash_bytes). Which of them share a place in
/// the map depends on the number that was drawn, as the keys do.
#[derive(Clone, Copy)]
pub struct PlainHasher {
    number: u64,
}

impl Model for PlainHasher {
    ghost use Rattle.std.specs.Prelude.{ℕ};

    ghost Value = { ℕ };

    ghost view = { λ h. h.number };

    ghost inverse = { λ number. record { number = number } };
}

impl Default for PlainHasher {
    fn default() -> PlainHasher {
        PlainHasher { number: 0 }
    }
}

impl Hasher for PlainHasher {
    ghost write = { write_plain };

    ghost finish = { λ number. number };

    #[inline(always)]
    fn finish(&self) -> u64 {
        self.number
    }

    #[inline(always)]
    fn write(&mut self, bytes: &[u8]) {
        self.number = match <[u8; 8]>::try_from(bytes) {
            Ok(number) => u64::from_le_bytes(number),
            Err(_) => with_bytes(self.number, bytes),
        };
    }
}
