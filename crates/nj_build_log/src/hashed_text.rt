//! The text whose hash a build log stores.

ghost use Rattle.std.specs.Prelude.{◌≡◌, ◌<◌, ◌≤◌, ◌+◌, ◌^◌, length, slice_index};
ghost use Rattle.nj_build_log.specs.Cited.{hashed_text, word};

use std::marker::Model;

/// The separator between a command and the contents of its response file.
const SEPARATOR: &[u8; 9] = b";rspfile=";

/// A command and the contents of its response file, as one text, without copying. Places in it have
/// 128 bits, since the length of two texts may exceed 64 bits.
#[derive(Drop)]
pub(crate) struct HashedText<'a> {
    command: &'a [u8],
    // empty if there is no response file
    contents: &'a [u8],
}

impl<'a> Model for HashedText<'a> {
    ghost use Rattle.std.specs.Prelude.{List, ℕ, ◌<◌, ◌^◌, length};
    ghost use Rattle.nj_build_log.specs.CommandHashes.{hashed_text};

    ghost Value = { List ℕ };

    ghost view = { λ t. hashed_text t.command.now t.contents.now };

    ghost invariant = { λ t. (length t.command.now < 2 ^ 63) × (length t.contents.now < 2 ^ 63) };
}

impl<'a> HashedText<'a> {
    /// The text of a command and of the contents of its response file.
    pub(crate) fn new(command: &'a [u8], contents: &'a [u8]) -> HashedText<'a>
        ensures { result ≡ hashed_text command.entry.now contents.entry.now }
    {
        HashedText { command, contents }
    }

    /// The number of its bytes.
    #[tactic(auto, using(crate::proofs::TextLemmas::size_of_text))]
    pub(crate) fn size(&self) -> u128
        ensures size { result ≡ length self.now }
        ensures bounded { length self.now < 2 ^ 65 }
    {
        let size = self.command.len() as u128;
        if self.contents.is_empty() {
            return size;
        }
        size + SEPARATOR.len() as u128 + self.contents.len() as u128
    }

    /// The number that eight bytes from a place on write, the lowest first.
    pub(crate) fn word_at(&self, place: u128) -> u64
        requires { place + 8 ≤ length self.now }
        ensures { result ≡ word self.now place 8 }
    {
        let size = self.command.len() as u128;
        if place + 8 <= size {
            return word_in(self.command, place as usize);
        }
        let start = size + SEPARATOR.len() as u128;
        if start <= place {
            return word_in(self.contents, (place - start) as usize);
        }
        self.number_at(place, 8)
    }

    /// The number that at most eight bytes from a place on write, the lowest first.
    pub(crate) fn number_at(&self, place: u128, count: usize) -> u64
        requires bounded { length self.now < 2 ^ 65 }
        requires at_most_eight { count ≤ 8 }
        requires within { place + count ≤ length self.now }
        ensures { result ≡ word self.now place count }
    {
        let mut number: u64 = 0;
        'bytes: for passed in 0..count {
            let byte = self.byte_at(place + (count - 1 - passed) as u128);
            number = number * 256 + u64::from(byte);
        }
        number
    }

    /// The byte at a place.
    pub(crate) fn byte_at(&self, place: u128) -> u8
        requires { place < length self.now }
        ensures { result ≡ slice_index self.now place }
    {
        let size = self.command.len() as u128;
        if place < size {
            return self.command[place as usize];
        }
        let start = size + SEPARATOR.len() as u128;
        if place < start {
            SEPARATOR[(place - size) as usize]
        } else {
            self.contents[(place - start) as usize]
        }
    }
}

// The number that eight bytes of a slice write.
fn word_in(bytes: &[u8], place: usize) -> u64
    requires { place + 8 ≤ length bytes.now }
    ensures { result ≡ word bytes.now place 8 }
{
    u64::from_le_bytes([
        bytes[place],
        bytes[place + 1],
        bytes[place + 2],
        bytes[place + 3],
        bytes[place + 4],
        bytes[place + 5],
        bytes[place + 6],
        bytes[place + 7],
    ])
}
