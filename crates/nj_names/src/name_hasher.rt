//! The hasher of names.
ghost use Rattle.std.specs.Prelude.{◌≡◌};
ghost use Rattle.nj_names.specs.Cited.{hash_bytes, folded_product, take_block, take_byte, write, finish};

use crate::byte_hash::state_after;
use std::hash::Hasher;
use std::marker::Model;

/// The 64 bits of π after its point.
const PI: u64 = 0x243f_6a88_85a3_08d3;
/// The 64 bits of the golden ratio after its point.
const GOLDEN_RATIO: u64 = 0x9e37_79b9_7f4a_7c15;

/// Hashes names by a number that was drawn. A map passes a name byte by byte, and eight bytes are
/// taken in at once: as a block, which costs one multiplication.
///
/// A block is added to the state, the sum is multiplied by the factor to 128 bits, and the halves
/// of the product, joined by xor, are the next state. The state starts as the number that was
/// drawn, and the factor is derived from it, so which names collide depends on all of its bits.
/// Whoever chooses names chooses only the blocks, and knows neither the state nor the factor. So
/// only by a guess can a block make the product 0, which would drop the number, and no two blocks
/// are known to collide whatever was drawn.
///
/// Two blocks can collide more often than once in 2^64 numbers. The worst pairs that are known
/// differ by a third of 2^64, and collide for about one number in 300 million. So names may collide
/// in pairs, but no way is known to make a flood of them. If blocks were joined with the state by
/// xor, a block and its complement would collide for one number in 100 million.
///
/// A product of 64 bits would not do: there, bits act only on the bits above them. Two names whose
/// blocks differ in the top bit, twice in a row, would collide whatever was drawn, and the low bits
/// of a hash, which choose a place in a table, would depend little on the blocks.
///
/// All this is rationale and experiment, and none of it is proved: the contracts state the
/// computation.
#[derive(Clone, Copy)]
pub struct NameHasher {
    state: u64,
    factor: u64,
    /// The bytes since the last block, the first one highest, below a bit that is set. So `a` and
    /// `a\0` differ.
    pending: u64,
}

impl Model for NameHasher {
    ghost use Rattle.nj_names.specs.NameHash.{HasherState};

    ghost Value = { HasherState };

    ghost view = { λ h. record { state = h.state; factor = h.factor; pending = h.pending } };

    ghost inverse = { λ h. record { state = h.state; factor = h.factor; pending = h.pending } };
}

impl NameHasher {
    /// A hasher that starts from a number. The factor is odd, so that the lower half of a product
    /// alone tells blocks apart.
    pub(crate) fn new(drawn: u64) -> NameHasher {
        NameHasher {
            state: drawn,
            factor: folded_product(drawn ^ PI, GOLDEN_RATIO) | 1,
            pending: 1,
        }
    }

    /// The hash of the given bytes at once, from the hasher's present state.
    #[tactic(auto, unfolding(crate::specs::ByteHash::hash_bytes))]
    #[inline(always)]
    pub(crate) fn hash_bytes(&self, bytes: &[u8]) -> u64
        ensures { result ≡ hash_bytes self.now bytes.now }
    {
        let state = state_after(self.factor, self.state, bytes);
        folded_product(state.wrapping_add(bytes.len() as u64), self.factor)
    }

    /// Takes in one byte. It is small, so that a name is hashed in registers.
    #[inline(always)]
    fn take_byte(&mut self, byte: u8)
        ensures { self.new ≡ take_byte self.old byte }
    {
        let block = self.pending << 8 | byte as u64;
        if self.pending < 1 << 56 {
            self.pending = block;
        } else {
            self.take_block(block);
            self.pending = 1;
        }
    }

    #[inline(always)]
    fn take_block(&mut self, block: u64)
        ensures { self.new ≡ take_block self.old block }
    {
        self.state = folded_product(self.state.wrapping_add(block), self.factor);
    }
}

/// The halves of the 128 bits of a product, joined by xor.
#[inline(always)]
pub(crate) fn folded_product(a: u64, b: u64) -> u64
    ensures { result ≡ folded_product a b }
{
    let product = a as u128 * b as u128;
    (product & 0xFFFF_FFFF_FFFF_FFFF) as u64 ^ (product >> 64) as u64
}

impl Hasher for NameHasher {
    ghost write = { write };

    ghost finish = { finish };

    #[inline(always)]
    fn finish(&self) -> u64 {
        folded_product(self.state.wrapping_add(self.pending), self.factor)
    }

    /// Eight bytes at once are a number, as the length that comes before a name: a block of its
    /// own.
    #[inline(always)]
    fn write(&mut self, bytes: &[u8]) {
        match <[u8; 8]>::try_from(bytes) {
            Ok(block) => self.take_block(u64::from_le_bytes(block)),
            Err(_) => {
                for byte in bytes {
                    self.take_byte(*byte);
                }
            }
        }
    }
}
