//! MurmurHash64A, with the seed that Ninja uses.

ghost use Rattle.std.specs.Prelude.{◌≡◌, ◌<◌, ◌≤◌, ◌/◌, ◌+◌, ◌*◌, ◌^◌, length, drop};
ghost use Rattle.nj_build_log.specs.Cited.{multiplied, folded, murmur_of, with_block, with_blocks, with_rest};

use crate::hashed_text::HashedText;

const SEED: u64 = 0xDECA_FBAD_DECA_FBAD;

const MULTIPLIER: u64 = 0xC6A4_A793_5BD1_E995;

/// The hash of a text.
pub(crate) fn murmur(text: &HashedText<'_>) -> u64
    ensures { result ≡ murmur_of text.now }
{
    let size = text.size();
    let blocks = size / 8;
    let hash = with_rest(
        text,
        after_blocks(text, blocks),
        8 * blocks,
        (size % 8) as usize,
    );
    folded(multiplied(folded(hash)))
}

// The hash of the given number of blocks of eight bytes at the front.
fn after_blocks(text: &HashedText<'_>, blocks: u128) -> u64
    requires bounded { length text.now < 2 ^ 65 }
    requires within { 8 * blocks ≤ length text.now }
    ensures { result ≡ with_blocks text.now blocks }
{
    let mut hash = SEED ^ multiplied((text.size() % (1 << 64)) as u64);
    'turns: for block in 0..blocks {
        hash = with_block(hash, text.word_at(8 * block));
    }
    hash
}

fn with_block(hash: u64, block: u64) -> u64
    ensures { result ≡ with_block hash block }
{
    multiplied(hash ^ multiplied(folded(multiplied(block))))
}

// The hash with the last `count` bytes, from a place to the end, fewer than eight.
fn with_rest(text: &HashedText<'_>, hash: u64, place: u128, count: usize) -> u64
    requires bounded { length text.now < 2 ^ 65 }
    requires few { count < 8 }
    requires to_the_end { place + count ≡ length text.now }
    ensures { result ≡ with_rest hash (drop place text.now) }
{
    if count == 0 {
        hash
    } else {
        multiplied(hash ^ text.number_at(place, count))
    }
}

fn multiplied(number: u64) -> u64
    ensures { result ≡ multiplied number }
{
    number.wrapping_mul(MULTIPLIER)
}

fn folded(number: u64) -> u64
    ensures { result ≡ folded number }
{
    number ^ (number >> 47)
}
