//! The hash of bytes that lie together.
ghost use Rattle.std.specs.Prelude.{◌≡◌, fold};
ghost use Rattle.nj_names.specs.Cited.{words_of, take_words, after_blocks, short_words, last_words, state_after, with_byte};

use crate::name_hasher::folded_product;

/// Sixteen bytes as two numbers.
#[derive(Clone, Copy)]
pub(crate) struct Words {
    first: u64,
    second: u64,
}

/// The state after the given bytes: each whole block of sixteen is a step, and the last sixteen
/// bytes are another step, which may take in some bytes again. So no step goes byte by byte, unless
/// there are fewer than eight bytes.
pub(crate) fn state_after(factor: u64, start: u64, bytes: &[u8]) -> u64
    ensures { result ≡ state_after factor start bytes.now }
{
    let (blocks, _) = bytes.as_chunks::<16>();
    let state = after_blocks(factor, start, blocks);
    take_words(factor, state, last_words(bytes))
}

#[inline(always)]
fn after_blocks(factor: u64, start: u64, blocks: &[[u8; 16]]) -> u64
    ensures { result ≡ after_blocks factor start blocks.now }
{
    let mut state = start;
    'steps: for block in blocks {
        state = take_words(factor, state, words_of(block));
    }
    state
}

#[inline(always)]
fn take_words(factor: u64, state: u64, words: Words) -> u64
    ensures { result ≡ take_words factor state words }
{
    folded_product(
        state.wrapping_add(words.first),
        factor.wrapping_add(words.second),
    )
}

/// Sixteen bytes, which are read at once.
#[inline(always)]
fn words_of(bytes: &[u8; 16]) -> Words
    ensures { result ≡ words_of bytes.now }
{
    let number = u128::from_le_bytes(*bytes);
    Words {
        first: (number & 0xFFFF_FFFF_FFFF_FFFF) as u64,
        second: (number >> 64) as u64,
    }
}

/// The last sixteen bytes, or all if there are fewer.
#[inline(always)]
fn last_words(bytes: &[u8]) -> Words
    ensures { result ≡ last_words bytes.now }
{
    match bytes.last_chunk::<16>() {
        Some(block) => words_of(block),
        None => short_words(bytes),
    }
}

/// Fewer than sixteen bytes: the first eight and the last eight, or all if fewer than eight.
#[inline(always)]
fn short_words(bytes: &[u8]) -> Words
    ensures { result ≡ short_words bytes.now }
{
    match (bytes.first_chunk::<8>(), bytes.last_chunk::<8>()) {
        (Some(first), Some(last)) => Words {
            first: u64::from_le_bytes(*first),
            second: u64::from_le_bytes(*last),
        },
        _ => Words {
            first: with_bytes(0, bytes),
            second: 0,
        },
    }
}

/// A number with the given bytes at its low end.
#[inline(always)]
pub(crate) fn with_bytes(number: u64, bytes: &[u8]) -> u64
    ensures { result ≡ fold with_byte number bytes.now }
{
    let mut number = number;
    'bytes: for byte in bytes {
        number = number << 8 | *byte as u64;
    }
    number
}
