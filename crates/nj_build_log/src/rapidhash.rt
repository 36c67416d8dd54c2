//! rapidhash, with its default seed and secret.

ghost use Rattle.std.specs.Prelude.{◌≡◌, ◌≤◌, ◌<◌, ◌+◌, ◌*◌, ◌%◌, ◌^◌, length};
ghost use Rattle.nj_build_log.specs.Cited.{rapid_of, with_states, states_after, low_half, high_half, mix, started, mixed_in, joined, with_left, of_three, of_fours, short_ends, ends, state_of, finished};

use crate::hashed_text::HashedText;

const SEED: u64 = 0xBDD8_9AA9_8270_4029;

const SECRET: [u64; 3] = [
    0x2D35_8DCC_AA6C_78A5,
    0x8BB8_4B93_962E_ACC9,
    0x4B33_A62E_D433_D4A3,
];

// The states of the sixteen bytes at the front, in the middle and at the back of blocks.
#[derive(Clone, Copy)]
struct BlockStates {
    front: u64,
    middle: u64,
    back: u64,
}

/// The hash of a text.
pub(crate) fn rapid(text: &HashedText<'_>) -> u64
    ensures { result ≡ rapid_of text.now }
{
    let count = (text.size() % (1 << 64)) as u64;
    finished(state_of(text, count), ends(text), count)
}

// The state before the ends of a text.
fn state_of(text: &HashedText<'_>, count: u64) -> u64
    requires { count ≡ length text.now % 2 ^ 64 }
    ensures { result ≡ state_of text.now }
{
    let size = text.size();
    let state = started(count);
    if size <= 48 {
        return with_left(text, 0, state);
    }
    let blocks = size / 48;
    with_left(text, 48 * blocks, joined(after_blocks(text, state, blocks)))
}

fn started(count: u64) -> u64
    ensures { result ≡ started count }
{
    SEED ^ (mix(SEED ^ SECRET[0], SECRET[1]) ^ count)
}

// The states after the given number of blocks of 48 bytes at the front.
fn after_blocks(text: &HashedText<'_>, state: u64, blocks: u128) -> BlockStates
    requires bounded { length text.now < 2 ^ 65 }
    requires within { 48 * blocks ≤ length text.now }
    ensures { result ≡ states_after text.now state blocks }
{
    let mut states = BlockStates {
        front: state,
        middle: state,
        back: state,
    };
    'turns: for block in 0..blocks {
        states = with_block(text, 48 * block, states);
    }
    states
}

fn with_block(text: &HashedText<'_>, place: u128, states: BlockStates) -> BlockStates
    requires bounded { length text.now < 2 ^ 65 }
    requires within { place + 48 ≤ length text.now }
    ensures { result ≡ with_states text.now place states }
{
    BlockStates {
        front: mixed_in(text, place, SECRET[0], states.front),
        middle: mixed_in(text, place + 16, SECRET[1], states.middle),
        back: mixed_in(text, place + 32, SECRET[2], states.back),
    }
}

fn joined(states: BlockStates) -> u64
    ensures { result ≡ joined states }
{
    states.front ^ (states.middle ^ states.back)
}

// The state with the remaining bytes after a place.
fn with_left(text: &HashedText<'_>, place: u128, state: u64) -> u64
    requires bounded { length text.now < 2 ^ 65 }
    requires within { place ≤ length text.now }
    ensures { result ≡ with_left text.now place state }
{
    let left = text.size() - place;
    if left <= 16 {
        return state;
    }
    let once = mixed_in(text, place, SECRET[2], state ^ SECRET[1]);
    if left <= 32 {
        return once;
    }
    mixed_in(text, place + 16, SECRET[2], once)
}

// Sixteen bytes from a place on, mixed into a state.
fn mixed_in(text: &HashedText<'_>, place: u128, secret: u64, state: u64) -> u64
    requires bounded { length text.now < 2 ^ 65 }
    requires within { place + 16 ≤ length text.now }
    ensures { result ≡ mixed_in text.now place secret state }
{
    mix(
        text.word_at(place) ^ secret,
        text.word_at(place + 8) ^ state,
    )
}

// Two numbers of the bytes at the ends.
fn ends(text: &HashedText<'_>) -> (u64, u64)
    ensures { result ≡ ends text.now }
{
    let size = text.size();
    if size <= 16 {
        return short_ends(text);
    }
    (text.word_at(size - 16), text.word_at(size - 8))
}

// Two numbers of the bytes at the ends, of at most sixteen bytes.
fn short_ends(text: &HashedText<'_>) -> (u64, u64)
    requires { length text.now ≤ 16 }
    ensures { result ≡ short_ends text.now }
{
    let size = text.size();
    if size == 0 {
        return (0, 0);
    }
    if size < 4 {
        return (of_three(text), 0);
    }
    let inside = if size < 8 { 0 } else { 4 };
    (
        of_fours(text, 0, size - 4),
        of_fours(text, inside, size - 4 - inside),
    )
}

// A number of the first, the middle and the last byte.
fn of_three(text: &HashedText<'_>) -> u64
    requires { 0 < length text.now }
    ensures { result ≡ of_three text.now }
{
    let size = text.size();
    (u64::from(text.byte_at(0)) << 56)
        | (u64::from(text.byte_at(size / 2)) << 32)
        | u64::from(text.byte_at(size - 1))
}

// A number of the four bytes from one place on, and of the four bytes from another place on.
fn of_fours(text: &HashedText<'_>, place: u128, other: u128) -> u64
    requires bounded { length text.now < 2 ^ 65 }
    requires place { place + 4 ≤ length text.now }
    requires other { other + 4 ≤ length text.now }
    ensures { result ≡ of_fours text.now place other }
{
    (text.number_at(place, 4) << 32) | text.number_at(other, 4)
}

fn finished(state: u64, ends: (u64, u64), count: u64) -> u64
    ensures { result ≡ finished state ends count }
{
    let (low, high) = halves(ends.0 ^ SECRET[1], ends.1 ^ state);
    mix(low ^ SECRET[0] ^ count, high ^ SECRET[1])
}

// Both halves of a product, joined by xor.
fn mix(a: u64, b: u64) -> u64
    ensures { result ≡ mix a b }
{
    let (low, high) = halves(a, b);
    low ^ high
}

// The low and the high half of a product.
fn halves(a: u64, b: u64) -> (u64, u64)
    ensures low { result.0 ≡ low_half a b }
    ensures high { result.1 ≡ high_half a b }
{
    let product = u128::from(a) * u128::from(b);
    ((product % (1 << 64)) as u64, (product >> 64) as u64)
}
