//! Runs of bytes of one kind, and how long they are.

ghost use Rattle.std.specs.Prelude.{◌≡◌, ◌≤◌, [], ◌∷◌, ◌++◌, length, MatchOption};
ghost use Rattle.nj_text.specs.Cited.{prefix_len, take_while, drop_while, in_run, lane_run};

use crate::lanes::{LANES, LaneRun, stops};
use memchr::memchr;
use std::simd::prelude::*;

/// The kinds of bytes that are skipped as one run.
#[derive(Clone, Copy)]
pub enum Run {
    /// Spaces.
    Spaces,
    /// The bytes of a name after a bare `$`.
    Name,
    /// The bytes of an identifier, and of a name in braces.
    Identifier,
    /// The ordinary bytes of a word.
    Word,
    /// The ordinary bytes of a value.
    Value,
    /// All up to the end of a physical line.
    Comment,
}

#[inline(always)]
fn is_name_byte(byte: u8) -> bool
    ensures { result ≡ in_run Run.Name byte }
{
    matches!(byte, b'a'..=b'z' | b'A'..=b'Z' | b'0'..=b'9' | b'_' | b'-')
}

/// Whether a byte stands for itself.
#[inline(always)]
pub fn is_ordinary_byte(byte: u8) -> bool
    ensures { result ≡ in_run Run.Value byte }
{
    !matches!(byte, b'$' | b'\n' | b'\r' | 0)
}

/// Whether a byte belongs to a run.
#[inline(always)]
pub fn in_run(run: Run, byte: u8) -> bool
    ensures { result ≡ in_run run byte }
{
    match run {
        Run::Spaces => byte == b' ',
        Run::Name => is_name_byte(byte),
        Run::Identifier => is_name_byte(byte) || byte == b'.',
        Run::Word => is_ordinary_byte(byte) && !matches!(byte, b' ' | b':' | b'|'),
        Run::Value => is_ordinary_byte(byte),
        Run::Comment => byte != b'\n',
    }
}

/// The length of the run at the front, tested byte by byte.
#[inline(always)]
fn length_by_bytes(run: Run, bytes: &[u8]) -> usize
    ensures length { result ≡ prefix_len (in_run run) bytes.now }
    ensures within { result ≤ length bytes.now }
{
    let mut length = 0;
    for byte in bytes {
        if !in_run(run, *byte) {
            return length;
        }
        length += 1;
    }
    length
}

/// The length of the run at the front, tested sixteen bytes at a time.
#[inline(always)]
fn length_by_lanes(run: LaneRun, bytes: &[u8]) -> usize
    ensures length { result ≡ prefix_len (in_run (lane_run run)) bytes.now }
    ensures within { result ≤ length bytes.now }
{
    let mut passed = 0;
    'lanes: while bytes.len() - passed >= LANES {
        let stops = stops(run, u8x16::from_slice(&bytes[passed..]));
        if stops != 0 {
            return passed + stops.trailing_zeros() as usize;
        }
        passed += LANES;
    }
    passed + length_by_bytes(run.run(), &bytes[passed..])
}

/// The length of the comment at the front, which ends at the first line feed or with the text. Not
/// inlined: the search is long, and [`Cursor::run`] is to stay short enough to be inlined itself.
///
/// [`Cursor::run`]: crate::cursor::Cursor::run
#[inline(never)]
#[tactic(auto, using(crate::proofs::ByteSearches::up_to_line_feed))]
fn length_of_comment(bytes: &[u8]) -> usize
    ensures length { result ≡ prefix_len (in_run Run.Comment) bytes.now }
    ensures within { result ≤ length bytes.now }
{
    memchr(b'\n', bytes).unwrap_or(bytes.len())
}

/// The length of the run at the front. Runs of spaces and names after a `$` are short: testing
/// sixteen bytes at once gains nothing. A single byte ends a comment; the other runs end at more
/// different bytes than `memchr` looks for at once.
#[inline(always)]
pub fn run_length(run: Run, bytes: &[u8]) -> usize
    ensures length { result ≡ prefix_len (in_run run) bytes.now }
    ensures within { result ≤ length bytes.now }
{
    match run {
        Run::Spaces => length_by_bytes(run, bytes),
        Run::Name => length_by_bytes(run, bytes),
        Run::Identifier => length_by_lanes(LaneRun::Identifier, bytes),
        Run::Word => length_by_lanes(LaneRun::Word, bytes),
        Run::Value => length_by_lanes(LaneRun::Value, bytes),
        Run::Comment => length_of_comment(bytes),
    }
}

/// The run at the front, which may be empty, and the bytes after it.
#[inline(always)]
pub fn split_run(run: Run, bytes: &[u8]) -> (&[u8], &[u8])
    ensures run { result.0.now ≡ take_while (in_run run) bytes.now }
    ensures after { result.1.now ≡ drop_while (in_run run) bytes.now }
    ensures whole { bytes.now ≡ result.0.now ++ result.1.now }
{
    bytes.split_at(run_length(run, bytes))
}

/// The first byte and the bytes after it; `None` if there are no bytes.
#[inline(always)]
pub fn first_byte(bytes: &[u8]) -> Option<(u8, &[u8])>
    ensures { MatchOption result (bytes.now ≡ []) (λ first. bytes.now ≡ first.0 ∷ first.1.now) }
{
    match bytes {
        [] => None,
        [byte, remainder @ ..] => Some((*byte, remainder)),
    }
}
