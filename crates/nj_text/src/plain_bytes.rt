//! Plain bytes at the front of a path, sixteen at a time.
//!
//! Nearly all paths are plain from end to end, and each path of a command is looked at for bytes
//! that want quotes. So sixteen of its bytes are tested at once.

ghost use Rattle.std.specs.Prelude.{◌≡◌, ◌+◌, ◌≤◌, not, map, length};
ghost use Rattle.nj_text.specs.Cited.{prefix_len, chunk, mask_l, is_plain_byte};

use crate::lanes::LANES;
use std::simd::prelude::*;

/// How many plain bytes are at the front.
#[inline]
pub fn plain_front(path: &[u8]) -> usize
    ensures { result ≡ prefix_len is_plain_byte path.now }
{
    if path.len() < LANES {
        front_by_bytes(path)
    } else {
        front_by_lanes(path)
    }
}

/// Whether a shell takes the byte literally.
#[inline(always)]
fn is_plain_byte(byte: u8) -> bool
    ensures { result ≡ is_plain_byte byte }
{
    matches!(byte, b'a'..=b'z' | b'A'..=b'Z' | b'0'..=b'9' | b'_' | b'+' | b'-' | b'.' | b'/')
}

/// How many plain bytes are at the front, tested byte by byte.
#[inline]
fn front_by_bytes(path: &[u8]) -> usize
    ensures { result ≡ prefix_len is_plain_byte path.now }
{
    let mut length = 0;
    for byte in path {
        if !is_plain_byte(*byte) {
            return length;
        }
        length += 1;
    }
    length
}

/// How many plain bytes are at the front, tested sixteen at a time. The last sixteen may overlap
/// with those before them, so that no byte is left to be tested alone.
#[inline]
fn front_by_lanes(path: &[u8]) -> usize
    requires { 16 ≤ length path.now }
    ensures { result ≡ prefix_len is_plain_byte path.now }
{
    let last = path.len() - LANES;
    let mut start = 0;
    'lanes: while start < last {
        let stops = stops_from(path, start);
        if stops != 0 {
            return start + stops.trailing_zeros() as usize;
        }
        start += LANES;
    }
    let stops = stops_from(path, last);
    if stops == 0 {
        return path.len();
    }
    last + stops.trailing_zeros() as usize
}

/// A bit for each of the sixteen bytes from `start` on, set where the byte is not plain.
#[inline(always)]
fn stops_from(path: &[u8], start: usize) -> u64
    requires { start + 16 ≤ length path.now }
    ensures { result ≡ mask_l (map (λ b. not (is_plain_byte b)) (chunk start 16 path.now)) }
{
    stops(u8x16::from_slice(&path[start..]))
}

/// A bit for each lane, set where the byte is not plain. `-`, `.`, `/` and the digits follow one
/// another.
#[inline(always)]
fn stops(lanes: u8x16) -> u64
    ensures { result ≡ mask_l (map (λ b. not (is_plain_byte b)) lanes) }
{
    let letters_from_a = (lanes | u8x16::splat(0x20)) - u8x16::splat(b'a');
    let from_dash = lanes - u8x16::splat(b'-');
    (letters_from_a.simd_ge(u8x16::splat(26))
        & from_dash.simd_ge(u8x16::splat(13))
        & lanes.simd_ne(u8x16::splat(b'_'))
        & lanes.simd_ne(u8x16::splat(b'+'))).to_bitmask()
}
