//! Components that are seen to be names sixteen bytes at a time.
//!
//! Nearly all components of a manifest's paths are names, and few names begin with a dot. So where
//! no slash comes before a slash or a dot, no component is looked at by itself: sixteen bytes are
//! compared at once with the sixteen that begin one byte later.

ghost use Rattle.std.specs.Prelude.{◌≡◌, ◌+◌, ◌<◌, length};
ghost use Rattle.nj_text.specs.Cited.{OnTrue, AllByRecursion, slice_split, chunk, mask_l, zip2, IsName, is_slash, any, begins_name, ends_with_slash, is_suspect, suspects};

use crate::lanes::LANES;
use std::simd::prelude::*;

/// A bit for each lane, set where a slash comes before a slash or a dot.
#[inline(always)]
fn suspects(bytes: u8x16, next: u8x16) -> u64
    ensures { result ≡ mask_l (zip2 is_suspect bytes next) }
{
    (bytes.simd_eq(u8x16::splat(b'/'))
        & (next.simd_eq(u8x16::splat(b'/')) | next.simd_eq(u8x16::splat(b'.')))).to_bitmask()
}

/// Whether a slash comes before a slash or a dot, among the sixteen bytes from `start` on.
#[inline(always)]
fn has_suspect_from(text: &[u8], start: usize) -> bool
    requires { start + 16 < length text.now }
    ensures { result ≡ any (chunk start 16 (suspects text.now)) }
{
    suspects(
        u8x16::from_slice(&text[start..]),
        u8x16::from_slice(&text[start + 1..]),
    ) != 0
}

/// Whether a slash comes before a slash or a dot. The last sixteen bytes may overlap with those
/// before them, so that no byte is left to be tested alone.
#[inline]
fn has_suspect(text: &[u8]) -> bool
    requires { 16 < length text.now }
    ensures { result ≡ any (suspects text.now) }
{
    let last = text.len() - LANES - 1;
    let mut start = 0;
    'lanes: while start < last {
        if has_suspect_from(text, start) {
            return true;
        }
        start += LANES;
    }
    has_suspect_from(text, last)
}

/// Whether the first byte begins a name: it is neither a slash nor a dot.
#[inline]
fn begins_name(text: &[u8]) -> bool
    ensures { result ≡ begins_name text.now }
{
    !matches!(text, [] | [b'/' | b'.', ..])
}

#[inline]
#[tactic(auto, using(crate::proofs::NamesSeen::ends_at_last))]
fn ends_with_slash(text: &[u8]) -> bool
    ensures { result ≡ ends_with_slash text.now }
{
    matches!(text, [.., b'/'])
}

/// Whether each component is seen at once to be a name; `false` proves nothing. Short texts are not
/// looked at.
#[inline]
#[tactic(auto, using(crate::proofs::NamesSeen::names_seen))]
pub fn are_names(text: &[u8]) -> bool
    ensures { OnTrue result (AllByRecursion IsName (slice_split is_slash text.now)) }
{
    text.len() > LANES && begins_name(text) && !ends_with_slash(text) && !has_suspect(text)
}
