//! Sixteen bytes at once.
//!
//! Nearly all bytes of a manifest are in runs: paths, flags, names. So the bytes of a run are not
//! tested one by one: sixteen of them are loaded as the lanes of a vector and compared with each
//! byte that ends a run, and the first lane with such a byte is where the run ends. Each test is
//! the test of a single byte, for all 256 bytes.

ghost use Rattle.std.specs.Prelude.{◌≡◌, not, map, bit_and, slice_index_or};
ghost use Rattle.nj_text.specs.Cited.{mask_l, in_run, lane_run};

use crate::runs::Run;
use std::simd::prelude::*;

/// How many bytes a vector has.
pub const LANES: usize = 16;

/// A run that is tested sixteen bytes at a time.
#[derive(Clone, Copy)]
pub enum LaneRun {
    /// The bytes of an identifier, and of a name in braces.
    Identifier,
    /// The ordinary bytes of a word.
    Word,
    /// The ordinary bytes of a value.
    Value,
}

impl LaneRun {
    /// Which of the runs it is.
    #[inline(always)]
    pub fn run(self) -> Run
        ensures { result ≡ lane_run self }
    {
        match self {
            LaneRun::Identifier => Run::Identifier,
            LaneRun::Word => Run::Word,
            LaneRun::Value => Run::Value,
        }
    }
}

/// A bit for each lane, set where the byte does not belong to the run.
#[inline(always)]
pub fn stops(run: LaneRun, lanes: u8x16) -> u64
    ensures { result ≡ mask_l (map (λ b. not (in_run (lane_run run) b)) lanes) }
{
    match run {
        LaneRun::Identifier => identifier_stops(lanes),
        LaneRun::Word => word_stops(lanes),
        LaneRun::Value => value_stops(lanes),
    }
}

#[inline(always)]
fn identifier_stops(lanes: u8x16) -> u64
    ensures { result ≡ mask_l (map (λ b. not (in_run Run.Identifier b)) lanes) }
{
    let letters_from_a = (lanes | u8x16::splat(0x20)) - u8x16::splat(b'a');
    let digits = lanes - u8x16::splat(b'0');
    (letters_from_a.simd_ge(u8x16::splat(26))
        & digits.simd_ge(u8x16::splat(10))
        & lanes.simd_ne(u8x16::splat(b'_'))
        & lanes.simd_ne(u8x16::splat(b'-'))
        & lanes.simd_ne(u8x16::splat(b'.'))).to_bitmask()
}

// The bytes that end a run, each at the place of its low four bits. Every other place has a byte
// that belongs to another place, or 0.
const WORD_STOPS: [u8; 16] = [0, 0, 0, 0, b'$', 0, 0, 0, 0, 0, b'\n', 0, b'|', b'\r', 0, 0];

const MORE_WORD_STOPS: [u8; 16] = [b' ', 0, 0, 0, 0, 0, 0, 0, 0, 0, b':', 0, 0, 0, 0, 0];

const VALUE_STOPS: [u8; 16] = [0, 0, 0, 0, b'$', 0, 0, 0, 0, 0, b'\n', 0, 0, b'\r', 0, 0];

/// For each lane the entry of the table at its low four bits.
#[inline(always)]
fn looked_up(table: [u8; 16], lanes: u8x16) -> u8x16
    ensures { result ≡ map (λ b. slice_index_or table (bit_and b 15) 0) lanes }
{
    u8x16::from_array(table).swizzle_dyn_within::<16>(lanes & u8x16::splat(15))
}

#[inline(always)]
fn word_stops(lanes: u8x16) -> u64
    ensures { result ≡ mask_l (map (λ b. not (in_run Run.Word b)) lanes) }
{
    (looked_up(WORD_STOPS, lanes).simd_eq(lanes)
        | looked_up(MORE_WORD_STOPS, lanes).simd_eq(lanes)).to_bitmask()
}

#[inline(always)]
fn value_stops(lanes: u8x16) -> u64
    ensures { result ≡ mask_l (map (λ b. not (in_run Run.Value b)) lanes) }
{
    looked_up(VALUE_STOPS, lanes).simd_eq(lanes).to_bitmask()
}
