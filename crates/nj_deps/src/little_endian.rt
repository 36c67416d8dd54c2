//! Numbers of 32 bits in bytes, the lowest byte first.

ghost use Rattle.std.specs.Prelude.{◌≡◌, ◌<◌, ◌≤◌, ◌%◌, ◌^◌, ◌++◌, length, MatchOption, IfOk};
ghost use Rattle.nj_deps.specs.Cited.{numbers_of, word, AppendsNumbers, BeginsWith};

use crate::path_no::PathNo;
use std::alloc::AllocError;

/// Returns the number at the front, and the bytes after it, or `None` if there are fewer than four.
#[inline(always)]
pub(crate) fn split_number(bytes: &[u8]) -> Option<(u32, &[u8])>
    ensures { MatchOption result (length bytes.now < 4)
        (λ p. (p.0 < 2 ^ 32) × (bytes.now ≡ word p.0 ++ p.1.now)) }
{
    match bytes.split_first_chunk::<4>() {
        Some((first, rest)) => Some((number(first), rest)),
        None => None,
    }
}

/// Returns the number at the end, and the bytes before it, or `None` if there are fewer than four.
pub(crate) fn split_last_number(bytes: &[u8]) -> Option<(&[u8], u32)>
    ensures { MatchOption result (length bytes.now < 4)
        (λ p. (p.1 < 2 ^ 32) × (bytes.now ≡ p.0.now ++ word p.1)) }
{
    match bytes.split_last_chunk::<4>() {
        Some((rest, last)) => Some((rest, number(last))),
        None => None,
    }
}

/// The number that the given bytes are.
#[inline(always)]
fn number(bytes: &[u8; 4]) -> u32
    ensures bytes { bytes.now ≡ word result }
    ensures fits { result < 2 ^ 32 }
{
    u32::from_le_bytes(*bytes)
}

/// Appends the numbers that the bytes are. Returns whether all are below the count; if a number is
/// not, or if memory runs out, only some of them have been appended.
pub(crate) fn push_numbers(
    numbers: &mut Vec<PathNo>,
    bytes: &[u8],
    count: usize,
) -> Result<bool, AllocError>
    requires words { length bytes.now % 4 ≡ 0 }
    requires count { count ≤ 2 ^ 32 }
    ensures appended { IfOk result (λ all. AppendsNumbers count bytes.now
        (numbers_of numbers.old.items) (numbers_of numbers.new.items) all) }
    ensures grown { BeginsWith (numbers_of numbers.old.items)
        (numbers_of numbers.new.items) }
{
    numbers.reserve(bytes.len() / 4)?;
    let mut rest = bytes;
    'numbers: while let Some((number, others)) = split_number(rest) {
        if number as usize >= count {
            return Ok(false);
        }
        numbers.push(PathNo(number))?;
        rest = others;
    }
    Ok(true)
}
