//! The numbers of an address.

ghost use Rattle.nj_needs.specs.MarkTexts.{number_of};
ghost use Rattle.std.specs.Prelude.{◌≡◌, ◌∷◌, ◌<◌, [], Some, IfOk, IfErr, IfSome, length};
ghost use Rattle.nj_needs.specs.Cited.{option_copied, slice_split, numbers_in, IsReadFault, has_plain_front, is_dot, parts_left};

use crate::mark_fault::MarkFault;
use std::alloc::Global;

/// The number that a part writes, without leading zeros.
pub fn number_of(part: &str) -> Result<u64, MarkFault>
    ensures ok { IfOk result (λ number. number_of part.now ≡ Some number) }
    ensures err { IfErr result (λ fault. IsReadFault (number_of part.now) fault) }
{
    if !has_plain_front(part.as_bytes()) {
        return Err(MarkFault::BadMark);
    }
    match part.parse::<u64>() {
        Ok(number) => Ok(number),
        Err(_no_number) => Err(MarkFault::BadMark),
    }
}

/// Whether there are bytes that begin neither with a sign nor with a leading zero.
fn has_plain_front(part: &[u8]) -> bool
    ensures { result ≡ has_plain_front part.now }
{
    match part {
        [] => false,
        [digit] => *digit != b'+',
        [first, _second, ..] => *first != b'+' && *first != b'0',
    }
}

/// Returns the part before the first `.`, and the text after it; the whole text and `None` if it
/// has no `.`.
pub fn first_part(text: &str) -> (&str, Option<&str>)
    ensures parts { slice_split is_dot text.now
        ≡ result.0.now ∷ parts_left (option_copied result.1) }
    ensures shorter { IfSome result.1 (λ after. length after.now < length text.now) }
{
    match text.split_once('.') {
        Some((part, after)) => (part, Some(after)),
        None => (text, None),
    }
}

/// The numbers that the parts write, which are joined by `.`.
pub fn numbers_in(alloc: Global, text: &str) -> Result<Vec<u64>, MarkFault>
    ensures ok { IfOk result (λ numbers.
        numbers_in (slice_split is_dot text.now) ≡ Some numbers.items) }
    ensures err { IfErr result (λ fault.
        IsReadFault (numbers_in (slice_split is_dot text.now)) fault) }
{
    let mut numbers = Vec::new(alloc);
    let mut rest = text;
    'parts: loop {
        let (part, after) = first_part(rest);
        numbers.push(number_of(part)?)?;
        match after {
            Some(left) => rest = left,
            None => return Ok(numbers),
        }
    }
}
