//! Reading of parts from letters.

ghost use Rattle.std.specs.Prelude.{◌≡◌, ◌≤◌, Ok, length, option_map, position, IfSome, IfOk, IfErr};
ghost use Rattle.nj_globs.specs.Cited.{part_model, parts_model, AreAllParts, read_part, read_set, read_stars, is_sign, has_mark, without_mark, split_set, range_end, HaveRanges, IsRangeFault, Gives, FailsBy};

use crate::glob_fault::GlobFault;
use crate::letters::Letter;
use crate::parts::{ByteRange, Part};
use std::alloc::Global;

/// The parts of all letters.
pub(crate) fn read_parts(alloc: Global, letters: &[Letter]) -> Result<Vec<Part>, GlobFault>
    ensures parts { IfOk result (λ v. AreAllParts letters.now (parts_model v.items)) }
    ensures fault { IfErr result (λ fault. FailsBy letters.now fault) }
{
    let mut parts = Vec::new(alloc);
    let mut begins = true;
    let mut rest = letters;
    'letters: while let Some((first, others)) = rest.split_first() {
        let (part, after) = read_part(alloc, begins, *first, others)?;
        begins = part.begins_after();
        parts.push(part)?;
        rest = after;
    }
    Ok(parts)
}

// The part at the front of letters, and the letters after it; a directory begins there or not.
fn read_part(
    alloc: Global,
    begins: bool,
    first: Letter,
    others: &[Letter],
) -> Result<(Part, &[Letter]), GlobFault>
    ensures part { IfOk result (λ p. read_part begins first others.now
        ≡ Ok (part_model p.0, p.1.now)) }
    ensures shorter { IfOk result (λ p. length p.1.now ≤ length others.now) }
    ensures fault { IfErr result (λ fault. Gives (read_part begins first others.now) fault) }
{
    if first.is_sign(b'[') {
        return read_set(alloc, first.at, others);
    }
    if first.is_sign(b'*') {
        return Ok(read_stars(begins, others));
    }
    if first.is_sign(b'?') {
        return Ok((Part::AnyByte, others));
    }
    Ok((Part::Byte(first.byte), others))
}

// `*`, `**` or `**/`: a `*` before the given letters.
fn read_stars(begins: bool, letters: &[Letter]) -> (Part, &[Letter])
    ensures part { (part_model result.0, result.1.now) ≡ read_stars begins letters.now }
    ensures shorter { length result.1.now ≤ length letters.now }
{
    match letters {
        [second, third, after @ ..] if begins && second.is_sign(b'*') && third.is_sign(b'/') => {
            (Part::Directories, after)
        }
        [second, after @ ..] if second.is_sign(b'*') => (Part::DoubleStar, after),
        _ => (Part::Star, letters),
    }
}

// A set whose `[` is at the given offset, before the given letters.
fn read_set(alloc: Global, at: usize, letters: &[Letter]) -> Result<(Part, &[Letter]), GlobFault>
    ensures part { IfOk result (λ p. read_set at letters.now ≡ Ok (part_model p.0, p.1.now)) }
    ensures shorter { IfOk result (λ p. length p.1.now ≤ length letters.now) }
    ensures fault { IfErr result (λ fault. Gives (read_set at letters.now) fault) }
{
    let (is_negated, unmarked) = split_mark(letters);
    let (inside, after) = match split_set(unmarked) {
        Some(split) => split,
        None => return Err(GlobFault::UnclosedSet(at)),
    };
    let ranges = read_ranges(alloc, inside)?;
    Ok((Part::Set { is_negated, ranges }, after))
}

// Whether letters begin with `!` or `^`, and the letters after it.
fn split_mark(letters: &[Letter]) -> (bool, &[Letter])
    ensures mark { result.0 ≡ has_mark letters.now }
    ensures after { result.1.now ≡ without_mark letters.now }
    ensures shorter { length result.1.now ≤ length letters.now }
{
    match letters {
        [first, after @ ..] if first.is_sign(b'!') || first.is_sign(b'^') => (true, after),
        _ => (false, letters),
    }
}

// Returns the letters of a set, and the letters after its `]`, or `None` without a `]`.
fn split_set(letters: &[Letter]) -> Option<(&[Letter], &[Letter])>
    ensures split { option_map (λ p. (p.0.now, p.1.now)) result ≡ split_set letters.now }
    ensures shorter { IfSome result (λ p. length p.1.now ≤ length letters.now) }
{
    match letters.split_first() {
        Some((_, others)) => match closing(others) {
            Some(count) => Some((&letters[..count + 1], &others[count + 1..])),
            None => None,
        },
        None => None,
    }
}

// The index of the first `]`.
fn closing(letters: &[Letter]) -> Option<usize>
    ensures { result ≡ position (is_sign 93) letters.now }
{
    letters.iter().position(|letter| letter.is_sign(b']'))
}

// The ranges of the letters of a set.
fn read_ranges(alloc: Global, letters: &[Letter]) -> Result<Vec<ByteRange>, GlobFault>
    ensures ranges { IfOk result (λ v. HaveRanges letters.now v.items) }
    ensures fault { IfErr result (λ fault. IsRangeFault letters.now fault) }
{
    let mut ranges = Vec::new(alloc);
    let mut rest = letters;
    'letters: while let Some((first, others)) = rest.split_first() {
        let (last, after) = split_range(*first, others);
        if last.byte < first.byte {
            return Err(GlobFault::ReversedRange(first.at));
        }
        ranges.push(ByteRange {
            low: first.byte,
            high: last.byte,
        })?;
        rest = after;
    }
    Ok(ranges)
}

// The last letter of the range that begins with the given letter, and the letters after it.
fn split_range(first: Letter, others: &[Letter]) -> (Letter, &[Letter])
    ensures range { (result.0, result.1.now) ≡ range_end first others.now }
    ensures shorter { length result.1.now ≤ length others.now }
{
    match others {
        [second, third, after @ ..] if second.is_sign(b'-') => (*third, after),
        _ => (first, others),
    }
}
