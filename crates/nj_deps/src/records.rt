//! Records of a deps log, as bytes.

ghost use Rattle.std.specs.Prelude.{◌≡◌, ◌≢◌, ◌<◌, ◌^◌, ◌++◌, ℕ, List, MatchOption};
ghost use Rattle.nj_deps.specs.Cited.{path_in, without_zero, opening, IsFramed, IsUnframed};

use crate::little_endian::split_number;

/// The bit that distinguishes records of dependencies from records of paths.
pub(crate) const DEPENDENCIES: u32 = 1 << 31;

/// The largest content of a record.
const LARGEST: u32 = (1 << 19) - 1;

const FIRST_LINE: &[u8] = b"# ninjadeps\n";

/// Returns the version and the bytes after it, or `None` if the bytes do not begin as a deps log.
pub(crate) fn split_opening(bytes: &[u8]) -> Option<(u32, &[u8])>
    ensures { MatchOption result
        ((version : ℕ) (rest : List ℕ) → bytes.now ≢ opening version ++ rest)
        (λ p. (p.0 < 2 ^ 32) × (bytes.now ≡ opening p.0 ++ p.1.now)) }
{
    match bytes.strip_prefix(FIRST_LINE) {
        Some(rest) => split_number(rest),
        None => None,
    }
}

/// Returns the first word of a record, its content, and the bytes after it, or `None` if the bytes
/// do not begin with a record of a valid size.
pub(crate) fn split_record(bytes: &[u8]) -> Option<(u32, &[u8], &[u8])>
    ensures { MatchOption result (IsUnframed bytes.now)
        (λ p. (p.0 < 2 ^ 32) × IsFramed bytes.now p.0 p.1.now p.2.now) }
{
    let (head, rest) = match split_number(bytes) {
        Some(split) => split,
        None => return None,
    };
    let size = head % DEPENDENCIES;
    if size > LARGEST {
        return None;
    }
    match rest.split_at_checked(size as usize) {
        Some((content, after)) => Some((head, content, after)),
        None => None,
    }
}

/// The path without up to three zero bytes at its end.
pub(crate) fn path_in(padded: &[u8]) -> &[u8]
    ensures { result.now ≡ path_in padded.now }
{
    without_zero(without_zero(without_zero(padded)))
}

// The bytes without a zero at their end.
fn without_zero(bytes: &[u8]) -> &[u8]
    ensures { result.now ≡ without_zero bytes.now }
{
    match bytes.split_last() {
        Some((0, rest)) => rest,
        _ => bytes,
    }
}
