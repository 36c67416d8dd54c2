//! The letters of a pattern.

ghost use Rattle.std.specs.Prelude.{◌≡◌, ◌≤◌, ◌+◌, ◌-◌, ◌∷◌, false, length, IfOk, IfErr};
ghost use Rattle.nj_globs.specs.Cited.{is_sign, letters_from, is_lone, list_any, IsGlobFault};

use crate::glob_fault::GlobFault;
use std::alloc::Global;

/// A byte of a pattern.
#[derive(Clone, Copy, Debug)]
pub(crate) struct Letter {
    pub(crate) byte: u8,
    /// A `\` precedes it, so it is not a sign.
    pub(crate) is_literal: bool,
    /// The offset of the byte, or of that `\` if any.
    pub(crate) at: usize,
}

impl Letter {
    /// Whether it is the given sign.
    pub(crate) fn is_sign(self, sign: u8) -> bool
        ensures { result ≡ is_sign sign self }
    {
        !self.is_literal && self.byte == sign
    }
}

/// The letters of a pattern, unless it ends in a `\`.
pub(crate) fn read_letters(alloc: Global, pattern: &[u8]) -> Result<Vec<Letter>, GlobFault>
    ensures letters { IfOk result (λ v. v.items ≡ letters_from 0 pattern.now) }
    ensures whole { IfOk result (λ v. list_any is_lone v.items ≡ false) }
    ensures fault { IfErr result (λ fault. IsGlobFault pattern.now fault) }
{
    let mut letters = Vec::new(alloc);
    let mut rest = pattern;
    'letters: while let Some((first, others)) = rest.split_first() {
        let at = pattern.len() - rest.len();
        let (letter, after) = split_letter(at, *first, others);
        if letter.is_sign(b'\\') {
            return Err(GlobFault::BackslashAtEnd(at));
        }
        letters.push(letter)?;
        rest = after;
    }
    Ok(letters)
}

// The letter that begins with this byte, and the bytes after it. A `\` at the end is a letter.
fn split_letter(at: usize, first: u8, others: &[u8]) -> (Letter, &[u8])
    ensures letter { letters_from at (first ∷ others.now)
        ≡ result.0 ∷ letters_from (at + (length others.now + 1 - length result.1.now)) result.1.now }
    ensures at { result.0.at ≡ at }
    ensures shorter { length result.1.now ≤ length others.now }
{
    match others.split_first() {
        Some((next, after)) if first == b'\\' => {
            let letter = Letter {
                byte: *next,
                is_literal: true,
                at,
            };
            (letter, after)
        }
        _ => {
            let letter = Letter {
                byte: first,
                is_literal: false,
                at,
            };
            (letter, others)
        }
    }
}
