//! Words and values: texts with references.

ghost use Rattle.std.specs.Prelude.{◌≡◌};
ghost use Rattle.nj_text.specs.Cited.{plain_model, word_model};

use crate::spot::Spot;
use smallvec::SmallVec;
use std::alloc::Global;
use std::default::Default;

/// A part of a word or of a value.
#[derive(Clone, Copy, Debug, PartialEq, Eq)]
pub enum Part<'a> {
    /// Bytes that stand for themselves: a run of ordinary bytes, or the byte of an escape.
    Bytes(&'a [u8]),
    /// A reference: the name of the variable whose value is put here.
    Name(&'a [u8]),
}

impl Default for Part<'_> {
    /// No bytes, which fill an unused place for a part.
    fn default() -> Self {
        Part::Bytes(b"")
    }
}

/// A word of a line, or the value of a binding, not yet expanded.
#[derive(Debug, Drop)]
pub struct Word<'a> {
    /// Where it begins; of a value without parts, where its line ends.
    pub spot: Spot,
    /// Its parts from left to right, each a slice of the text. A run of ordinary bytes is one part.
    /// Nearly all words are one part, which takes no memory of its own.
    pub parts: SmallVec<Part<'a>, 1>,
}

impl<'a> Word<'a> {
    /// A word of bytes that stand for themselves, at the given place.
    #[inline(always)]
    pub fn plain(alloc: Global, spot: Spot, bytes: &'a [u8]) -> Word<'a>
        ensures { word_model result ≡ plain_model spot bytes.now }
    {
        let mut parts = SmallVec::new(alloc);
        parts.push_reserved(Part::Bytes(bytes));
        Word { spot, parts }
    }
}
