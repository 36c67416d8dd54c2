//! Values that are expanded later.

ghost use Rattle.std.specs.Prelude.{◌≡◌, ◌<◌, List, [], ◌∷◌, ◌++◌, Some, length, slice_get, IfOk, OnOk, OnErr};
ghost use Rattle.nj_scope.specs.Cited.{part_model, word_model, part_written, parts_written, text_or_name};

use nj_text::{Part, Word};
use std::alloc::{AllocError, Global};
use std::marker::Model;

/// The number of bytes of `${` and `}`.
const REFERENCE_SIGNS: usize = 3;

// A part of a late value: the bytes of its text from `start` to `end`, verbatim or as a name.
#[derive(Clone, Copy)]
struct LatePart {
    start: usize,
    end: usize,
    is_name: bool,
}

/// A value that is expanded when it is used, as the values of a rule's block are: its bytes and
/// names in order, kept apart from the file that they are in.
#[derive(Drop)]
pub struct LateValue {
    text: Vec<u8>,
    parts: Vec<LatePart>,
}

impl Model for LateValue {
    ghost use Rattle.std.specs.Prelude.{List};
    ghost use Rattle.nj_text.specs.Words.{PartModel};
    ghost use Rattle.nj_scope.specs.Inside.LateHeld.{late_parts, AreWithin};

    ghost Value = { List PartModel };

    ghost view = { λ v. late_parts v.text.items v.parts.items };

    ghost invariant = { λ v. AreWithin v.text.items v.parts.items };
}

impl LateValue {
    /// The parts of the word.
    pub fn from_word(alloc: Global, word: &Word<'_>) -> Result<LateValue, AllocError>
        ensures { IfOk result (λ v. v ≡ (word_model word.now).parts) }
    {
        let mut value = LateValue {
            text: Vec::with_capacity(alloc, written_len(word))?,
            parts: Vec::with_capacity(alloc, word.parts.as_slice().len())?,
        };
        'parts: for part in word.parts.as_slice() {
            value.push(part)?;
        }
        Ok(value)
    }

    /// The number of parts.
    pub fn len(&self) -> usize
        ensures { result ≡ length self.now }
    {
        self.parts.len()
    }

    /// The part at this index.
    pub fn part(&self, index: usize) -> Part<'_>
        requires { index < length self.now }
        ensures { slice_get self.now index ≡ Some (part_model result) }
    {
        let part = self.parts[index];
        let bytes = &self.text[part.start..part.end];
        if part.is_name {
            Part::Name(bytes)
        } else {
            Part::Bytes(bytes)
        }
    }

    /// The value as a text, not expanded: a name is written in `${` and `}`, and an escape as the
    /// byte that it stands for.
    pub fn written(&self, alloc: Global) -> Result<Vec<u8>, AllocError>
        ensures { IfOk result (λ text. text.items ≡ parts_written self.now) }
    {
        let signs = self.parts.len().saturating_mul(REFERENCE_SIGNS);
        let mut text = Vec::with_capacity(alloc, self.text.len().saturating_add(signs))?;
        'parts: for index in 0..self.len() {
            append_written(&mut text, self.part(index))?;
        }
        Ok(text)
    }

    // Appends a part.
    fn push(&mut self, part: &Part<'_>) -> Result<(), AllocError>
        ensures pushed { OnOk result (self.new ≡ self.old ++ part_model part.now ∷ []) }
        ensures refused { OnErr result (self.new ≡ self.old) }
    {
        match part {
            Part::Bytes(bytes) => self.push_bytes(bytes, false),
            Part::Name(name) => self.push_bytes(name, true),
        }
    }

    fn push_bytes(&mut self, bytes: &[u8], is_name: bool) -> Result<(), AllocError>
        ensures pushed { OnOk result (self.new ≡ self.old ++ text_or_name is_name bytes.now ∷ []) }
        ensures refused { OnErr result (self.new ≡ self.old) }
    {
        let start = self.text.len();
        self.text.extend_from_slice(bytes)?;
        let end = self.text.len();
        self.parts.push(LatePart {
            start,
            end,
            is_name,
        })?;
        Ok(())
    }
}

/// The number of bytes of the word's parts, a reference counted as long as its name.
pub(crate) fn written_len(word: &Word<'_>) -> usize {
    let mut len: usize = 0;
    'parts: for part in word.parts.as_slice() {
        let (Part::Bytes(bytes) | Part::Name(bytes)) = part;
        len = len.saturating_add(bytes.len());
    }
    len
}

// Appends a part to the text, as it could be written in a file.
fn append_written(text: &mut Vec<u8>, part: Part<'_>) -> Result<(), AllocError>
    ensures { OnOk result (text.new.items ≡ text.old.items ++ part_written (part_model part.entry)) }
{
    match part {
        Part::Bytes(bytes) => text.extend_from_slice(bytes),
        Part::Name(name) => {
            text.extend_from_slice(b"${")?;
            text.extend_from_slice(name)?;
            text.extend_from_slice(b"}")
        }
    }
}
