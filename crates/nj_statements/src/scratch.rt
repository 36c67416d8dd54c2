//! Buffers for the text of a word, and for its clean path.

ghost use Rattle.std.specs.Prelude.{◌≡◌, [], ◌∷◌, false, Err, IfOk, OnOk, IfSome};
ghost use Rattle.nj_statements.specs.Cited.{is_empty, clean_path_of, Text, word_model, EmptyPath, expanded, Values, path_given, no_values};

use nj_text::{Part, TextFault, Word, clean_into, is_clean};
use std::alloc::{AllocError, Global};

/// Buffers for the text of a word, and for its clean path.
#[derive(Drop)]
pub(crate) struct Capacity {
    pub(crate) text: Vec<u8>,
    pub(crate) path: Vec<u8>,
}

impl Capacity {
    /// Returns empty buffers. Does not allocate.
    pub(crate) fn new(alloc: Global) -> Capacity {
        Capacity {
            text: Vec::new(alloc),
            path: Vec::new(alloc),
        }
    }

    /// The clean path of the text.
    pub(crate) fn clean_path(&mut self) -> Result<&[u8], TextFault>
        ensures path { IfOk result (λ path. path.now ≡ clean_path_of self.old.text.items) }
        ensures meant { OnOk result (is_empty self.old.text.items ≡ false) }
        ensures empty { result ≡ Err EmptyPath → self.old.text.items ≡ [] }
    {
        self.path.clear();
        match clean_into(&mut self.path, self.text.as_slice()) {
            Ok(()) => Ok(self.path.as_slice()),
            Err(fault) => Err(fault),
        }
    }

    /// Returns the path that a word expands to if each reference is empty: a slice of its file if
    /// that is clean.
    ///
    /// # Errors
    ///
    /// `EmptyPath` if the word expands to nothing, and `OutOfMemory` if an allocation failed.
    pub(crate) fn plain_path<'w>(&'w mut self, word: &'w Word<'_>) -> Result<&'w [u8], TextFault>
        ensures path { IfOk result (λ path. path.now ≡ path_given no_values (word_model word.now)) }
        ensures meant { OnOk result (is_empty (expanded no_values (word_model word.now).parts)
            ≡ false) }
        ensures empty { result ≡ Err EmptyPath
            → expanded no_values (word_model word.now).parts ≡ [] }
    {
        if let Some(path) = clean_bytes(word) {
            return Ok(path);
        }
        plain_text(&mut self.text, word)?;
        self.clean_path()
    }
}

// Sets a text to the value of a word if each reference is empty.
fn plain_text(text: &mut Vec<u8>, word: &Word<'_>) -> Result<(), AllocError>
    ensures { OnOk result (text.new.items ≡ expanded no_values (word_model word.now).parts) }
{
    text.clear();
    'parts: for part in word.parts.as_slice() {
        if let Part::Bytes(bytes) = part {
            text.extend_from_slice(bytes)?;
        }
    }
    Ok(())
}

/// The bytes of a word that is a clean path already.
pub(crate) fn clean_bytes<'b>(word: &'b Word<'_>) -> Option<&'b [u8]>
    ensures path { (values : Values)
        → IfSome result (λ path. path.now ≡ path_given values (word_model word.now)) }
    ensures meant { (values : Values)
        → IfSome result (λ path. is_empty (expanded values (word_model word.now).parts) ≡ false) }
{
    let bytes = only_bytes(word)?;
    if is_clean(bytes) { Some(bytes) } else { None }
}

/// The bytes of a word that has no reference and no escape.
pub(crate) fn only_bytes<'b>(word: &'b Word<'_>) -> Option<&'b [u8]>
    ensures { IfSome result (λ bytes. (word_model word.now).parts ≡ Text bytes.now ∷ []) }
{
    match word.parts.as_slice() {
        [Part::Bytes(bytes)] => Some(bytes),
        _ => None,
    }
}
