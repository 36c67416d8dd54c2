//! The names on a line, and the paths that its words expand to.

ghost use Rattle.std.specs.Prelude.{◌≡◌, IfOk, OnOk};
ghost use Rattle.nj_statements.specs.Cited.{clean_path_of, part_model, word_model, part_expanded, expanded, Values, path_given, empty_path, Checks, SeesNames};

use crate::context::Context;
use crate::scratch::{Capacity, clean_bytes};
use nj_faults::{Cause, GraphFault};
use nj_text::{Part, TextFault, Word};
use std::alloc::AllocError;

impl Context<'_> {
    /// The value of a name.
    pub(crate) fn value(&self, name: &[u8]) -> &[u8]
        ensures { (values : Values) → SeesNames self.now values → result.now ≡ values name.now }
    {
        match self.blocks.value(self.edge, name) {
            Some(value) => value,
            None => self.declarations.value(self.scope, name),
        }
    }

    // The value of a part.
    fn part_given<'w>(&'w self, part: &'w Part<'_>) -> &'w [u8]
        ensures { (values : Values) → SeesNames self.now values
            → result.now ≡ part_expanded values (part_model part.now) }
    {
        match part {
            Part::Bytes(bytes) => bytes,
            Part::Name(name) => self.value(name),
        }
    }

    /// Sets a text to the value of a word.
    pub(crate) fn expand(&self, text: &mut Vec<u8>, word: &Word<'_>) -> Result<(), AllocError>
        ensures { (values : Values) → SeesNames self.now values
            → OnOk result (text.new.items ≡ expanded values (word_model word.now).parts) }
    {
        text.clear();
        'parts: for part in word.parts.as_slice() {
            text.extend_from_slice((&*self).part_given(part))?;
        }
        Ok(())
    }

    /// The path that a word expands to: a slice of its file if that is clean.
    pub(crate) fn path<'w>(
        self,
        capacity: &'w mut Capacity,
        word: &'w Word<'_>,
    ) -> Result<&'w [u8], GraphFault>
        ensures path { (values : Values) → SeesNames self.entry values
            → IfOk result (λ path. path.now ≡ path_given values (word_model word.now)) }
        ensures fault { (values : Values) → SeesNames self.entry values
            → Checks (empty_path self.entry.place.file.now values (word_model word.now)) result }
        ensures clean { IfOk result (λ path. clean_path_of path.now ≡ path.now) }
    {
        if let Some(path) = clean_bytes(word) {
            return Ok(path);
        }
        self.expand(&mut capacity.text, word)?;
        match capacity.clean_path() {
            Ok(path) => Ok(path),
            Err(TextFault::EmptyPath) => Err(self.fault(word.spot, Cause::EmptyPath)),
            Err(TextFault::OutOfMemory) => Err(GraphFault::out_of_memory()),
        }
    }
}
