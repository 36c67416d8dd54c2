//! The text of a fault.

ghost use Rattle.std.specs.Prelude.{◌≡◌, ◌++◌, Some, OnOk};
ghost use Rattle.nj_manifest.specs.Cited.{utf8_lossy};

use nj_text::Lossy;
use std::alloc::AllocError;
use std::fmt;
use std::marker::Model;

/// The text of a fault: a name between two fixed texts, or two names with fixed texts before,
/// between and after them. The names are those of the files, so they need not be UTF-8.
#[derive(Debug, Drop)]
pub struct FaultText<'a> {
    opening: &'static str,
    first: &'a [u8],
    before: &'static str,
    name: &'a [u8],
    after: &'static str,
}

impl<'a> Model for FaultText<'a> {
    ghost use Rattle.std.specs.Prelude.{◌++◌};
    ghost use Rattle.std.specs.Str.Lossy.{utf8_lossy};
    ghost use Rattle.nj_manifest.specs.Faults.{Message};

    ghost Value = { Message };

    ghost view = { λ text. record {
      exact = text.opening.now ++ text.first.now ++ text.before.now ++ text.name.now ++ text.after.now;
      shown = text.opening.now ++ utf8_lossy text.first.now ++ text.before.now ++ utf8_lossy text.name.now ++ text.after.now;
    } };
}

impl<'a> FaultText<'a> {
    /// A fixed text with no name.
    pub fn fixed(text: &'static str) -> FaultText<'a>
        ensures exact { result.exact ≡ text.now }
        ensures shown { result.shown ≡ text.now }
    {
        FaultText {
            opening: text,
            first: b"",
            before: "",
            name: b"",
            after: "",
        }
    }

    /// Two fixed texts, with no name between them.
    pub fn pair(before: &'static str, after: &'static str) -> FaultText<'a>
        ensures exact { result.exact ≡ before.now ++ after.now }
        ensures shown { result.shown ≡ before.now ++ after.now }
    {
        FaultText {
            opening: before,
            first: b"",
            before: after,
            name: b"",
            after: "",
        }
    }

    /// A name between two fixed texts.
    #[tactic(auto, using(crate::proofs::Shown::lossy_nil))]
    pub fn naming(before: &'static str, name: &'a [u8], after: &'static str) -> FaultText<'a>
        ensures exact { result.exact ≡ before.now ++ name.now ++ after.now }
        ensures shown { result.shown ≡ before.now ++ utf8_lossy name.now ++ after.now }
    {
        FaultText {
            opening: "",
            first: b"",
            before,
            name,
            after,
        }
    }

    /// Two names, with a fixed text before, between and after them.
    pub fn naming_two(
        opening: &'static str,
        first: &'a [u8],
        between: &'static str,
        second: &'a [u8],
        after: &'static str,
    ) -> FaultText<'a>
        ensures exact { result.exact
            ≡ opening.now ++ first.now ++ between.now ++ second.now ++ after.now }
        ensures shown { result.shown
            ≡ opening.now ++ utf8_lossy first.now ++ between.now ++ utf8_lossy second.now ++ after.now }
    {
        FaultText {
            opening,
            first,
            before: between,
            name: second,
            after,
        }
    }

    /// Appends the text to the bytes, with the names verbatim.
    ///
    /// # Errors
    ///
    /// Out of memory; a part of the text may have been appended then.
    pub fn append_to(&self, bytes: &mut Vec<u8>) -> Result<(), AllocError>
        ensures { OnOk result (bytes.new.items ≡ bytes.old.items ++ self.now.exact) }
    {
        bytes.extend_from_slice(self.opening.as_bytes())?;
        bytes.extend_from_slice(self.first)?;
        bytes.extend_from_slice(self.before.as_bytes())?;
        bytes.extend_from_slice(self.name)?;
        bytes.extend_from_slice(self.after.as_bytes())
    }
}

/// In a name U+FFFD replaces invalid UTF-8.
impl fmt::Display for FaultText<'_> {
    ghost output = { λ text. Some text.shown };

    fn fmt<W: fmt::Write>(&self, f: &mut fmt::Formatter<W>) -> fmt::Result {
        let (opening, before, after) = (self.opening, self.before, self.after);
        let first = Lossy(self.first);
        let name = Lossy(self.name);
        write!(f, "{opening}{first}{before}{name}{after}")
    }
}
