//! The line that reports a fault, and its text for people to read.

ghost use Rattle.std.specs.Prelude.{◌≡◌, ◌++◌, IfOk, Some, codes, unwrap_or};
ghost use Rattle.nj_faults.specs.Cited.{option_map, utf8_lossy, bare_line, cause_text, fault_line, fault_line_for, line_after, opening_text, shown_line, shown_place};

use crate::fault::{Cause, GraphFault, Name, Place};
use crate::limits::{TOO_DEEP_TEXT, TOO_MANY_OPENINGS_TEXT};
use crate::version::IS_NEWER;
use nj_manifest::FaultText;
use nj_text::{Lossy, OUT_OF_MEMORY_TEXT};
use std::alloc::{AllocError, Global};
use std::error::Error;
use std::fmt;

impl GraphFault {
    /// The line by which `ninja-explain` reports the fault, without a line end: `FILE:LINE:COLUMN:
    /// TEXT`, or `ninja-explain: TEXT` where the fault has no place. Names and paths are written
    /// verbatim.
    ///
    /// # Errors
    ///
    /// An allocation failed.
    pub fn line(&self, alloc: Global) -> Result<Vec<u8>, AllocError>
        ensures { IfOk result (λ line. line.items ≡ fault_line self.now) }
    {
        line_after(alloc, self, "ninja-explain: ")
    }

    /// The line for a program with the given name: `FILE:LINE:COLUMN: TEXT`, or `PROGRAM: TEXT`
    /// where the fault has no place.
    ///
    /// # Errors
    ///
    /// An allocation failed.
    pub fn line_for(&self, alloc: Global, program: &str) -> Result<Vec<u8>, AllocError>
        ensures { IfOk result (λ line. line.items ≡ fault_line_for program.now self.now) }
    {
        let opening = format!(in alloc; "{program}: ")?;
        line_after(alloc, self, &opening)
    }

    /// The line without a program's name: `FILE:LINE:COLUMN: TEXT`, or `TEXT` where the fault has
    /// no place.
    ///
    /// # Errors
    ///
    /// An allocation failed.
    pub fn bare_line(&self, alloc: Global) -> Result<Vec<u8>, AllocError>
        ensures { IfOk result (λ line. line.items ≡ bare_line self.now) }
    {
        line_after(alloc, self, "")
    }
}

// The line of a fault, which begins with `otherwise` where it has no place.
fn line_after(alloc: Global, fault: &GraphFault, otherwise: &str) -> Result<Vec<u8>, AllocError>
    ensures { IfOk result (λ line. line.items ≡ line_after (λ name. name) otherwise.now fault.now) }
{
    let mut line = opening_text(alloc, &fault.place, otherwise)?;
    fault.cause.text().append_to(&mut line)?;
    Ok(line)
}

// The text before the text of a fault: its place, or `otherwise` without a place.
fn opening_text(
    alloc: Global,
    place: &Option<Place>,
    otherwise: &str,
) -> Result<Vec<u8>, AllocError>
    ensures { IfOk result (λ text. text.items
        ≡ unwrap_or (option_map (opening_text (λ name. name)) place.now) otherwise.now) }
{
    match place {
        Some(place) => {
            let spot = place.spot;
            let mut text = Vec::from_slice(alloc, place.file.as_bytes())?;
            let at = format!(in alloc; ":{spot}: ")?;
            text.extend_from_slice(at.as_bytes())?;
            Ok(text)
        }
        None => Vec::from_slice(alloc, otherwise.as_bytes()),
    }
}

impl Cause {
    // The text of the cause.
    fn text(&self) -> FaultText<'_>
        ensures exact { result.exact ≡ cause_text (λ name. name) self.now }
        ensures shown { result.shown ≡ cause_text utf8_lossy self.now }
    {
        match self {
            Cause::Syntax(cause) => cause.text(),
            Cause::EmptyPath => FaultText::fixed("empty path"),
            Cause::BadDepth => FaultText::fixed("invalid pool depth"),
            Cause::DuplicateRule(name) => quoted("duplicate rule '", name),
            Cause::DuplicatePool(name) => quoted("duplicate pool '", name),
            Cause::VersionTooNew(version) => {
                naming("ninja_required_version ", version, IS_NEWER)
            }
            Cause::Missing(path) => quoted("cannot find '", path),
            Cause::PathNotText => FaultText::fixed("path is not UTF-8"),
            Cause::TooDeep => FaultText::fixed(TOO_DEEP_TEXT),
            Cause::TooManyOpenings => FaultText::fixed(TOO_MANY_OPENINGS_TEXT),
            Cause::Io(path) => quoted("cannot read '", path),
            Cause::UnknownRule(name) => quoted("unknown build rule '", name),
            Cause::TwoMakers(path) => naming("multiple rules generate ", path, ""),
            Cause::UnknownTarget(path) => quoted("unknown target '", path),
            Cause::RuleVariableCycle(key) => quoted("cycle in rule variables at '", key),
            Cause::UnknownPool(name) => quoted("unknown pool name '", name),
            Cause::DyndepNotInput(path) => naming("dyndep '", path, "' is not an input"),
            Cause::DyndepNoStatement(path, file) => {
                let (path, file) = (path.as_bytes(), file.as_bytes());
                FaultText::naming_two("'", path, "' not mentioned in its dyndep file '", file, "'")
            }
            Cause::DyndepTwice(path) => quoted("multiple statements for '", path),
            Cause::DyndepExtra(path) => {
                naming("'", path, "' has no dyndep binding for this file")
            }
            Cause::Cycle(path) => quoted("dependency cycle through '", path),
            Cause::NoOutEdge(path) => naming("'", path, "' has no out edge"),
            Cause::TextNotUtf8 => FaultText::fixed("text is not UTF-8"),
            Cause::OutOfMemory => FaultText::fixed(OUT_OF_MEMORY_TEXT),
        }
    }
}

// A name between two fixed texts.
fn naming<'a>(before: &'static str, name: &'a Name, after: &'static str) -> FaultText<'a>
    ensures exact { result.exact ≡ before.now ++ name.now ++ after.now }
    ensures shown { result.shown ≡ before.now ++ utf8_lossy name.now ++ after.now }
{
    FaultText::naming(before, name.as_bytes(), after)
}

// A name after a fixed text that ends in a quote, with the quote that closes it.
fn quoted<'a>(before: &'static str, name: &'a Name) -> FaultText<'a>
    ensures exact { result.exact ≡ before.now ++ name.now ++ codes "'" }
    ensures shown { result.shown ≡ before.now ++ utf8_lossy name.now ++ codes "'" }
{
    naming(before, name, "'")
}

/// U+FFFD replaces invalid UTF-8.
impl fmt::Display for Name {
    ghost output = { λ name. Some (utf8_lossy name) };

    fn fmt<W: fmt::Write>(&self, f: &mut fmt::Formatter<W>) -> fmt::Result {
        let name = Lossy(self.as_bytes());
        write!(f, "{name}")
    }
}

/// `FILE:LINE:COLUMN`, with U+FFFD for invalid UTF-8 in the file's name.
impl fmt::Display for Place {
    ghost output = { λ place. Some (shown_place place) };

    fn fmt<W: fmt::Write>(&self, f: &mut fmt::Formatter<W>) -> fmt::Result {
        let Place { file, spot } = self;
        write!(f, "{file}:{spot}")
    }
}

/// The text of the cause, without a place, with U+FFFD for invalid UTF-8 in names.
impl fmt::Display for Cause {
    ghost output = { λ cause. Some (cause_text utf8_lossy cause) };

    fn fmt<W: fmt::Write>(&self, f: &mut fmt::Formatter<W>) -> fmt::Result {
        let text = self.text();
        write!(f, "{text}")
    }
}

/// `FILE:LINE:COLUMN: TEXT`, or `TEXT` where the fault has no place. In names U+FFFD replaces
/// invalid UTF-8; [`GraphFault::bare_line`] has them verbatim.
impl fmt::Display for GraphFault {
    ghost output = { λ fault. Some (shown_line fault) };

    fn fmt<W: fmt::Write>(&self, f: &mut fmt::Formatter<W>) -> fmt::Result {
        let cause = &self.cause;
        match &self.place {
            Some(place) => write!(f, "{place}: {cause}"),
            None => write!(f, "{cause}"),
        }
    }
}

impl Error for GraphFault {}
