//! The parts of words and values.

ghost use Rattle.std.specs.Prelude.{IfSome, ◌≡◌, ◌<◌, ◌+◌, [], ◌∷◌, ◌++◌, length, map, OnOk, IfErr};
ghost use Rattle.nj_text.specs.declared.fault.WordFault.TheVariants.{OutOfMemory};
ghost use Rattle.nj_text.specs.Cited.{units_within, in_run, begins_with, opens_word, run_of, Gathers, NextPartIs, TakesRun, NoneInRun, IsShorter};

use crate::cursor::Cursor;
use crate::fault::{UnitFault, WordFault};
use crate::runs::{Run, in_run};
use crate::unit::{NextUnit, next_unit};
use crate::word::Part;
use smallvec::SmallVec;
use std::alloc::Global;

/// The capacity for parts that is made at once, after the first.
const RESERVED_PARTS: usize = 7;

/// A text with references.
#[derive(Clone, Copy)]
pub enum TextKind {
    /// A word, which ends at a space, `:`, `|` or the line's end.
    Word,
    /// A value, which ends at the line's end.
    Value,
}

/// The next part of a text.
#[derive(Clone, Copy)]
pub enum NextPart<'a> {
    /// A part of it, and where that ends.
    Part(Part<'a>, Cursor<'a>),
    /// A join, and where that ends.
    Join(Cursor<'a>),
    /// Nothing that belongs to it.
    End,
    /// A unit that does not continue a text.
    Bad(UnitFault),
}

impl TextKind {
    fn run(self) -> Run
        ensures { result ≡ run_of self }
    {
        match self {
            TextKind::Word => Run::Word,
            TextKind::Value => Run::Value,
        }
    }
}

/// The next part of a text that does not begin with an ordinary byte of it.
#[inline(always)]
fn next_part(kind: TextKind, cursor: Cursor<'_>) -> NextPart<'_>
    requires { NoneInRun (in_run (run_of kind)) cursor.rest.now }
    ensures part { NextPartIs kind (units_within cursor.entry.spot cursor.entry.rest.now) result }
    ensures shorter { IsShorter (length cursor.entry.rest.now) result }
{
    match next_unit(cursor.rest) {
        NextUnit::Join(length, spaces) => {
            let after = cursor.on_next_line(length - spaces, spaces);
            NextPart::Join(after)
        }
        NextUnit::Escape(byte) => NextPart::Part(Part::Bytes(byte), cursor.advance(2)),
        NextUnit::Reference(name, length) => {
            let after = cursor.advance(length);
            NextPart::Part(Part::Name(name), after)
        }
        NextUnit::BadByte => NextPart::Bad(UnitFault::BadByte(cursor.spot)),
        NextUnit::BadEscape => NextPart::Bad(UnitFault::BadEscape(cursor.spot)),
        NextUnit::End => NextPart::End,
        NextUnit::Ordinary(_) => NextPart::End,
        NextUnit::LineEnd(_) => NextPart::End,
    }
}

/// Appends a part. Nearly all words have one part; after a second one, more will follow.
#[inline(always)]
fn append<'a>(parts: &mut SmallVec<Part<'a>, 1>, part: Part<'a>) -> Result<(), WordFault>
    ensures items { OnOk result (parts.new.items ≡ parts.old.items ++ part.entry ∷ []) }
    ensures refused { IfErr result (λ f. f ≡ OutOfMemory) }
{
    if parts.len() == 1 {
        parts.reserve(RESERVED_PARTS)?;
    }
    parts.push(part)?;
    Ok(())
}

/// Appends the run of ordinary bytes that comes next, if any, and returns the cursor after it.
#[inline(always)]
fn take_run<'a>(
    parts: &mut SmallVec<Part<'a>, 1>,
    kind: TextKind,
    cursor: Cursor<'a>,
) -> Result<Cursor<'a>, WordFault>
    ensures { TakesRun kind parts.old.items parts.new.items cursor.entry result }
{
    let (bytes, after) = cursor.run(kind.run());
    if bytes.is_empty() {
        return Ok(after);
    }
    append(parts, Part::Bytes(bytes))?;
    Ok(after)
}

/// The parts of the text that comes next, and the cursor after it.
#[inline(always)]
pub fn gather<'a>(
    alloc: Global,
    kind: TextKind,
    start: Cursor<'a>,
) -> Result<(SmallVec<Part<'a>, 1>, Cursor<'a>), WordFault>
    ensures { Gathers kind (units_within start.entry.spot start.entry.rest.now) result }
{
    let mut parts = SmallVec::new(alloc);
    let mut cursor = start;
    'text: loop {
        let remainder = match take_run(&mut parts, kind, cursor) {
            Ok(remainder) => remainder,
            Err(fault) => return Err(fault),
        };
        match next_part(kind, remainder) {
            NextPart::Part(part, after) => {
                append(&mut parts, part)?;
                cursor = after;
            }
            NextPart::Join(after) => cursor = after,
            NextPart::End => return Ok((parts, remainder)),
            NextPart::Bad(fault) => return Err(WordFault::Unit(fault)),
        }
    }
}

/// Whether a word begins.
#[inline(always)]
pub fn begins_word(cursor: Cursor<'_>) -> bool
    ensures { result ≡ begins_with opens_word (units_within cursor.entry.spot cursor.entry.rest.now) }
{
    match next_unit(cursor.rest) {
        NextUnit::Ordinary(byte) => in_run(Run::Word, byte),
        NextUnit::Escape(_) => true,
        NextUnit::Reference(_, _) => true,
        NextUnit::Join(_, _) => false,
        NextUnit::BadByte => false,
        NextUnit::BadEscape => false,
        NextUnit::End => false,
        NextUnit::LineEnd(_) => false,
    }
}
