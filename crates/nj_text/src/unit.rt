//! The next unit of a line.

ghost use Rattle.std.specs.Prelude.{◌≡◌, ◌≤◌, ◌<◌, ◌+◌, ◌∷◌, length};
ghost use Rattle.nj_text.specs.Cited.{next_fault, NextUnitIs, unit_length, HasLength, units_within};

use crate::cursor::Cursor;
use crate::dollar::{Dollar, after_dollar, line_end_length};
use crate::fault::UnitFault;
use crate::runs::{first_byte, is_ordinary_byte};

/// The next unit of a line, and how many bytes it takes where that is not evident.
#[derive(Clone, Copy)]
pub enum NextUnit<'a> {
    /// The end of the text.
    End,
    /// A byte that stands for itself.
    Ordinary(u8),
    /// A join: how many bytes it takes, and how many of them are spaces of the next line.
    Join(usize, usize),
    /// An escape: the byte after its `$`.
    Escape(&'a [u8]),
    /// A reference: its name, and how many bytes it takes.
    Reference(&'a [u8], usize),
    /// A line end: how many bytes it takes.
    LineEnd(usize),
    /// A byte that may not be here.
    BadByte,
    /// A `$` that begins no escape, reference or join.
    BadEscape,
}

/// The unit of a `$` and the bytes after it.
fn dollar_unit(bytes: &[u8]) -> NextUnit<'_>
    ensures unit { NextUnitIs result (36 ∷ bytes.now) }
    ensures within { unit_length result ≤ length bytes.now + 1 }
    ensures joined { HasLength result }
{
    match after_dollar(bytes) {
        Dollar::Join(end, spaces) => NextUnit::Join(1 + end + spaces, spaces),
        Dollar::Escape(_) => NextUnit::Escape(&bytes[..1]),
        Dollar::Reference(name, length) => NextUnit::Reference(name, 1 + length),
        Dollar::Bad => NextUnit::BadEscape,
    }
}

/// The next unit of a line.
#[inline(always)]
pub fn next_unit(bytes: &[u8]) -> NextUnit<'_>
    ensures unit { NextUnitIs result bytes.now }
    ensures within { unit_length result ≤ length bytes.now }
    ensures joined { HasLength result }
{
    let Some((byte, remainder)) = first_byte(bytes) else {
        return NextUnit::End;
    };
    if is_ordinary_byte(byte) {
        return NextUnit::Ordinary(byte);
    }
    if byte == b'$' {
        return dollar_unit(remainder);
    }
    let end = line_end_length(bytes);
    if end == 0 {
        return NextUnit::BadByte;
    }
    NextUnit::LineEnd(end)
}

/// The fault of the unit that comes next, if it is bad.
#[inline(always)]
pub fn bad_unit(cursor: Cursor<'_>) -> Option<UnitFault>
    ensures { result ≡ next_fault (units_within cursor.entry.spot cursor.entry.rest.now) }
{
    match next_unit(cursor.rest) {
        NextUnit::BadByte => Some(UnitFault::BadByte(cursor.spot)),
        NextUnit::BadEscape => Some(UnitFault::BadEscape(cursor.spot)),
        NextUnit::End => None,
        NextUnit::Ordinary(_) => None,
        NextUnit::Join(_, _) => None,
        NextUnit::Escape(_) => None,
        NextUnit::Reference(_, _) => None,
        NextUnit::LineEnd(_) => None,
    }
}
