//! The signs of a line.

ghost use Rattle.std.specs.Prelude.{◌≡◌, None};
ghost use Rattle.nj_text.specs.Cited.{units_within, next_fault, is_first, sign_length, after_blanks, sign_at, EndsLine, SignIs, unless_bad, line_at, other_lines_at};

use crate::blanks::skip_blanks;
use crate::cursor::Cursor;
use crate::fault::UnitFault;
use crate::runs::first_byte;
use crate::unit::{NextUnit, bad_unit, next_unit};

/// A sign between the parts of a line. Of `|`, `||` and `|@` the longest match wins.
#[derive(Clone, Copy, Debug, PartialEq, Eq)]
pub enum Sign {
    /// `:`
    Colon,
    /// `=`
    Equals,
    /// `|`
    Pipe,
    /// `||`
    Pipe2,
    /// `|@`
    PipeAt,
    /// A line end, or the end of the text.
    LineEnd,
}

/// Returns the cursor after the line end that comes next, or `None`. The end of the text ends its
/// line, and is not passed.
#[inline(always)]
pub fn past_line_end(cursor: Cursor<'_>) -> Option<Cursor<'_>>
    ensures { EndsLine cursor.entry result }
{
    match next_unit(cursor.rest) {
        NextUnit::LineEnd(length) => Some(cursor.on_next_line(length, 0)),
        NextUnit::End => Some(cursor),
        NextUnit::Ordinary(_) => None,
        NextUnit::Join(_, _) => None,
        NextUnit::Escape(_) => None,
        NextUnit::Reference(_, _) => None,
        NextUnit::BadByte => None,
        NextUnit::BadEscape => None,
    }
}

#[inline(always)]
fn begins_with(byte: u8, bytes: &[u8]) -> bool
    ensures { result ≡ is_first byte bytes.now }
{
    match first_byte(bytes) {
        Some((first, _)) => first == byte,
        None => false,
    }
}

/// The length of the sign, which is not a line end, if it comes next; else 0.
#[inline(always)]
pub fn sign_length(want: Sign, bytes: &[u8]) -> usize
    ensures { result ≡ sign_length want bytes.now }
{
    let Some((first, remainder)) = first_byte(bytes) else {
        return 0;
    };
    let is_pipe = first == b'|';
    match want {
        Sign::Colon => usize::from(first == b':'),
        Sign::Equals => usize::from(first == b'='),
        Sign::Pipe => usize::from(
            is_pipe && !begins_with(b'|', remainder) && !begins_with(b'@', remainder),
        ),
        Sign::Pipe2 => 2 * usize::from(is_pipe && begins_with(b'|', remainder)),
        Sign::PipeAt => 2 * usize::from(is_pipe && begins_with(b'@', remainder)),
        Sign::LineEnd => 0,
    }
}

/// Whether a wanted sign was there.
#[derive(Clone, Copy)]
pub enum SignTaken<'a> {
    /// It does not follow the blanks, which end here.
    No(Cursor<'a>),
    /// It was there, and the line continues here.
    InLine(Cursor<'a>),
    /// It ended the line, and the next one begins here.
    LineEnd(Cursor<'a>),
    /// A bad unit follows the blanks.
    Fault(UnitFault),
}

/// Takes the line end that comes next, if any.
#[inline(always)]
fn take_line_end(cursor: Cursor<'_>) -> SignTaken<'_>
    requires { next_fault (units_within cursor.spot cursor.rest.now) ≡ None }
    ensures { SignIs
        (unless_bad (sign_at Sign.LineEnd) (line_at cursor.entry) (other_lines_at cursor.entry))
        result }
{
    let Some(after) = past_line_end(cursor) else {
        return SignTaken::No(cursor);
    };
    SignTaken::LineEnd(after)
}

/// Takes the wanted sign after the blanks, if it is there.
#[inline(always)]
pub fn take_sign(want: Sign, start: Cursor<'_>) -> SignTaken<'_>
    ensures { SignIs
        (unless_bad (sign_at want) (after_blanks (line_at start.entry))
        (other_lines_at start.entry)) result }
{
    let cursor = skip_blanks(start);
    if let Some(fault) = bad_unit(cursor) {
        return SignTaken::Fault(fault);
    }
    if let Sign::LineEnd = want {
        return take_line_end(cursor);
    }
    let length = sign_length(want, cursor.rest);
    if length == 0 {
        return SignTaken::No(cursor);
    }
    SignTaken::InLine(cursor.advance(length))
}
