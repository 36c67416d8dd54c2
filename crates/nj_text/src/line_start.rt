//! The kinds of line starts, and how lines begin.

ghost use Rattle.std.specs.Prelude.{IfSome, ◌≡◌, ◌<◌, false, length, MatchOption};
ghost use Rattle.nj_text.specs.Cited.{opens_comment, begins_with_space_byte, without_comments, lines_at, BegunIs, BegunAfterSpaces};

use crate::cursor::Cursor;
use crate::fault::UnitFault;
use crate::runs::{Run, first_byte};
use crate::state::State;
use crate::unit::{NextUnit, next_unit};

/// The start of a line ("Lexical syntax" in the Ninja manual).
#[derive(Clone, Copy, Debug, PartialEq, Eq)]
pub enum LineStart {
    /// The end of the text.
    End,
    /// A line with nothing but spaces, which was skipped.
    Blank,
    /// A line that begins with spaces, which were skipped: a line of the block above it.
    Indented,
    /// A line that begins with something else.
    Plain,
    /// No line begins here: the last line was begun and has not ended.
    Middle,
}

/// How a line begins.
#[derive(Clone, Copy)]
pub enum Begun<'a> {
    /// In this way, with the state and the cursor after that.
    Start(LineStart, State<'a>, Cursor<'a>),
    /// With a fault.
    Fault(UnitFault),
}

/// Returns the cursor after the comment that comes next and its line end, or `None`.
fn past_comment(cursor: Cursor<'_>) -> Option<Cursor<'_>>
    ensures comment { MatchOption result (opens_comment cursor.entry.rest.now ≡ false)
        (λ after. without_comments (lines_at cursor.entry) ≡ without_comments (lines_at after)) }
    ensures shorter { IfSome result
        (λ after. length after.rest.now < length cursor.entry.rest.now) }
{
    let (_, remainder) = cursor.run(Run::Spaces);
    let Some((b'#', _)) = first_byte(remainder.rest) else {
        return None;
    };
    let (_, end) = cursor.run(Run::Comment);
    if end.rest.is_empty() {
        return Some(end);
    }
    Some(end.on_next_line(1, 0))
}

/// How a line with neither leading spaces nor a comment begins.
fn begin_at_once(cursor: Cursor<'_>) -> Begun<'_>
    requires no_comment { opens_comment cursor.rest.now ≡ false }
    requires no_space { begins_with_space_byte cursor.rest.now ≡ false }
    ensures { BegunIs (lines_at cursor.entry) result }
{
    match next_unit(cursor.rest) {
        NextUnit::End => Begun::Start(LineStart::End, State::Between, cursor),
        NextUnit::LineEnd(length) => {
            let after = cursor.on_next_line(length, 0);
            Begun::Start(LineStart::Blank, State::Between, after)
        }
        NextUnit::Join(length, spaces) => {
            let state = State::OpeningJoin(cursor.spot, &cursor.rest[..length]);
            let after = cursor.on_next_line(length - spaces, spaces);
            Begun::Start(LineStart::Plain, state, after)
        }
        NextUnit::Ordinary(byte) => {
            if byte == b'\t' {
                return Begun::Fault(UnitFault::Tab(cursor.spot));
            }
            Begun::Start(LineStart::Plain, State::Inside, cursor)
        }
        NextUnit::Escape(_) => Begun::Start(LineStart::Plain, State::Inside, cursor),
        NextUnit::Reference(_, _) => Begun::Start(LineStart::Plain, State::Inside, cursor),
        NextUnit::BadByte => Begun::Start(LineStart::Plain, State::Inside, cursor),
        NextUnit::BadEscape => Begun::Start(LineStart::Plain, State::Inside, cursor),
    }
}

/// How a line begins, after its leading spaces.
fn begin_after_spaces(cursor: Cursor<'_>) -> Begun<'_>
    requires { begins_with_space_byte cursor.rest.now ≡ false }
    ensures { BegunAfterSpaces cursor.entry result }
{
    match next_unit(cursor.rest) {
        NextUnit::End => Begun::Start(LineStart::Blank, State::Between, cursor),
        NextUnit::LineEnd(length) => {
            let after = cursor.on_next_line(length, 0);
            Begun::Start(LineStart::Blank, State::Between, after)
        }
        NextUnit::Ordinary(byte) => {
            if byte == b'\t' {
                return Begun::Fault(UnitFault::Tab(cursor.spot));
            }
            Begun::Start(LineStart::Indented, State::Inside, cursor)
        }
        NextUnit::Join(_, _) => Begun::Start(LineStart::Indented, State::Inside, cursor),
        NextUnit::Escape(_) => Begun::Start(LineStart::Indented, State::Inside, cursor),
        NextUnit::Reference(_, _) => Begun::Start(LineStart::Indented, State::Inside, cursor),
        NextUnit::BadByte => Begun::Start(LineStart::Indented, State::Inside, cursor),
        NextUnit::BadEscape => Begun::Start(LineStart::Indented, State::Inside, cursor),
    }
}

/// How the next line begins, which is not a comment.
fn begin_text_line(cursor: Cursor<'_>) -> Begun<'_>
    requires { opens_comment cursor.rest.now ≡ false }
    ensures { BegunIs (lines_at cursor.entry) result }
{
    let (spaces, remainder) = cursor.run(Run::Spaces);
    if spaces.is_empty() {
        return begin_at_once(cursor);
    }
    begin_after_spaces(remainder)
}

/// How the next line that is not a comment begins.
pub fn begin_line(start: Cursor<'_>) -> Begun<'_>
    ensures { BegunIs (without_comments (lines_at start.entry)) result }
{
    let mut cursor = start;
    'comments: loop {
        let Some(after) = past_comment(cursor) else {
            return begin_text_line(cursor);
        };
        cursor = after;
    }
}
