//! Plain words: one run of bytes each, as nearly all words are.

ghost use Rattle.std.specs.Prelude.{◌≡◌};
ghost use Rattle.nj_text.specs.Cited.{drop_while, is_blank, TakesPlainWord, units_within, inside, lines_within, no_word_begins, word_ends};

use crate::cursor::Cursor;
use crate::runs::{Run, first_byte};
use crate::spot::Spot;

/// The result of [`Lexer::plain_word`].
///
/// [`Lexer::plain_word`]: crate::lexer::Lexer::plain_word
#[derive(Clone, Copy, Debug)]
pub enum PlainWord<'a> {
    /// A word of the given bytes, at the given place.
    Word(Spot, &'a [u8]),
    /// Blanks, after which no word begins.
    NoWord,
    /// Nothing; a word may come next or not.
    Unknown,
}

/// The cursor after the space that comes next, if one does.
#[inline(always)]
fn past_space(cursor: Cursor<'_>) -> Cursor<'_>
    ensures { drop_while is_blank (units_within cursor.entry.spot cursor.entry.rest.now)
        ≡ drop_while is_blank (units_within result.spot result.rest.now) }
{
    let Some((b' ', _)) = first_byte(cursor.rest) else {
        return cursor;
    };
    cursor.advance(1)
}

/// Whether a line feed, a `:` or a `|` comes next, at which no word begins.
#[inline(always)]
fn no_word_begins(bytes: &[u8]) -> bool
    ensures { result ≡ no_word_begins bytes.now }
{
    let Some((byte, _)) = first_byte(bytes) else {
        return false;
    };
    byte == b'\n' || byte == b':' || byte == b'|'
}

/// Whether a space, a line feed, a `:` or a `|` comes next, at which a word ends.
#[inline(always)]
fn word_ends(bytes: &[u8]) -> bool
    ensures { result ≡ word_ends bytes.now }
{
    let Some((byte, _)) = first_byte(bytes) else {
        return false;
    };
    byte == b' ' || byte == b'\n' || byte == b':' || byte == b'|'
}

/// The plain word after at most one space, and the cursor after it.
#[inline(always)]
pub fn plain_word(start: Cursor<'_>) -> (PlainWord<'_>, Cursor<'_>)
    ensures { TakesPlainWord result.0
        (inside (lines_within start.entry.spot start.entry.rest.now))
        (inside (lines_within result.1.spot result.1.rest.now)) }
{
    let cursor = past_space(start);
    if no_word_begins(cursor.rest) {
        return (PlainWord::NoWord, cursor);
    }
    let (bytes, after) = cursor.run(Run::Word);
    if bytes.is_empty() {
        return (PlainWord::Unknown, start);
    }
    if !word_ends(after.rest) {
        return (PlainWord::Unknown, start);
    }
    (PlainWord::Word(cursor.spot, bytes), after)
}
