//! Identifiers, words and values within a line.

ghost use Rattle.std.specs.Prelude.{◌≡◌};
ghost use Rattle.nj_text.specs.Cited.{option_map, word_model, after_blanks, ident_at, word_at, value_at, Steps, StepsOrLacksMemory, unless_bad, line_at, other_lines_at};

use crate::blanks::skip_blanks;
use crate::cursor::Cursor;
use crate::fault::{UnitFault, WordFault};
use crate::parts::{TextKind, begins_word, gather};
use crate::runs::Run;
use crate::unit::bad_unit;
use crate::word::Word;
use std::alloc::Global;

/// Returns the identifier after the blanks, or `None`.
#[inline(always)]
pub fn identifier(start: Cursor<'_>) -> Result<(Option<&[u8]>, Cursor<'_>), UnitFault>
    ensures { Steps (option_map (λ bytes. bytes.now))
        (unless_bad ident_at (after_blanks (line_at start.entry)) (other_lines_at start.entry))
        result }
{
    let cursor = skip_blanks(start);
    if let Some(fault) = bad_unit(cursor) {
        return Err(fault);
    }
    let (name, after) = cursor.run(Run::Identifier);
    if name.is_empty() {
        return Ok((None, after));
    }
    Ok((Some(name), after))
}

/// The word after the blanks; `None` if none begins there.
#[inline(always)]
pub fn word<'a>(
    alloc: Global,
    start: Cursor<'a>,
) -> Result<(Option<Word<'a>>, Cursor<'a>), WordFault>
    ensures { StepsOrLacksMemory (option_map word_model)
        (unless_bad word_at (after_blanks (line_at start.entry)) (other_lines_at start.entry))
        result }
{
    let cursor = skip_blanks(start);
    if let Some(fault) = bad_unit(cursor) {
        return Err(WordFault::Unit(fault));
    }
    if !begins_word(cursor) {
        return Ok((None, cursor));
    }
    let spot = cursor.spot;
    match gather(alloc, TextKind::Word, cursor) {
        Ok((parts, after)) => Ok((Some(Word { spot, parts }), after)),
        Err(fault) => Err(fault),
    }
}

/// The value after the blanks, up to the line's end.
#[inline(always)]
pub fn value<'a>(alloc: Global, start: Cursor<'a>) -> Result<(Word<'a>, Cursor<'a>), WordFault>
    ensures { StepsOrLacksMemory word_model
        (value_at (after_blanks (line_at start.entry)) (other_lines_at start.entry)) result }
{
    let cursor = skip_blanks(start);
    let spot = cursor.spot;
    match gather(alloc, TextKind::Value, cursor) {
        Ok((parts, after)) => Ok((Word { spot, parts }, after)),
        Err(fault) => Err(fault),
    }
}
