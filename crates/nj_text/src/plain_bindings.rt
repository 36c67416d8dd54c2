//! Plain bindings: `NAME = VALUE` with a value of one run of bytes, as nearly all lines of blocks
//! are.

ghost use Rattle.std.specs.Prelude.{IfSome, ◌≡◌, ◌∷◌};
ghost use Rattle.nj_text.specs.Cited.{word_model, Between, TakesBinding, advance, inside, lines_at, lines_within};

use crate::cursor::Cursor;
use crate::runs::{Run, first_byte};
use crate::spot::Spot;
use crate::word::Word;
use std::alloc::Global;

/// A line `NAME = VALUE`, whose value is one run of bytes.
#[derive(Debug, Drop)]
pub struct PlainBinding<'a> {
    /// The place of the name.
    pub spot: Spot,
    pub name: &'a [u8],
    pub value: Word<'a>,
}

/// The cursor after ` = `, if that comes next.
#[inline(always)]
fn past_equals(cursor: Cursor<'_>) -> Option<Cursor<'_>>
    ensures rest { IfSome result
        (λ after. cursor.entry.rest.now ≡ 32 ∷ 61 ∷ 32 ∷ after.rest.now) }
    ensures spot { IfSome result (λ after. after.spot ≡ advance 3 cursor.entry.spot) }
{
    let [b' ', b'=', b' ', ..] = cursor.rest else {
        return None;
    };
    Some(cursor.advance(3))
}

/// The plain binding that comes next, with one space on each side of the `=`, and the cursor after
/// its line feed; `None` proves nothing about the line.
#[inline(always)]
pub fn plain_binding<'a>(alloc: Global, start: Cursor<'a>) -> Option<(PlainBinding<'a>, Cursor<'a>)>
    ensures { IfSome result (λ found. TakesBinding
        (inside (lines_within start.entry.spot start.entry.rest.now)) (Between (lines_at found.1))
        found.0.spot found.0.name.now (word_model found.0.value)) }
{
    let (name, equals) = start.run(Run::Identifier);
    if name.is_empty() {
        return None;
    }
    let Some(text) = past_equals(equals) else {
        return None;
    };
    let (value, end) = text.run(Run::Value);
    let Some((first, _)) = first_byte(value) else {
        return None;
    };
    if first == b' ' {
        return None;
    }
    let Some((b'\n', _)) = first_byte(end.rest) else {
        return None;
    };
    let after = end.on_next_line(1, 0);
    let value = Word::plain(alloc, text.spot, value);
    let spot = start.spot;
    Some((PlainBinding { spot, name, value }, after))
}
