//! Blanks: spaces and joins.

ghost use Rattle.std.specs.Prelude.{IfSome, ◌≡◌, ◌<◌, false, length, MatchOption};
ghost use Rattle.nj_text.specs.Cited.{drop_while, units_within, begins_with_space_byte, is_blank};

use crate::cursor::Cursor;
use crate::runs::Run;
use crate::unit::{NextUnit, next_unit};

/// Returns the cursor after the join that comes next, or `None`.
#[inline(always)]
fn past_join(cursor: Cursor<'_>) -> Option<Cursor<'_>>
    ensures blanks { MatchOption result
        (begins_with_space_byte cursor.entry.rest.now ≡ false
        → drop_while is_blank (units_within cursor.entry.spot cursor.entry.rest.now)
        ≡ units_within cursor.entry.spot cursor.entry.rest.now)
        (λ after. drop_while is_blank (units_within cursor.entry.spot cursor.entry.rest.now)
        ≡ drop_while is_blank (units_within after.spot after.rest.now)) }
    ensures shorter { IfSome result
        (λ after. length after.rest.now < length cursor.entry.rest.now) }
{
    match next_unit(cursor.rest) {
        NextUnit::Join(length, spaces) => Some(cursor.on_next_line(length - spaces, spaces)),
        NextUnit::End => None,
        NextUnit::Ordinary(_) => None,
        NextUnit::Escape(_) => None,
        NextUnit::Reference(_, _) => None,
        NextUnit::LineEnd(_) => None,
        NextUnit::BadByte => None,
        NextUnit::BadEscape => None,
    }
}

/// The cursor after the blanks that come next.
#[inline(always)]
pub fn skip_blanks(start: Cursor<'_>) -> Cursor<'_>
    ensures { units_within result.spot result.rest.now
        ≡ drop_while is_blank (units_within start.entry.spot start.entry.rest.now) }
{
    let mut cursor = start;
    'blanks: loop {
        let (_, remainder) = cursor.run(Run::Spaces);
        let Some(after) = past_join(remainder) else {
            return remainder;
        };
        cursor = after;
    }
}
