//! Lines of a build log.

ghost use Rattle.std.specs.Prelude.{◌≡◌, ◌<◌, ◌∷◌, ◌==◌, [], length, option_map, MatchOption};
ghost use Rattle.nj_build_log.specs.Cited.{lines_of, counted_part, line_of, line_model, split_at_first, before_first, after_first, is_line_feed};

use crate::entry::{Entry, LoggedLine};
use crate::numbers::{hash_in, int_in, long_in};
use memchr::memchr;

/// How many bytes Ninja reads at once.
const BUFFER_SIZE: usize = 256 << 10;

/// Returns the first line and the bytes after its line feed, or `None` without a line feed.
pub(crate) fn split_line(text: &[u8]) -> Option<(&[u8], &[u8])>
    ensures { MatchOption result (lines_of text.now ≡ [])
        (λ p. (lines_of text.now ≡ p.0.now ∷ lines_of p.1.now)
        × (length p.1.now < length text.now)) }
{
    split_at_first(b'\n', text)
}

/// The first line, with or without a line feed, and the bytes after it.
pub(crate) fn split_first_line(text: &[u8]) -> (&[u8], &[u8])
    ensures line { result.0.now ≡ before_first is_line_feed text.now }
    ensures after { result.1.now ≡ after_first is_line_feed text.now }
{
    match split_at_first(b'\n', text) {
        Some(split) => split,
        None => (text, &[]),
    }
}

/// Returns the contents of a line, or `None` if it has fewer than four tabs.
pub(crate) fn read_line(line: &[u8]) -> Option<LoggedLine<'_>>
    ensures { option_map line_model result ≡ line_of line.now }
{
    let (start, rest) = split_at_first(b'\t', counted_part(line))?;
    let (end, rest) = split_at_first(b'\t', rest)?;
    let (time, rest) = split_at_first(b'\t', rest)?;
    let (output, hash) = split_at_first(b'\t', rest)?;
    let entry = Entry {
        start: int_in(start),
        end: int_in(end),
        time: long_in(time),
        hash: hash_in(hash),
    };
    Some(LoggedLine { output, entry })
}

// The rest of a line after whole buffers.
fn counted_part(line: &[u8]) -> &[u8]
    ensures { result.now ≡ counted_part line.now }
{
    &line[line.len() / BUFFER_SIZE * BUFFER_SIZE..]
}

// Returns the text before and the text after the first byte with the given value, or `None` if the
// value does not occur.
fn split_at_first(value: u8, text: &[u8]) -> Option<(&[u8], &[u8])>
    ensures { option_map (λ p. (p.0.now, p.1.now)) result
        ≡ split_at_first (λ byte. byte == value) text.now }
{
    match memchr(value, text) {
        Some(end) => Some((&text[..end], &text[end + 1..])),
        None => None,
    }
}
