//! A position in a text.

ghost use Rattle.std.specs.Prelude.{◌≡◌, ◌≤◌, ◌<◌, ◌+◌, ◌^◌, length, drop};

use crate::runs::{Run, split_run};
use crate::spot::Spot;

/// The bytes that are left of a text, and the place of the first of them.
#[derive(Clone, Copy)]
pub struct Cursor<'a> {
    pub rest: &'a [u8],
    pub spot: Spot,
    ghost line_fits: { spot.line + length rest.now < 2 ^ 64 },
    ghost column_fits: { spot.column + length rest.now < 2 ^ 64 },
}

impl<'a> Cursor<'a> {
    ghost use Rattle.std.specs.Prelude.{◌≡◌, ◌≤◌, ◌<◌, ◌+◌, ◌++◌, ℕ, length, drop};
    ghost use Rattle.std.specs.List.{take_while};
    ghost use Rattle.nj_text.specs.Bytes.{drop_while};
    ghost use Rattle.nj_text.specs.Inside.Runs.{in_run};
    ghost use Rattle.nj_text.specs.Units.{first_spot};
    ghost use Rattle.nj_text.specs.Inside.Scans.{advance, on_next_line};

    /// Before the first byte of a text.
    pub fn at_front(text: &'a [u8]) -> Cursor<'a>
        ensures rest { result.rest.now ≡ text.now }
        ensures spot { result.spot ≡ first_spot }
    {
        Cursor {
            rest: text,
            spot: Spot { line: 1, column: 1 },
        }
    }

    /// The cursor after `count` bytes without a line feed.
    pub fn advance(self, count: usize) -> Cursor<'a>
        requires { count ≤ length self.rest.now }
        ensures rest { result.rest.now ≡ drop count self.entry.rest.now }
        ensures spot { result.spot ≡ advance count self.entry.spot }
    {
        Cursor {
            rest: &self.rest[count..],
            spot: Spot {
                line: self.spot.line,
                column: self.spot.column + count,
            },
        }
    }

    /// The cursor after `end` bytes that end the line and `spaces` spaces on the next.
    pub fn on_next_line(self, end: usize, spaces: usize) -> Cursor<'a>
        requires some { 0 < end }
        requires within { end + spaces ≤ length self.rest.now }
        ensures rest { result.rest.now ≡ drop (end + spaces) self.entry.rest.now }
        ensures spot { result.spot ≡ on_next_line spaces self.entry.spot }
    {
        Cursor {
            rest: &self.rest[end + spaces..],
            spot: Spot {
                line: self.spot.line + 1,
                column: spaces + 1,
            },
        }
    }

    /// The run of bytes that comes next, which may be empty and has no line feed, and the cursor
    /// after it.
    pub fn run(self, run: Run) -> (&'a [u8], Cursor<'a>)
        ensures run { result.0.now ≡ take_while (in_run run) self.entry.rest.now }
        ensures after { result.1.rest.now ≡ drop_while (in_run run) self.entry.rest.now }
        ensures whole { self.entry.rest.now ≡ result.0.now ++ result.1.rest.now }
        ensures spot { result.1.spot ≡ advance (length result.0.now) self.entry.spot }
    {
        let (text, remainder) = split_run(run, self.rest);
        let after = Cursor {
            rest: remainder,
            spot: Spot {
                line: self.spot.line,
                column: self.spot.column + text.len(),
            },
        };
        (text, after)
    }
}
