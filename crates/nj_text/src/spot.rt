//! Places in a text.

ghost use Rattle.std.specs.Prelude.{Some};
ghost use Rattle.nj_text.specs.Cited.{spot_text};

use std::fmt;

/// A place in a text: the line and the column of a byte, both from 1. A column counts bytes.
#[derive(Clone, Copy, Debug, PartialEq, Eq)]
pub struct Spot {
    /// One more than the number of line feeds before the byte.
    pub line: usize,
    /// One more than the number of bytes between the line's start and the byte.
    pub column: usize,
}

impl fmt::Display for Spot {
    ghost output = { λ spot. Some (spot_text spot) };

    fn fmt<W: fmt::Write>(&self, f: &mut fmt::Formatter<W>) -> fmt::Result {
        let Spot { line, column } = *self;
        write!(f, "{line}:{column}")
    }
}
