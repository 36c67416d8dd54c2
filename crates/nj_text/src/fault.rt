//! Why a text could not be read further.

ghost use Rattle.nj_text.specs.declared.fault.WordFault.TheVariants.{OutOfMemory};
ghost use Rattle.std.specs.Prelude.{◌≡◌, Some};
ghost use Rattle.nj_text.specs.Cited.{option_map, fault_spot, unit_of, lex_line, lex_text};

use crate::spot::Spot;
use std::alloc::{AllocError, AllocFailed};
use std::error::Error;
use std::fmt;

/// The text of a NUL, or a carriage return that no line feed follows, outside comments.
pub const BAD_BYTE_TEXT: &str = "unexpected byte";

/// The text of a tab as the first byte after a line's leading spaces.
pub const TAB_TEXT: &str = "tabs are not allowed, use spaces";

/// The text of a `$` that begins neither a join, nor an escape, nor a reference.
pub const BAD_ESCAPE_TEXT: &str = "bad $-escape (literal $ must be written as $$)";

/// The text of every fault that says that an allocation failed.
pub const OUT_OF_MEMORY_TEXT: &str = "out of memory";

/// Why a text could not be read further. Places are of the first byte of the bad unit.
#[derive(Clone, Copy, Debug, PartialEq, Eq)]
pub enum LexFault {
    /// A NUL, or a carriage return that no line feed follows, outside comments.
    BadByte(Spot),
    /// A tab as the first byte after a line's leading spaces.
    Tab(Spot),
    /// A `$` that begins neither a join, nor an escape, nor a reference.
    BadEscape(Spot),
    /// Out of memory, which has no place in the text.
    OutOfMemory,
}

impl LexFault {
    /// The place of the bad unit; `None` if an allocation failed.
    pub fn spot(self) -> Option<Spot>
        ensures { result ≡ option_map fault_spot (unit_of self) }
    {
        match self {
            LexFault::BadByte(spot) => Some(spot),
            LexFault::Tab(spot) => Some(spot),
            LexFault::BadEscape(spot) => Some(spot),
            LexFault::OutOfMemory => None,
        }
    }

    /// The text of the fault, without its place.
    pub fn text(self) -> &'static str
        ensures { result.now ≡ lex_text self }
    {
        match self {
            LexFault::BadByte(_) => BAD_BYTE_TEXT,
            LexFault::Tab(_) => TAB_TEXT,
            LexFault::BadEscape(_) => BAD_ESCAPE_TEXT,
            LexFault::OutOfMemory => OUT_OF_MEMORY_TEXT,
        }
    }
}

/// `LINE:COLUMN: TEXT`, or `TEXT` for lack of memory.
impl fmt::Display for LexFault {
    ghost output = { λ fault. Some (lex_line fault) };

    fn fmt<W: fmt::Write>(&self, f: &mut fmt::Formatter<W>) -> fmt::Result {
        let fault = *self;
        let text = fault.text();
        match fault.spot() {
            Some(spot) => write!(f, "{spot}: {text}"),
            None => f.write_str(text),
        }
    }
}

impl Error for LexFault {}

/// A bad unit of a text, with the place of its first byte.
#[derive(Clone, Copy)]
pub enum UnitFault {
    /// As [`LexFault::BadByte`].
    BadByte(Spot),
    /// As [`LexFault::Tab`].
    Tab(Spot),
    /// As [`LexFault::BadEscape`].
    BadEscape(Spot),
}

impl UnitFault {
    /// The place of the unit's first byte.
    pub fn spot(self) -> Spot
        ensures { result ≡ fault_spot self }
    {
        match self {
            UnitFault::BadByte(spot) => spot,
            UnitFault::Tab(spot) => spot,
            UnitFault::BadEscape(spot) => spot,
        }
    }

    /// The unit as a fault of the text.
    pub fn reported(self) -> LexFault
        ensures { unit_of result ≡ Some self }
    {
        match self {
            UnitFault::BadByte(spot) => LexFault::BadByte(spot),
            UnitFault::Tab(spot) => LexFault::Tab(spot),
            UnitFault::BadEscape(spot) => LexFault::BadEscape(spot),
        }
    }
}

/// Why a word or a value could not be read.
pub enum WordFault {
    /// A bad unit is in it, or comes next.
    Unit(UnitFault),
    /// Out of memory.
    OutOfMemory,
}

impl From<AllocError> for WordFault {
    ghost from_gives = { λ _ e. e ≡ OutOfMemory };

    fn from(_e: AllocError) -> WordFault {
        WordFault::OutOfMemory
    }
}

impl<T: Drop> From<AllocFailed<T>> for WordFault {
    ghost from_gives = { λ _ e. e ≡ OutOfMemory };

    fn from(_e: AllocFailed<T>) -> WordFault {
        WordFault::OutOfMemory
    }
}
