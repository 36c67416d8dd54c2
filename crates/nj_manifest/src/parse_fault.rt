//! Why a text is not a list of statements.

ghost use Rattle.std.specs.Prelude.{◌≡◌, Some, option_map};
ghost use Rattle.nj_manifest.specs.Cited.{fault_text, named_by, place_of, shown_fault, syntax_cause, OutOfMemory, Lex};

use crate::cause::{SyntaxCause, Wanted};
use nj_text::{LexFault, OUT_OF_MEMORY_TEXT, Spot};
use std::alloc::{AllocError, AllocFailed};
use std::error::Error;
use std::fmt;

/// Why the statements of a text could not be read further. Unless stated otherwise, the place is
/// that of the unit at which no statement continues.
#[derive(Clone, Copy, Debug, PartialEq, Eq)]
pub enum ParseFault<'a> {
    /// A bad unit, or out of memory.
    Lex(LexFault),
    /// Another element was found in place of the wanted one.
    Expected(Spot, Wanted),
    /// An indented line that belongs to no block; the place is column 1 of that line.
    UnexpectedIndent(Spot),
    /// A rule without `command`; the place is the statement's.
    MissingCommand(Spot),
    /// A rule with only one of `rspfile` and `rspfile_content`; the place is the statement's.
    RspPair(Spot),
    /// A key that the block may not have, at its place.
    UnknownKey(Spot, &'a [u8]),
    /// A pool without `depth`; the place is the statement's.
    MissingDepth(Spot),
    /// A dyndep file that does not begin with its version; the place is that of the first
    /// statement, or the end of the text.
    DyndepVersion(Spot),
    /// A statement of a dyndep file that is not a dyndep statement, at the first unit that departs
    /// from its form.
    DyndepShape(Spot),
}

impl<'a> ParseFault<'a> {
    /// The place of the fault; `None` if an allocation failed.
    pub fn spot(self) -> Option<Spot>
        ensures { result ≡ place_of (fault_text self.entry) }
    {
        match self {
            ParseFault::Lex(fault) => fault.spot(),
            ParseFault::Expected(spot, _) => Some(spot),
            ParseFault::UnexpectedIndent(spot) => Some(spot),
            ParseFault::MissingCommand(spot) => Some(spot),
            ParseFault::RspPair(spot) => Some(spot),
            ParseFault::UnknownKey(spot, _) => Some(spot),
            ParseFault::MissingDepth(spot) => Some(spot),
            ParseFault::DyndepVersion(spot) => Some(spot),
            ParseFault::DyndepShape(spot) => Some(spot),
        }
    }

    /// The cause of the fault; `None` if an allocation failed.
    pub fn cause(self) -> Option<SyntaxCause<&'a [u8]>>
        ensures { option_map (named_by (λ key. key.now)) result ≡ syntax_cause (fault_text self.entry) }
    {
        Some(match self {
            ParseFault::Lex(LexFault::BadByte(_)) => SyntaxCause::BadByte,
            ParseFault::Lex(LexFault::Tab(_)) => SyntaxCause::Tab,
            ParseFault::Lex(LexFault::BadEscape(_)) => SyntaxCause::BadEscape,
            ParseFault::Lex(LexFault::OutOfMemory) => return None,
            ParseFault::Expected(_, wanted) => SyntaxCause::Expected(wanted),
            ParseFault::UnexpectedIndent(_) => SyntaxCause::UnexpectedIndent,
            ParseFault::MissingCommand(_) => SyntaxCause::MissingCommand,
            ParseFault::RspPair(_) => SyntaxCause::RspPair,
            ParseFault::UnknownKey(_, key) => SyntaxCause::UnknownKey(key),
            ParseFault::MissingDepth(_) => SyntaxCause::MissingDepth,
            ParseFault::DyndepVersion(_) => SyntaxCause::DyndepVersion,
            ParseFault::DyndepShape(_) => SyntaxCause::DyndepShape,
        })
    }
}

/// `LINE:COLUMN: TEXT`, or `TEXT` for lack of memory. In a name U+FFFD replaces invalid UTF-8.
impl fmt::Display for ParseFault<'_> {
    ghost output = { λ fault. Some (shown_fault (fault_text fault)) };

    #[tactic(auto, using(crate::proofs::NamedCauses::named_text, crate::proofs::Placeless::placeless))]
    fn fmt<W: fmt::Write>(&self, f: &mut fmt::Formatter<W>) -> fmt::Result {
        let fault = *self;
        match fault.cause() {
            Some(cause) => match fault.spot() {
                Some(spot) => write!(f, "{spot}: {cause}"),
                None => write!(f, "{cause}"),
            },
            None => f.write_str(OUT_OF_MEMORY_TEXT),
        }
    }
}

impl Error for ParseFault<'_> {}

impl From<LexFault> for ParseFault<'_> {
    ghost from_gives = { λ f e. e ≡ Lex f };

    fn from(fault: LexFault) -> Self {
        ParseFault::Lex(fault)
    }
}

impl From<AllocError> for ParseFault<'_> {
    ghost from_gives = { λ _ e. e ≡ Lex OutOfMemory };

    fn from(_e: AllocError) -> Self {
        ParseFault::Lex(LexFault::OutOfMemory)
    }
}

impl<T: Drop> From<AllocFailed<T>> for ParseFault<'_> {
    ghost from_gives = { λ _ e. e ≡ Lex OutOfMemory };

    fn from(_e: AllocFailed<T>) -> Self {
        ParseFault::Lex(LexFault::OutOfMemory)
    }
}
