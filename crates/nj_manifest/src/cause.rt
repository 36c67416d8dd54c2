//! The causes of syntax faults, without their places.

ghost use Rattle.std.specs.Prelude.{◌≡◌, Ok, Some, IfOk};
ghost use Rattle.nj_manifest.specs.Cited.{utf8_lossy, named_by, syntax_text, wanted_text};

use crate::fault_text::FaultText;
use nj_text::{BAD_BYTE_TEXT, BAD_ESCAPE_TEXT, TAB_TEXT};
use std::alloc::AllocError;
use std::convert::AsSlice;
use std::fmt;

/// An element that a fault expects at its place, by its text.
#[derive(Clone, Copy, Debug, PartialEq, Eq)]
pub enum Wanted {
    /// A statement's first identifier, at a line's start.
    Statement,
    /// The name after `rule`.
    RuleName,
    /// The name after `pool`.
    PoolName,
    /// An output after `build`, or the file after `include` or `subninja`.
    Path,
    /// The `:` after the outputs.
    Colon,
    /// The rule's name after the `:`.
    CommandName,
    /// A target after `default`.
    TargetName,
    /// The identifier of a block line.
    VariableName,
    /// The `=` after the identifier of a binding or a block line.
    Equals,
    /// The end of the line.
    Newline,
}

impl Wanted {
    /// The fixed text for the wanted element.
    pub fn text(self) -> &'static str
        ensures { result.now ≡ wanted_text self }
    {
        match self {
            Wanted::Statement => "statement",
            Wanted::RuleName => "rule name",
            Wanted::PoolName => "pool name",
            Wanted::Path => "path",
            Wanted::Colon => "':'",
            Wanted::CommandName => "build command name",
            Wanted::TargetName => "target name",
            Wanted::VariableName => "variable name",
            Wanted::Equals => "'='",
            Wanted::Newline => "newline",
        }
    }
}

/// The cause of a syntax fault, over the type of the name that it may hold.
#[derive(Clone, Copy, Debug, PartialEq, Eq, Drop)]
pub enum SyntaxCause<N> {
    /// A NUL, or a carriage return that no line feed follows, outside comments ("Lexical syntax").
    BadByte,
    /// A tab as the first byte after a line's leading spaces.
    Tab,
    /// A `$` that begins neither a join, nor an escape, nor a reference.
    BadEscape,
    /// Another element was found in place of the wanted one.
    Expected(Wanted),
    /// An indented line that belongs to no block, at its column 1.
    UnexpectedIndent,
    /// A rule without `command`, at its statement.
    MissingCommand,
    /// A rule with only one of `rspfile` and `rspfile_content`, at its statement.
    RspPair,
    /// A key that its block may not have.
    UnknownKey(N),
    /// A pool without `depth`, at its statement.
    MissingDepth,
    /// A dyndep file that does not begin with its version, at its first statement or its end.
    DyndepVersion,
    /// A statement of a dyndep file that is not a dyndep statement, at the first unit that departs
    /// from its form.
    DyndepShape,
}

impl<N> SyntaxCause<N> {
    /// The same cause, with a name made from its name.
    ///
    /// # Errors
    ///
    /// Memory for the name ran out.
    pub fn try_map<M, F: FnOnce(N) -> Result<M, AllocError> + Drop>(
        self,
        make: F,
    ) -> Result<SyntaxCause<M>, AllocError>
        requires { F.IsAlwaysCallable make }
        ensures { (named : N → M)
            → ((name : N) (made : M) → F.post make name (Ok made) → made ≡ named name)
            → IfOk result (λ cause. cause ≡ named_by named self) }
    {
        Ok(match self {
            SyntaxCause::BadByte => SyntaxCause::BadByte,
            SyntaxCause::Tab => SyntaxCause::Tab,
            SyntaxCause::BadEscape => SyntaxCause::BadEscape,
            SyntaxCause::Expected(wanted) => SyntaxCause::Expected(wanted),
            SyntaxCause::UnexpectedIndent => SyntaxCause::UnexpectedIndent,
            SyntaxCause::MissingCommand => SyntaxCause::MissingCommand,
            SyntaxCause::RspPair => SyntaxCause::RspPair,
            SyntaxCause::UnknownKey(key) => SyntaxCause::UnknownKey(make(key)?),
            SyntaxCause::MissingDepth => SyntaxCause::MissingDepth,
            SyntaxCause::DyndepVersion => SyntaxCause::DyndepVersion,
            SyntaxCause::DyndepShape => SyntaxCause::DyndepShape,
        })
    }
}

impl<N: AsSlice<u8>> SyntaxCause<N> {
    /// The text of a fault of this cause, without its place.
    pub fn text(&self) -> FaultText<'_>
        ensures exact { result.exact ≡ syntax_text N.items self.now }
        ensures shown { result.shown ≡ syntax_text (λ name. utf8_lossy (N.items name)) self.now }
    {
        match self {
            SyntaxCause::BadByte => FaultText::fixed(BAD_BYTE_TEXT),
            SyntaxCause::Tab => FaultText::fixed(TAB_TEXT),
            SyntaxCause::BadEscape => FaultText::fixed(BAD_ESCAPE_TEXT),
            SyntaxCause::Expected(wanted) => FaultText::pair("expected ", wanted.text()),
            SyntaxCause::UnexpectedIndent => FaultText::fixed("unexpected indent"),
            SyntaxCause::MissingCommand => FaultText::fixed("expected 'command =' line"),
            SyntaxCause::RspPair => {
                FaultText::fixed("rspfile and rspfile_content need to be both specified")
            }
            SyntaxCause::UnknownKey(key) => {
                FaultText::naming("unexpected variable '", key.as_slice(), "'")
            }
            SyntaxCause::MissingDepth => FaultText::fixed("expected 'depth =' line"),
            SyntaxCause::DyndepVersion => FaultText::fixed("expected 'ninja_dyndep_version = 1'"),
            SyntaxCause::DyndepShape => FaultText::fixed("not a dyndep statement"),
        }
    }
}

/// The text of the cause, without a place. In a name U+FFFD replaces invalid UTF-8.
impl<N: AsSlice<u8>> fmt::Display for SyntaxCause<N> {
    ghost output = { λ cause. Some (syntax_text (λ name. utf8_lossy (N.items name)) cause) };

    fn fmt<W: fmt::Write>(&self, f: &mut fmt::Formatter<W>) -> fmt::Result {
        let text = self.text();
        write!(f, "{text}")
    }
}
