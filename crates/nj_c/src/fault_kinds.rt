//! The numbers of faults.

ghost use Rattle.std.specs.Prelude.{◌≡◌};
ghost use Rattle.nj_c.specs.Cited.{kind_of, kind_of_syntax};

use nj_graph::{Cause, Name, SyntaxCause};

/// The number of a cause, which never changes.
pub(crate) fn fault_number(cause: &Cause) -> i32
    ensures { result ≡ kind_of cause.now }
{
    match cause {
        Cause::Syntax(syntax) => syntax_number(syntax),
        Cause::EmptyPath => 12,
        Cause::BadDepth => 13,
        Cause::DuplicateRule(_) => 14,
        Cause::DuplicatePool(_) => 15,
        Cause::VersionTooNew(_) => 16,
        Cause::Missing(_) => 17,
        Cause::PathNotText => 18,
        Cause::TooDeep => 19,
        Cause::TooManyOpenings => 20,
        Cause::Io(_) => 21,
        Cause::UnknownRule(_) => 22,
        Cause::TwoMakers(_) => 23,
        Cause::UnknownTarget(_) => 24,
        Cause::RuleVariableCycle(_) => 25,
        Cause::UnknownPool(_) => 26,
        Cause::DyndepNotInput(_) => 27,
        Cause::DyndepNoStatement(_, _) => 28,
        Cause::DyndepTwice(_) => 29,
        Cause::DyndepExtra(_) => 30,
        Cause::Cycle(_) => 31,
        Cause::NoOutEdge(_) => 32,
        Cause::TextNotUtf8 => 33,
        Cause::OutOfMemory => 34,
    }
}

// The number of the cause of a syntax fault.
fn syntax_number(syntax: &SyntaxCause<Name>) -> i32
    ensures { result ≡ kind_of_syntax syntax.now }
{
    match syntax {
        SyntaxCause::BadByte => 1,
        SyntaxCause::Tab => 2,
        SyntaxCause::BadEscape => 3,
        SyntaxCause::Expected(_) => 4,
        SyntaxCause::UnexpectedIndent => 5,
        SyntaxCause::MissingCommand => 6,
        SyntaxCause::RspPair => 7,
        SyntaxCause::UnknownKey(_) => 8,
        SyntaxCause::MissingDepth => 9,
        SyntaxCause::DyndepVersion => 10,
        SyntaxCause::DyndepShape => 11,
    }
}
