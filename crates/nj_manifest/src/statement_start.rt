//! Where the next statement begins.

ghost use Rattle.std.specs.Prelude.{◌≡◌};
ghost use Rattle.nj_manifest.specs.Cited.{IsBetweenStatements, FindsOpening};

use crate::parse_fault::ParseFault;
use nj_text::{Lexer, LineStart, Spot};

/// Skips blank lines and comments, and begins the line of the next statement; returns `false` at
/// the end of the text.
pub fn find_statement<'a>(lexer: &mut Lexer<'a>) -> Result<bool, ParseFault<'a>>
    requires { IsBetweenStatements lexer.old }
    ensures { FindsOpening lexer.old lexer.new result }
{
    'lines: loop {
        match lexer.start_line()? {
            LineStart::End => return Ok(false),
            LineStart::Blank => {}
            LineStart::Indented => {
                return Err(ParseFault::UnexpectedIndent(line_front(lexer.spot())));
            }
            LineStart::Plain => return Ok(true),
            LineStart::Middle => return Ok(true),
        }
    }
}

/// The first column of a line.
pub fn line_front(spot: Spot) -> Spot
    ensures { result ≡ record { line = spot.line; column = 1 } }
{
    Spot {
        line: spot.line,
        column: 1,
    }
}
