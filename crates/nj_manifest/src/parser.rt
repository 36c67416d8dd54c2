//! A parser of a Ninja file.

ghost use Rattle.std.specs.Prelude.{◌≡◌, true};
ghost use Rattle.nj_manifest.specs.Statements.{Lines};
ghost use Rattle.nj_manifest.specs.Inside.ParserContracts.{is_between_unless};
ghost use Rattle.nj_manifest.specs.Parsers.{IsNext};
ghost use Rattle.nj_text.specs.Lines.{text_lines};

use crate::next_statement::next_statement;
use crate::parse_fault::ParseFault;
use crate::statement::{Placed, Statement};
use crate::statement_buffers::Buffers;
use nj_text::Lexer;
use std::alloc::Global;
use std::marker::Model;

/// Reads the statements of a Ninja file, one after the other ("Ninja file reference" in the Ninja
/// manual).
///
/// It keeps the text as a slice and copies no part of it; a statement borrows slices of the text.
#[derive(Drop)]
pub struct Parser<'a> {
    lexer: Lexer<'a>,
    refused: Option<ParseFault<'a>>,
    buffers: Buffers<'a>,
    ghost between: { is_between_unless refused lexer ≡ true },
}

impl<'a> Model for Parser<'a> {
    ghost use Rattle.nj_manifest.specs.Statements.{Left};

    ghost Value = { Left };

    ghost use Rattle.nj_manifest.specs.Inside.ParserContracts.{left_of};

    ghost view = { λ parser. left_of parser.refused parser.lexer };
}

impl<'a> Parser<'a> {
    /// A parser at the front of the text.
    pub fn new(text: &'a [u8]) -> Parser<'a>
        ensures { result ≡ Lines (text_lines text.now) }
    {
        Parser {
            lexer: Lexer::new(text),
            refused: None,
            buffers: Buffers::none(),
        }
    }

    /// Returns the next statement with its block, at the place of its first byte; `None` at the end
    /// of the text, and from then on in every call.
    ///
    /// # Errors
    ///
    /// The first fault of the text, or out of memory. Every later call returns the same error.
    pub fn next_statement(
        &mut self,
        alloc: Global,
    ) -> Result<Option<Placed<Statement<'a>>>, ParseFault<'a>>
        ensures { IsNext self.old self.new result }
    {
        if let Some(fault) = self.refused {
            return Err(fault);
        }
        match next_statement(alloc, &mut self.lexer, &mut self.buffers) {
            Ok(found) => Ok(found),
            Err(fault) => {
                self.refused = Some(fault);
                Err(fault)
            }
        }
    }

    /// Takes back any statement: the next statement is read into the memory of its lists. The
    /// results of calls stay the same.
    pub fn reuse(&mut self, statement: Statement<'a>)
        ensures { self.new ≡ self.old }
    {
        self.buffers.keep(statement);
    }
}
