//! A parser of a dyndep file.

ghost use Rattle.std.specs.Prelude.{◌≡◌, true, option_map};
ghost use Rattle.nj_text.specs.Lines.{text_lines};
ghost use Rattle.nj_manifest.specs.Dyndeps.{next_entry, left_entry, WholeFile};
ghost use Rattle.nj_manifest.specs.Inside.ParserContracts.{IsBetweenStatements, ParsesAt, ParsesNext, entry_here, is_between_unless};
ghost use Rattle.nj_manifest.specs.DyndepParsers.{entry_model, IsNextEntry};
ghost use Rattle.nj_manifest.specs.Inside.ParserContracts.{ReadsVersion};

use crate::entries::{Entry, entry_line, restat_block, version_line};
use crate::parse_fault::ParseFault;
use crate::statement_start::find_statement;
use nj_text::Lexer;
use std::alloc::Global;
use std::marker::Model;

/// The version with which a dyndep file begins.
fn read_version<'a>(alloc: Global, lexer: &mut Lexer<'a>) -> Result<(), ParseFault<'a>>
    requires { IsBetweenStatements lexer.old }
    ensures { ReadsVersion lexer.old lexer.new result }
{
    if find_statement(lexer)? {
        return version_line(alloc, lexer);
    }
    Err(ParseFault::DyndepVersion(lexer.spot()))
}

/// The entry that begins here, with its block.
fn entry_at<'a>(alloc: Global, lexer: &mut Lexer<'a>) -> Result<Option<Entry<'a>>, ParseFault<'a>>
    ensures { ParsesAt (option_map entry_model) lexer.old lexer.new entry_here result }
{
    let entry = entry_line(alloc, lexer)?;
    let restat = restat_block(alloc, lexer)?;
    Ok(Some(Entry { restat, ..entry }))
}

/// The next entry, from the start of a line on.
fn next_entry<'a>(alloc: Global, lexer: &mut Lexer<'a>) -> Result<Option<Entry<'a>>, ParseFault<'a>>
    requires { IsBetweenStatements lexer.old }
    ensures { ParsesNext (option_map entry_model) lexer.old lexer.new next_entry result }
{
    if find_statement(lexer)? {
        return entry_at(alloc, lexer);
    }
    Ok(None)
}

/// The next entry, after the version if that was not read yet.
fn entry_after<'a>(
    alloc: Global,
    lexer: &mut Lexer<'a>,
    version_read: bool,
) -> Result<Option<Entry<'a>>, ParseFault<'a>>
    requires { IsBetweenStatements lexer.old }
    ensures { ParsesNext (option_map entry_model) lexer.old lexer.new (left_entry version_read)
        result }
{
    if !version_read {
        read_version(alloc, lexer)?;
    }
    next_entry(alloc, lexer)
}

/// Reads the entries of a dyndep file, one after the other ("Dyndep file reference" in the Ninja
/// manual).
///
/// An entry borrows slices of the text.
#[derive(Drop)]
pub struct DyndepParser<'a> {
    lexer: Lexer<'a>,
    version_read: bool,
    refused: Option<ParseFault<'a>>,
    ghost between: { is_between_unless refused lexer ≡ true },
}

impl<'a> Model for DyndepParser<'a> {
    ghost use Rattle.nj_manifest.specs.Dyndeps.{DyndepLeft};

    ghost Value = { DyndepLeft };

    ghost use Rattle.nj_manifest.specs.Inside.ParserContracts.{dyndep_left};

    ghost view = { λ parser. dyndep_left parser.refused parser.version_read parser.lexer };
}

impl<'a> DyndepParser<'a> {
    /// A parser at the front of the text.
    pub fn new(text: &'a [u8]) -> DyndepParser<'a>
        ensures { result ≡ WholeFile (text_lines text.now) }
    {
        DyndepParser {
            lexer: Lexer::new(text),
            version_read: false,
            refused: None,
        }
    }

    /// Returns the next entry, or `None` at the end of the text, and from then on in every call.
    /// The first call reads the version too.
    ///
    /// # Errors
    ///
    /// The first fault of the text, or out of memory. Every later call returns the same error.
    pub fn next_entry(&mut self, alloc: Global) -> Result<Option<Entry<'a>>, ParseFault<'a>>
        ensures { IsNextEntry self.old self.new result }
    {
        if let Some(fault) = self.refused {
            return Err(fault);
        }
        match entry_after(alloc, &mut self.lexer, self.version_read) {
            Ok(found) => {
                self.version_read = true;
                Ok(found)
            }
            Err(fault) => {
                self.refused = Some(fault);
                Err(fault)
            }
        }
    }
}
