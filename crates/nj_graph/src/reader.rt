//! The reading of a run's files: texts, and their statements one after another.

ghost use Rattle.std.specs.Prelude.{◌≡◌, ◌<◌, Some, None, length, IfOk, OnOk, IfSome};
ghost use Rattle.nj_graph.specs.Cited.{placed_model, parent_at, IsFault, fault_at, entry_at, opened_in, text_read, statement_read, main_read, IsNew, InFile, ScopesGrow, ReadsItem, ReadsOrStops, NextIs};

use crate::file_statements::{Naming, text_at};
use crate::origins::Origins;
use nj_faults::{Cause, GraphFault, MOST_OPEN, PlaceRef};
use nj_manifest::{Parser, Placed, Spot, Statement};
use nj_scope::{Declarations, FileSource, FileTable, HashKeys, MAIN_SCOPE, ScopeNo};
use nj_statements::Building;
use std::alloc::{AllocError, Global};
use std::rc::RcSlice;
use std::str;

/// An open file: its name, the number of the scope of its statements, and how many
/// files may be open within it.
#[derive(Clone, Copy)]
pub(crate) struct OpenFile<'a> {
    pub(crate) name: &'a str,
    pub(crate) scope: ScopeNo,
    pub(crate) left: usize,
}

impl<'a> OpenFile<'a> {
    /// The place in the file.
    pub(crate) fn place(self, spot: Spot) -> PlaceRef<'a>
        ensures file { result.file.now ≡ self.entry.name.now }
        ensures spot { result.spot ≡ spot }
    {
        PlaceRef {
            file: self.name.as_bytes(),
            spot,
        }
    }

    /// The fault with the given cause at a place in the file, or out of memory.
    pub(crate) fn fault(self, alloc: Global, spot: Spot, cause: Cause) -> GraphFault
        ensures { IsFault (Some (fault_at self.entry.name.now spot cause)) result }
    {
        self.place(spot).fault(alloc, cause)
    }
}

/// The file that a statement names, and the number of the scope of its statements.
#[derive(Drop)]
pub(crate) struct Opened {
    pub(crate) path: String,
    pub(crate) scope: ScopeNo,
    pub(crate) text: RcSlice<u8>,
}

/// The statements read so far.
#[derive(Drop)]
pub(crate) struct Reader {
    pub(crate) declarations: Declarations,
    pub(crate) building: Building,
    pub(crate) files: FileTable,
    pub(crate) origins: Origins,
}

impl Reader {
    /// A reader that has read nothing of the main file yet. Names and paths are hashed with the
    /// given keys.
    pub(crate) fn new(alloc: Global, keys: HashKeys, main: &str) -> Result<Reader, AllocError>
        ensures { IfOk result (λ r. IsNew main.now r) }
    {
        let declarations = Declarations::new(alloc, keys)?;
        let origins = Origins::new(alloc, keys, main)?;
        Ok(Reader {
            declarations,
            building: Building::new(alloc, keys),
            files: FileTable::new(alloc, keys),
            origins,
        })
    }

    /// Reads the main file, and all that it includes.
    pub(crate) fn read_main<S: FileSource>(
        &mut self,
        alloc: Global,
        source: &mut S,
        main: &str,
    ) -> Result<(), GraphFault>
        requires { IsNew main.now self.old }
        ensures reads { ReadsOrStops main.now (S.state source.old) (S.state source.new)
            self.old self.new (λ files. main_read files main.now) result }
        ensures outermost { OnOk result (parent_at self.new.declarations.scopes 0 ≡ None) }
    {
        let front = PlaceRef {
            file: main.as_bytes(),
            spot: Spot { line: 1, column: 1 },
        };
        let text = text_at(alloc, source, &mut self.files, front, main)?;
        let file = OpenFile {
            name: main,
            scope: MAIN_SCOPE,
            left: MOST_OPEN - 1,
        };
        self.read_text(alloc, source, file, text.as_slice())
    }

    // Reads the statements of an open file, and of the files that it names.
    #[cycle(reading)]
    fn read_text<S: FileSource>(
        &mut self,
        alloc: Global,
        source: &mut S,
        file: OpenFile<'_>,
        text: &[u8],
    ) -> Result<(), GraphFault>
        requires { file.scope.0 < length self.old.declarations.scopes }
        ensures reads { InFile self.old file.entry (λ main site entries.
            ReadsOrStops main (S.state source.old) (S.state source.new) self.old self.new
            (λ files. text_read (opened_in files file.entry.left) site text.now entries) result) }
        ensures grows { OnOk result (ScopesGrow self.old self.new) }
    {
        let mut parser = Parser::new(text);
        'statements: while let Some(statement) = next_statement(alloc, &mut parser, file)? {
            self.read_statement(alloc, source, file, &statement)?;
            parser.reuse(statement.item);
        }
        Ok(())
    }

    // Reads a statement, and the statements of the file that it names.
    #[cycle(reading)]
    fn read_statement<S: FileSource>(
        &mut self,
        alloc: Global,
        source: &mut S,
        file: OpenFile<'_>,
        statement: &Placed<Statement<'_>>,
    ) -> Result<(), GraphFault>
        requires { file.scope.0 < length self.old.declarations.scopes }
        ensures reads { InFile self.old file.entry (λ main site entries.
            ReadsOrStops main (S.state source.old) (S.state source.new) self.old self.new
            (λ files. statement_read (opened_in files file.entry.left)
            (entry_at site (placed_model statement.now)) entries) result) }
        ensures grows { OnOk result (ScopesGrow self.old self.new) }
    {
        match self.read_item(alloc, source, file, statement)? {
            None => Ok(()),
            Some(named) => {
                let inner = OpenFile {
                    name: named.path.as_str(),
                    scope: named.scope,
                    left: file.left - 1,
                };
                self.read_text(alloc, source, inner, named.text.as_slice())
            }
        }
    }

    // Reads a statement itself. Returns the file that it names, if any.
    fn read_item<S: FileSource>(
        &mut self,
        alloc: Global,
        source: &mut S,
        file: OpenFile<'_>,
        statement: &Placed<Statement<'_>>,
    ) -> Result<Option<Opened>, GraphFault>
        requires { file.scope.0 < length self.old.declarations.scopes }
        ensures reads { InFile self.old file.entry (λ main site entries.
            ReadsItem main (S.state source.old) (S.state source.new) self.old self.new
            file.entry.left (entry_at site (placed_model statement.now)) entries result) }
        ensures left { IfOk result (λ named. IfSome named (λ o. 0 < file.entry.left)) }
        ensures there { IfOk result (λ named.
            IfSome named (λ o. o.scope.0 < length self.new.declarations.scopes)) }
        ensures grows { OnOk result (ScopesGrow self.old self.new) }
    {
        match &statement.item {
            Statement::Binding { name, value } => {
                self.bind(alloc, file, statement.spot, name, value)?;
                Ok(None)
            }
            Statement::Rule(rule) => {
                self.declare_rule(alloc, file, statement.spot, rule)?;
                Ok(None)
            }
            Statement::Pool(pool) => {
                self.declare_pool(alloc, file, statement.spot, pool)?;
                Ok(None)
            }
            Statement::Build(build) => {
                self.build(alloc, file, statement.spot, build)?;
                Ok(None)
            }
            Statement::Default { words } => {
                self.add_defaults(alloc, file, statement.spot, words.as_slice())?;
                Ok(None)
            }
            Statement::Include { word } => {
                let spot = statement.spot;
                let named = self.open_named(alloc, source, file, spot, Naming::Include, word)?;
                Ok(Some(named))
            }
            Statement::Subninja { word } => {
                let spot = statement.spot;
                let named = self.open_named(alloc, source, file, spot, Naming::Subninja, word)?;
                Ok(Some(named))
            }
        }
    }
}

// The next statement of an open file.
fn next_statement<'a>(
    alloc: Global,
    parser: &mut Parser<'a>,
    file: OpenFile<'_>,
) -> Result<Option<Placed<Statement<'a>>>, GraphFault>
    ensures { NextIs file.entry.name.now parser.old parser.new result }
{
    match parser.next_statement(alloc) {
        Ok(found) => Ok(found),
        Err(fault) => Err(GraphFault::of_text(alloc, file.name, fault)?),
    }
}
