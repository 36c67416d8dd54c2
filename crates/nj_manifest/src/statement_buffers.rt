//! Buffers for the lists of the next statement.

ghost use Rattle.std.specs.Prelude.{◌≡◌, []};

use crate::statement::{Build, Line, Statement};
use nj_text::Word;
use std::alloc::Global;

/// Lists of statements that were given back. The next statement is read into their memory.
#[derive(Drop)]
pub struct Buffers<'a> {
    pub explicit_outs: Option<Vec<Word<'a>>>,
    pub implicit_outs: Option<Vec<Word<'a>>>,
    pub explicit: Option<Vec<Word<'a>>>,
    pub implicit: Option<Vec<Word<'a>>>,
    pub order_only: Option<Vec<Word<'a>>>,
    pub validations: Option<Vec<Word<'a>>>,
    /// The lines of a block.
    pub lines: Option<Vec<Line<'a>>>,
}

impl<'a> Buffers<'a> {
    /// No statement was given back yet.
    pub fn none() -> Buffers<'a> {
        Buffers {
            explicit_outs: None,
            implicit_outs: None,
            explicit: None,
            implicit: None,
            order_only: None,
            validations: None,
            lines: None,
        }
    }

    /// Keeps the lists of a statement.
    pub fn keep(&mut self, statement: Statement<'a>) {
        match statement {
            Statement::Rule(rule) => self.lines = Some(rule.lines),
            Statement::Pool(pool) => self.lines = Some(pool.lines),
            Statement::Build(build) => self.keep_build(build),
            other => drop(other),
        }
    }

    /// Keeps the lists of a build statement.
    fn keep_build(&mut self, build: Build<'a>) {
        self.explicit_outs = Some(build.explicit_outs);
        self.implicit_outs = Some(build.implicit_outs);
        self.explicit = Some(build.explicit);
        self.implicit = Some(build.implicit);
        self.order_only = Some(build.order_only);
        self.validations = Some(build.validations);
        self.lines = Some(build.lines);
    }
}

/// An empty list, in the memory of the kept list, if any.
pub fn empty_list<T: Drop>(alloc: Global, kept: &mut Option<Vec<T>>) -> Vec<T>
    ensures { result.items ≡ [] }
{
    match kept.take() {
        Some(mut list) => {
            list.clear();
            list
        }
        None => Vec::new(alloc),
    }
}
