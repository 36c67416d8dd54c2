//! The record of an edge beside its paths and its block.

ghost use Rattle.std.specs.Prelude.{◌≡◌, IfOk};
ghost use Rattle.nj_statements.specs.Cited.{IsDetailOf, spot_of};

use nj_edges::FileNo;
use nj_names::short_number;
use nj_scope::{RuleNo, ScopeNo};
use nj_text::Spot;
use std::alloc::AllocError;

/// An edge without its paths and its block: the number of the file of its statement,
/// its place there, the numbers of its scope and of its rule; its assignment; and whether its
/// dyndep file binds `restat`.
#[derive(Clone, Copy)]
pub(crate) struct Detail {
    pub(crate) file: u32,
    pub(crate) line: u32,
    pub(crate) column: u32,
    pub(crate) scope: u32,
    pub(crate) rule: u32,
    pub(crate) pool: u32,
    pub(crate) dyndep: u32,
    pub(crate) restat: bool,
}

/// The assignment of an edge at its build statement ("Pools" and "Dynamic Dependencies" in the
/// Ninja manual): the numbers of its pool and of the path of its dyndep file among the kept
/// strings, counted from 1, with 0 for none; and the dyndep file.
#[derive(Clone, Copy)]
pub(crate) struct Assigned {
    pub(crate) pool: u32,
    pub(crate) dyndep: u32,
    pub(crate) file: Option<FileNo>,
}

impl Detail {
    /// Returns the detail of an edge at the given place in the file with the given number, with
    /// nothing assigned to the edge yet. A number of more than 32 bits is reported as a failed
    /// allocation.
    pub(crate) fn new(
        file: u32,
        spot: Spot,
        scope: ScopeNo,
        rule: RuleNo,
    ) -> Result<Detail, AllocError>
        ensures { IfOk result (IsDetailOf file spot scope.0 rule.0) }
    {
        Ok(Detail {
            file,
            line: short_number(spot.line)?,
            column: short_number(spot.column)?,
            scope: short_number(scope.0)?,
            rule: short_number(rule.0)?,
            pool: 0,
            dyndep: 0,
            restat: false,
        })
    }

    /// Returns the same edge with the given assignment.
    pub(crate) fn with(self, assigned: Assigned) -> Detail
        ensures { result ≡ record self { pool = assigned.pool; dyndep = assigned.dyndep } }
    {
        Detail {
            pool: assigned.pool,
            dyndep: assigned.dyndep,
            ..self
        }
    }

    /// The place of its statement.
    pub(crate) fn spot(self) -> Spot
        ensures { result ≡ spot_of self }
    {
        Spot {
            line: self.line as usize,
            column: self.column as usize,
        }
    }
}
