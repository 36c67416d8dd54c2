//! The rows of edges, which give the place of each edge's files.

ghost use Rattle.std.specs.Prelude.{◌≡◌, ◌+◌, ◌<◌, ◌^◌, [], ◌∷◌, ◌++◌, Some, length, slice_get, IfOk, OnOk, OnErr};
ghost use Rattle.nj_edges.specs.Cited.{wide_row, wide_span};

use crate::edges::{EdgeRow, KindEnds, Span};
use std::alloc::{AllocError, Global};
use std::marker::Model;

// So that the number of each edge, and the number after it, is a `u32` when counted from 1.
const MOST_ROWS: usize = 4_294_967_294;

// A part of a list, as a row keeps it.
#[derive(Clone, Copy)]
pub(crate) struct NarrowSpan {
    pub(crate) start: u32,
    pub(crate) end: u32,
}

// A row in 40 bytes.
#[derive(Clone, Copy)]
pub(crate) struct NarrowRow {
    pub(crate) outputs: NarrowSpan,
    pub(crate) inputs: NarrowSpan,
    pub(crate) validations: NarrowSpan,
    pub(crate) explicit_outputs: u32,
    pub(crate) explicit_inputs: u32,
    pub(crate) implicit_inputs: u32,
    pub(crate) is_phony: bool,
}

/// The rows of all edges, by number.
#[derive(Drop)]
pub(crate) struct Rows {
    rows: Vec<NarrowRow>,
}

impl Model for Rows {
    ghost use Rattle.std.specs.Prelude.{◌+◌, ◌<◌, ◌^◌, List, length};
    ghost use Rattle.nj_edges.specs.declared.edges.EdgeRow.{EdgeRow};
    ghost use Rattle.nj_edges.specs.Inside.RowsHeld.{wide_rows};

    ghost Value = { List EdgeRow };

    ghost view = { λ r. wide_rows r.rows.items };

    ghost invariant = { λ r. length r.rows.items + 1 < 2 ^ 32 };
}

impl Rows {
    /// No rows. It allocates nothing.
    pub(crate) fn new(alloc: Global) -> Rows
        ensures { result ≡ [] }
    {
        Rows {
            rows: Vec::new(alloc),
        }
    }

    /// No rows, with capacity for `count`.
    pub(crate) fn with_capacity(alloc: Global, count: usize) -> Result<Rows, AllocError>
        ensures { IfOk result (λ rows. rows ≡ []) }
    {
        let rows = Vec::with_capacity(alloc, count)?;
        Ok(Rows { rows })
    }

    /// The number of rows.
    pub(crate) fn count(&self) -> usize
        ensures count { result ≡ length self.now }
        ensures fits { result + 1 < 2 ^ 32 }
    {
        self.rows.as_slice().len()
    }

    /// The row of an edge.
    pub(crate) fn row(&self, edge: usize) -> EdgeRow
        requires { edge < length self.now }
        ensures { slice_get self.now edge ≡ Some result }
    {
        wide_row(narrow_at(&self.rows, edge))
    }

    /// Appends a row.
    ///
    /// # Errors
    ///
    /// If an allocation failed, or if a number of the row or the number of rows exceeds 32 bits.
    pub(crate) fn push(&mut self, row: EdgeRow) -> Result<(), AllocError>
        ensures pushed { OnOk result (self.new ≡ self.old ++ row ∷ []) }
        ensures refused { OnErr result (self.new ≡ self.old) }
    {
        if self.rows.as_slice().len() >= MOST_ROWS {
            return Err(AllocError);
        }
        let narrow = narrow_row(row)?;
        self.rows.push(narrow)?;
        Ok(())
    }
}

// The row of an edge, in its stored form.
fn narrow_at(rows: &[NarrowRow], edge: usize) -> NarrowRow
    requires { edge < length rows.now }
    ensures { slice_get rows.now edge ≡ Some result }
{
    rows[edge]
}

// The row, in its stored form.
fn narrow_row(row: EdgeRow) -> Result<NarrowRow, AllocError>
    ensures { IfOk result (λ narrow. wide_row narrow ≡ row) }
{
    Ok(NarrowRow {
        outputs: narrow_span(row.outputs)?,
        inputs: narrow_span(row.inputs)?,
        validations: narrow_span(row.validations)?,
        explicit_outputs: narrow(row.kinds.explicit_outputs)?,
        explicit_inputs: narrow(row.kinds.explicit_inputs)?,
        implicit_inputs: narrow(row.kinds.implicit_inputs)?,
        is_phony: row.is_phony,
    })
}

// The part of a list, as a row keeps it.
fn narrow_span(span: Span) -> Result<NarrowSpan, AllocError>
    ensures { IfOk result (λ narrow. wide_span narrow ≡ span) }
{
    Ok(NarrowSpan {
        start: narrow(span.start)?,
        end: narrow(span.end)?,
    })
}

// The number in 32 bits, if it fits.
fn narrow(number: usize) -> Result<u32, AllocError>
    ensures { IfOk result (λ narrow. narrow ≡ number) }
{
    match u32::try_from(number) {
        Ok(narrow) => Ok(narrow),
        Err(_too_large) => Err(AllocError),
    }
}

// The row that is kept so.
fn wide_row(row: NarrowRow) -> EdgeRow
    ensures { result ≡ wide_row row }
{
    EdgeRow {
        outputs: wide_span(row.outputs),
        inputs: wide_span(row.inputs),
        validations: wide_span(row.validations),
        kinds: KindEnds {
            explicit_outputs: row.explicit_outputs as usize,
            explicit_inputs: row.explicit_inputs as usize,
            implicit_inputs: row.implicit_inputs as usize,
        },
        is_phony: row.is_phony,
    }
}

// The part of a list that is kept so.
fn wide_span(span: NarrowSpan) -> Span
    ensures { result ≡ wide_span span }
{
    Span {
        start: span.start as usize,
        end: span.end as usize,
    }
}
