//! The lists of a graph's edges, side by side.

ghost use Rattle.std.specs.Prelude.{◌≡◌, ◌<◌, ℕ, List, [], None, length, replicate, IfOk, OnOk, OnErr};
ghost use Rattle.nj_edges.specs.Cited.{edge_at, HasFiles, EdgesAreHeld, edges_of, lists_of, no_lists, with_row};

use crate::edges::{EdgeFiles, EdgeNo, KindEnds, OpenStarts, row_between};
use crate::list_parts::part;
use crate::makers::Makers;
use crate::rows::Rows;
use nj_names::FileNo;
use std::alloc::{AllocError, Global};

/// The maker of each file, the concatenated files of all edges, and the row of each edge.
#[derive(Drop)]
pub(crate) struct EdgeLists {
    pub(crate) makers: Makers,
    pub(crate) outputs: Vec<FileNo>,
    pub(crate) inputs: Vec<FileNo>,
    pub(crate) validations: Vec<FileNo>,
    pub(crate) rows: Rows,
    // where the files of the edge that is being read begin
    pub(crate) starts: OpenStarts,
}

impl EdgeLists {
    /// No edges, and no files. It allocates nothing.
    pub(crate) fn new(alloc: Global) -> EdgeLists
        ensures { lists_of result ≡ no_lists [] }
    {
        EdgeLists {
            makers: Makers::new(alloc),
            outputs: Vec::new(alloc),
            inputs: Vec::new(alloc),
            validations: Vec::new(alloc),
            rows: Rows::new(alloc),
            starts: OpenStarts {
                outputs: 0,
                inputs: 0,
                validations: 0,
            },
        }
    }

    /// No edges among `file_count` files, with capacity for as many edges as the given lists have.
    pub(crate) fn with_capacity(
        alloc: Global,
        file_count: usize,
        edges: &EdgeLists,
    ) -> Result<EdgeLists, AllocError>
        ensures { IfOk result (λ lists. lists_of lists ≡ no_lists (replicate file_count None)) }
    {
        Ok(EdgeLists {
            makers: Makers::of_sources(alloc, file_count)?,
            outputs: Vec::with_capacity(alloc, edges.outputs.as_slice().len())?,
            inputs: Vec::with_capacity(alloc, edges.inputs.as_slice().len())?,
            validations: Vec::with_capacity(alloc, edges.validations.as_slice().len())?,
            rows: Rows::with_capacity(alloc, edges.rows.count())?,
            starts: OpenStarts {
                outputs: 0,
                inputs: 0,
                validations: 0,
            },
        })
    }

    /// The files of an edge that was read.
    pub(crate) fn edge(&self, edge: EdgeNo) -> EdgeFiles<'_>
        requires known { edge.0 < length self.now.rows }
        requires held { (files : List (List ℕ)) × EdgesAreHeld files (lists_of self.now) }
        ensures { (files : List (List ℕ)) → EdgesAreHeld files (lists_of self.now)
            → HasFiles files (edge_at (edges_of files (lists_of self.now)) edge.0)
            result.outputs.now result.inputs.now result.validations.now result.kinds
            result.is_phony }
    {
        let row = self.rows.row(edge.0);
        EdgeFiles {
            outputs: part(&self.outputs, row.outputs.start, row.outputs.end),
            inputs: part(&self.inputs, row.inputs.start, row.inputs.end),
            validations: part(
                &self.validations,
                row.validations.start,
                row.validations.end,
            ),
            kinds: row.kinds,
            is_phony: row.is_phony,
        }
    }

    /// Ends the edge that is being read, with the given ends of its kinds, and begins another.
    pub(crate) fn end_edge(&mut self, kinds: KindEnds, is_phony: bool) -> Result<(), AllocError>
        ensures ended { OnOk result
            (lists_of self.new ≡ with_row (lists_of self.old) kinds is_phony) }
        ensures refused { OnErr result (self.new ≡ self.old) }
    {
        let ends = OpenStarts {
            outputs: self.outputs.as_slice().len(),
            inputs: self.inputs.as_slice().len(),
            validations: self.validations.as_slice().len(),
        };
        self.rows
            .push(row_between(self.starts, ends, kinds, is_phony))?;
        self.starts = ends;
        Ok(())
    }
}
