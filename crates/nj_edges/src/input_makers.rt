//! The edges that make the inputs of edges, as the cycle check and walks query them.

ghost use Rattle.std.specs.Prelude.{◌≡◌, ℕ, ◌<◌, ◌≤◌, Some, None, All, length, slice_index_or};
ghost use Rattle.nj_edges.specs.Inside.EdgesHeld.{lists_of, makers_in_rows};

use crate::edge_lists::EdgeLists;
use crate::list_parts::part;
use nj_cycles::EdgeInputs;

/// The inputs of all edges, and the edge that makes each file.
#[derive(Clone, Copy)]
pub(crate) struct InputMakers<'a> {
    pub(crate) lists: &'a EdgeLists,
    ghost rows_rise: { All (λ row. row.inputs.start ≤ row.inputs.end) lists.now.rows },
    ghost rows_within: { All (λ row. row.inputs.end ≤ length lists.now.inputs.items)
        lists.now.rows },
    ghost files_known: { All (λ file. file.0 < length lists.now.makers) lists.now.inputs.items },
    ghost makers_known: { (file e : ℕ) → slice_index_or lists.now.makers file None ≡ Some e
        → e < length lists.now.rows },
}

impl<'a> EdgeInputs for InputMakers<'a> {
    ghost makers = { λ i. makers_in_rows (lists_of i.lists.now) };

    ghost count = { λ i. length i.lists.now.rows };

    fn edge_count(&self) -> usize {
        self.lists.rows.count()
    }

    fn maker_at(&self, edge: usize, index: usize) -> Option<Option<usize>> {
        let row = self.lists.rows.row(edge);
        let file = *part(&self.lists.inputs, row.inputs.start, row.inputs.end).get(index)?;
        Some(self.lists.makers.maker(file))
    }
}
