//! An open edge.

ghost use Rattle.std.specs.Prelude.{◌+◌, ◌<◌, ◌^◌};

use nj_edges::EdgeNo;

/// An open edge, and the index at which it was found in the row below: in the inputs of the edge
/// that was opened before it, or in the list of targets.
#[derive(Clone, Copy)]
pub(crate) struct Frame {
    pub edge: EdgeNo,
    pub at: usize,
    ghost fits: { at + 1 < 2 ^ 64 },
}
