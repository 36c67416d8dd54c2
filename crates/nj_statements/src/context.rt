//! Where a statement is, and the meaning of names there.

ghost use Rattle.std.specs.Prelude.{◌<◌, Some, length};
ghost use Rattle.nj_faults.specs.Faults.{IsFault, fault_at};

use nj_edge_env::Blocks;
use nj_faults::{Cause, GraphFault, PlaceRef};
use nj_scope::{Declarations, ScopeNo};
use nj_text::Spot;
use std::alloc::Global;

/// Where a statement is, and the meaning of names there: the binding of its edge's block, else the
/// value in its scope. A statement that is not an edge has the number of the next edge, which binds
/// nothing yet.
#[derive(Clone, Copy)]
pub(crate) struct Context<'a> {
    pub(crate) alloc: Global,
    pub(crate) place: PlaceRef<'a>,
    pub(crate) scope: ScopeNo,
    pub(crate) declarations: &'a Declarations,
    pub(crate) blocks: &'a Blocks,
    pub(crate) edge: usize,
    ghost scope_known: { scope.0 < length declarations.now.scopes },
}

impl Context<'_> {
    /// The fault with the given cause at a place in the file, or out of memory.
    pub(crate) fn fault(self, spot: Spot, cause: Cause) -> GraphFault
        ensures { IsFault (Some (fault_at self.entry.place.file.now spot cause)) result }
    {
        let file = self.place.file;
        PlaceRef { file, spot }.fault(self.alloc, cause)
    }
}
