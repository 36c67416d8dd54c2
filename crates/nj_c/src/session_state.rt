//! The contents of a session.

ghost use Rattle.nj_c.specs.Cited.{IsEmpty};

use crate::supplied_files::SuppliedFiles;
use nj_graph::{EdgeNo, Graph, GraphFault};
use nj_scope::HashKeys;
use nj_state::StaleEdge;
use nj_tools::MemorySink;
use std::alloc::Global;

/// The contents of an open session.
#[derive(Drop)]
pub struct Kept {
    /// The supplied files.
    pub(crate) files: SuppliedFiles,
    /// The paths that the last load or run wanted and that were not supplied.
    pub(crate) wanted: Vec<Vec<u8>>,
    /// The graph, after a load that went well.
    pub(crate) graph: Option<Graph>,
    /// The fault of the last load, or of the last target that was picked.
    pub(crate) fault: Option<GraphFault>,
    /// The edges of the last requested list or page.
    pub(crate) found: Vec<EdgeNo>,
    /// The text of the mark at which the last page ends; empty if nothing is left after it.
    pub(crate) mark: Vec<u8>,
    /// How far the deps log that was joined to the graph last was read.
    pub(crate) log: Option<LogRead>,
    /// For each edge, whether its discovered inputs are not known; empty if none were joined.
    pub(crate) unknown: Vec<bool>,
    /// The stale edges of the last requested list of them.
    pub(crate) stale: Vec<StaleEdge>,
    /// The standard output of the last run.
    pub(crate) output: MemorySink,
    /// The standard error of the last run.
    pub(crate) errors: MemorySink,
}

/// How far a deps log was read.
#[derive(Clone, Copy)]
pub struct LogRead {
    /// How many of its bytes were read.
    pub(crate) size: usize,
    /// Whether that is the whole log.
    pub(crate) is_whole: bool,
}

impl Kept {
    /// Nothing yet. It allocates nothing.
    pub(crate) fn new(alloc: Global, keys: HashKeys) -> Kept
        ensures { IsEmpty result }
    {
        Kept {
            files: SuppliedFiles::new(alloc, keys),
            wanted: Vec::new(alloc),
            graph: None,
            fault: None,
            found: Vec::new(alloc),
            mark: Vec::new(alloc),
            log: None,
            unknown: Vec::new(alloc),
            stale: Vec::new(alloc),
            output: MemorySink::new(alloc, None),
            errors: MemorySink::new(alloc, None),
        }
    }
}
