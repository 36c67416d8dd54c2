//! The times of outputs, as C passes them for edges.

ghost use Rattle.std.specs.Prelude.{◌≡◌, slice_get};
ghost use Rattle.nj_c.specs.Cited.{maker_at, time_found, IsAnswer};

use nj_graph::{FileTimes, Graph, SourceFault};

/// The time of the first output of each edge of a graph, in nanoseconds since 1970: 0 if the output
/// is missing, and [`UNKNOWN`] if the time is not known.
#[derive(Drop)]
pub(crate) struct EdgeTimes<'a> {
    pub(crate) graph: &'a Graph,
    pub(crate) times: &'a [u64],
}

/// A time that is not known.
const UNKNOWN: u64 = u64::MAX;

impl<'a> FileTimes for EdgeTimes<'a> {
    ghost use Rattle.nj_c.specs.DiscoveredInputs.{times_of};

    ghost times = { λ t. times_of t.graph.now t.times.now };

    fn time(&self, path: &str) -> Result<Option<u64>, SourceFault> {
        match maker_at(self.graph, path.as_bytes()) {
            Some(edge) => time_at(self.times, edge),
            None => Err(SourceFault::Io),
        }
    }
}

// The edge that makes the file at a path.
fn maker_at(graph: &Graph, path: &[u8]) -> Option<usize>
    ensures { result ≡ maker_at graph.now path.now }
{
    let file = graph.file_named(path)?;
    match graph.maker(file) {
        Some(edge) => Some(edge.0),
        None => None,
    }
}

// The time at an index.
fn time_at(times: &[u64], index: usize) -> Result<Option<u64>, SourceFault>
    ensures { IsAnswer (time_found (slice_get times.now index)) result }
{
    match times.get(index) {
        Some(0) => Ok(None),
        Some(&UNKNOWN) => Err(SourceFault::Io),
        Some(time) => Ok(Some(*time)),
        None => Err(SourceFault::Io),
    }
}
