//! The times of files, as C passes them.

ghost use Rattle.std.specs.Prelude.{◌≡◌, bytes_eq, option_and_then, position, slice_get};
ghost use Rattle.nj_c.specs.Cited.{disk_time, files_of};

use nj_graph::{FileTimes, Graph, SourceFault};

/// The time of each file of a graph, in nanoseconds since 1970: 0 if the file does not exist.
#[derive(Drop)]
pub(crate) struct GivenTimes<'a> {
    pub(crate) graph: &'a Graph,
    pub(crate) times: &'a [u64],
}

impl<'a> FileTimes for GivenTimes<'a> {
    ghost use Rattle.nj_c.specs.StaleEdges.{given_times};

    ghost times = { λ t. given_times t.graph.now t.times.now };

    fn time(&self, path: &str) -> Result<Option<u64>, SourceFault> {
        Ok(given_time(self.graph, self.times, path.as_bytes()))
    }
}

// The time of the file at a path, if it exists.
fn given_time(graph: &Graph, times: &[u64], path: &[u8]) -> Option<u64>
    ensures { result ≡ disk_time (option_and_then (slice_get times.now)
        (position (bytes_eq path.now) (files_of graph.now))) }
{
    let file = graph.file_named(path)?;
    match times.get(file.0) {
        Some(0) => None,
        Some(time) => Some(*time),
        None => None,
    }
}
