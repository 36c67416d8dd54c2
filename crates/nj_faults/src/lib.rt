//! Why the files of a run do not make a graph, or why a request about the graph has no answer, the
//! line that reports it, and the version of Ninja whose files are read.
#![tactic(auto)]

mod fault;
mod fault_line;
mod limits;
mod version;

pub use fault::{Cause, GraphFault, Name, Place, PlaceRef};
pub use limits::{MOST_OPEN, MOST_OPENED};
pub use version::is_newer;
