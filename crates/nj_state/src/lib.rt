//! What Ninja would run now, and why: the needed edges that are stale, by a graph with its
//! discovered inputs, the times of its files and a build log.
#![tactic(auto)]

mod commands;
mod facts;
mod file_times;
mod judged;
mod laws;
mod lines;
mod state_fault;

pub use commands::{StaleEdge, stale_edges, stale_in};
pub use facts::facts_of;
pub use file_times::times_of;
pub use judged::{JudgedBuild, judged_build};
pub use laws::listed_edges_law;
pub use lines::{push_stale_line, stale_lines};
pub use nj_stale::Reason;
pub use state_fault::StateFault;
