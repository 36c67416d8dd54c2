//! Which edges of a build are stale: what Ninja would run, and why.
//!
//! An edge is stale if its discovered inputs are unknown, if an input that counts is stale, or if
//! an output is missing, older than an input that counts, or made by another command according to
//! the build log.
#![tactic(auto)]

mod evidence;
mod files;
mod judging;
mod laws;
mod missing;
mod order;
mod reason;
mod reasons;
mod work;

pub use evidence::EdgeFacts;
pub use laws::{
    one_state_fits, other_times_say_nothing, some_state_fits, stale_edges_have_reasons,
    touches_make_dirty_edges_stale,
};
pub use missing::{MissingSource, missing_source};
pub use order::makers_first;
pub use reason::Reason;
pub use reasons::{FoundEdges, found_edges, newest_place, reasons_of};
pub use work::work_flags;
