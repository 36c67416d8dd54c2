//! What the contracts of the exports leave open.
//!
//! Each function makes one call twice, in two sessions with the same contents and with the same
//! arguments, and its contract says what the two answers have in common. Its proof sees the
//! contract of the call alone. So answers that the contract allows differ only in what the
//! function's documentation names as free. C does not see the functions.

pub mod counts;
pub mod edge_lists;
pub mod edges;
pub mod faults;
pub mod files;
pub mod graphs;
pub mod lists;
pub mod loads;
pub mod logs;
pub mod paths;
pub mod runs;
pub mod sessions;
pub mod stale_edges;
pub mod targets;
pub mod values;
