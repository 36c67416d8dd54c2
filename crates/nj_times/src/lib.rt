//! Where the time of a build went: how long its commands took, by its log, and the chain of edges
//! whose durations sum to the most.
#![tactic(auto)]

mod costs;
mod dead;
mod edge_times;
mod laws;
mod order;
mod path;
mod reports;
mod rule_reports;
mod rule_times;
mod slow_edges;

pub use dead::dead_outputs;
pub use edge_times::{durations, sum_of, unknown_of};
pub use laws::{
    builds_take_the_critical_path, none_is_slower, one_list_is_slowest, one_path_is_critical,
};
pub use path::critical_path;
pub use reports::report;
pub use rule_reports::rule_report;
pub use slow_edges::slowest;
