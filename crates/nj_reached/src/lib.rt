//! Which tests of a build a change of files reaches, by its graph.
#![tactic(auto)]

mod full_names;
mod laws;
mod noticed;
mod reached_paths;

pub use laws::graphs_notice_the_change;
pub use reached_paths::changed_paths;
