//! Requests about a file and its graph, as a command line makes them: a tool, its targets and its
//! options.
#![tactic(auto)]

mod actions;
mod style;
mod view;

pub use actions::{Action, Request};
pub use nj_faults::Name;
pub use nj_needs::Mark;
pub use style::InputsStyle;
pub use view::TargetsView;
