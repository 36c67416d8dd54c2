//! Changed paths: how a text lists them, which of them globs ignore, and which files they are, however
//! their paths are written.
#![tactic(auto)]

mod full_paths;
mod given;
mod ignored;
mod laws;

pub use full_paths::{add_all, all_sought, full_path, has_one, is_at, sought};
pub use given::{lines_of, zero_ended};
pub use ignored::{PatternFault, read_globs, without_ignored};
pub use laws::changes_law;
