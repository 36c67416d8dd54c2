//! The build log, `.ninja_log`: the outputs that the commands of earlier builds made, and when.
//!
//! A log begins with the line `# ninja log v5`, or with another version. Then Ninja appends a line
//! for each output of a command that it runs: the start and the end of the command in milliseconds,
//! the time of the output in nanoseconds, the output, and the hash of the command, with tabs
//! between them. If an output has several lines, the last line counts.
#![tactic(auto)]

mod build_log;
mod build_log_fault;
mod entry;
mod hashed_text;
mod hashing;
mod laws;
mod line_table;
mod lines;
mod log_version;
mod murmur64;
mod numbers;
mod opening;
mod outputs;
mod rapidhash;

pub use build_log::BuildLog;
pub use build_log_fault::BuildLogFault;
pub use entry::{Entry, LoggedLine};
pub use hashing::command_hash;
pub use laws::{
    few_tabs_change_nothing, last_line_counts, unended_line_changes_nothing, written_lines_are_read,
};
pub use log_version::LogVersion;
pub use nj_names::HashKeys;
pub use outputs::Outputs;
