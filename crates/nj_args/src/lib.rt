//! The request of a command line's arguments.
#![tactic(auto)]

mod command;
mod fields;
mod laws;
mod option_numbers;
mod run_request;
mod tools;
mod usage_fault;
mod usage_line;

pub use laws::{first_fault_law, run_marks_law};
pub use nj_requests::{Action, InputsStyle, Request, TargetsView};
pub use run_request::read_words;
pub use usage_fault::{ToolOption, UsageFault, Word};
