//! The question of a command line's arguments.
#![tactic(auto)]

mod command_line;
mod fields;
mod folder_first;
mod forms;
mod laws;
mod old_option;
mod question_of;
mod questions;
mod refusals;
mod subcommands;
mod subject_in;

pub use command_line::command;
pub use laws::reading_law;
pub use question_of::read_words;
pub use questions::{
    AffectedOptions, AuditOptions, DrawOptions, GraphOptions, KeysOptions, Question, StaleOptions,
    Subject, TestsOptions, TimesOptions, WhyOptions,
};
pub use refusals::Refusal;
