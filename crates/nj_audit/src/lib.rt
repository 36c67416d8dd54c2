//! Findings about a manifest: likely mistakes and dead entries.
#![tactic(auto)]

mod auditing;
mod commands;
mod depfiles;
mod file_set;
mod findings;
mod inputs;
mod kinds;
mod laws;
mod logged_inputs;
mod named_files;
mod named_paths;
mod names;
mod outputs;
mod pools;
mod read_words;
mod roles;
mod rules;
mod serving;
mod shell_words;
mod sources;
mod unordered_files;
mod variables;
mod word_names;

pub use auditing::audit;
pub use findings::{Finding, Findings};
pub use kinds::{Kind, Kinds};
pub use laws::{list_law, words_law};
pub use unordered_files::has_generator;
