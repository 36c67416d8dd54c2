//! The statements of a Ninja file: rules, pools, build statements, defaults, includes and bindings.
//!
//! A [`Parser`] reads a text from its front, one statement with its block at a time, and copies
//! none of it.
#![tactic(auto)]

mod block_lines;
mod cause;
mod dyndep;
mod entries;
mod fault_text;
mod heads;
mod laws;
mod next_statement;
mod parse_fault;
mod parser;
mod statement;
mod statement_buffers;
mod statement_start;
mod steps;

pub use cause::{SyntaxCause, Wanted};
pub use dyndep::DyndepParser;
pub use entries::Entry;
pub use fault_text::FaultText;
pub use laws::{
    dyndep_entries_are_the_forms, dyndep_faults_are_leftmost, dyndep_versions_are_the_forms,
    faults_are_leftmost, missing_lines_are_lacking, next_entries_are_the_forms,
    statements_are_the_forms, units_of_strings_are_apart,
};
pub use nj_text::{LexFault, Part, Spot, Word};
pub use parse_fault::ParseFault;
pub use parser::Parser;
pub use statement::{Build, Line, Placed, Pool, Rule, Statement};
