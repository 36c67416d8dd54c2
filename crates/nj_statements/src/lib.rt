//! The reading of `build` and `default` statements: edges and the files that they name.
#![tactic(auto)]

mod building;
mod built;
mod context;
mod dyndep_entries;
mod edge_faults;
mod edge_record;
mod laws;
mod line_values;
mod records;
mod rule_references;
mod scratch;
mod stated_block;
mod stated_files;
mod string_numbers;

pub use building::Building;
pub use built::Built;
pub use dyndep_entries::{DyndepFile, Joining};
pub use laws::{
    discovered_files_are_added, dyndep_files_come_once, edges_by_reading_order,
    entries_add_to_their_edges, named_inputs_are_added, no_file_gets_two_makers,
    pending_edges_rise,
};
pub use records::EdgeRecords;
