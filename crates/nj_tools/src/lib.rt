//! The output of the tools, and the sinks that accept it.
#![tactic(auto)]

mod chosen_rules;
mod command_lines;
mod compdb;
mod edge_objects;
mod error;
mod file_list;
mod file_set;
mod input_lists;
mod json_strings;
mod laws;
mod memory_sink;
mod object_text;
mod output;
mod queries;
mod rule_lines;
mod sinks;
mod sorted_paths;
mod target_lists;
mod text_lines;
mod tool_fault;
mod trees;
mod whole_text;
mod writer;

pub use command_lines::{write_commands, write_single_commands};
pub use compdb::write_compdb;
pub use edge_objects::{DiscoveryState, EdgeDiscovery, write_edge_objects};
pub use error::Error;
pub use input_lists::write_inputs;
pub use laws::{compdb_law, depth_law, edge_objects_law, input_lines_law, list_law};
pub use memory_sink::MemorySink;
pub use nj_graph::{GraphFault, TextFault};
pub use nj_needs::{Mark, MarkFault, Needs, grow_targets};
pub use nj_requests::{InputsStyle, TargetsView};
pub use queries::write_query;
pub use rule_lines::write_rules;
pub use sinks::{Sink, SinkFault};
pub use target_lists::write_targets;
pub use tool_fault::ToolFault;
pub use whole_text::write_whole;
pub use writer::WriteSink;
