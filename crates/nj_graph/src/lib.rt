//! The graph of a run's build statements, from the files that it reads.
#![tactic(auto)]

mod all_handles;
mod block_bindings;
mod build_statements;
mod declaring;
mod deps_logs;
mod discovered_inputs;
mod discovering;
mod dyndep_files;
mod edge_assignments;
mod edge_files;
mod edge_inputs;
mod edge_statements;
mod edge_values;
mod error;
mod file_edges;
mod file_lists;
mod file_statements;
mod found_inputs;
mod graph;
mod graph_edges;
mod graph_handles;
mod handle_lists;
mod handles;
mod laws;
mod loading;
mod made_files;
mod needed_commands;
mod opened_files;
mod origins;
mod pools;
mod reached_edges;
mod reader;
mod response_files;
mod rules;
mod scopes;
mod targets;
mod undeclared;

pub use all_handles::{AllEdges, AllFiles};
pub use dyndep_files::{join_dyndeps, join_present_dyndeps};
pub use error::Error;
pub use file_lists::{EdgeList, FileList};
pub use graph::{Graph, rules_by_name};
pub use handle_lists::{Edges, Files};
pub use handles::{Edge, File};
pub use laws::{
    bindings_after_an_edge, items_are_found_in_turn, joined_dyndeps_stay_joined,
    origins_by_reading_order, same_log_changes_nothing, sign_before_the_first_name,
    statements_up_to_the_first_fault, words_mean_targets,
};
pub use loading::{Loaded, load};
pub use needed_commands::NeededCommands;
pub use nj_discovered::{DepfileError, Discoveries, FileTimes, TimeFound, Unknown, Verdict};
pub use nj_edges::{ChainKinds, EdgeGraph, EdgeNo, FileNo, Kind, NeedsSearch, Step};
pub use nj_faults::{Cause, GraphFault, Name, Place, PlaceRef};
pub use nj_manifest::{Spot, SyntaxCause, Wanted};
pub use nj_scope::{
    FileSource, FileTable, HashKeys, LateValue, MAIN_SCOPE, MemoryFiles, Rule, RuleNo, ScopeNo,
    SourceFault,
};
pub use nj_text::{Part, TextFault, clean_path, quote_into};
pub use origins::Opening;
pub use targets::pick_target;
pub use undeclared::{UndeclaredInput, undeclared_inputs};
