//! The library for C, and for each language that calls C. Its header is `include/ninja_explain.h`.
//!
//! Every export takes a session, which owns its contents, and returns a status. A query leaves the
//! session unchanged. Nothing is lent: texts are copied into the caller's buffers.
#![tactic(auto)]

mod asking;
mod buffers;
mod bulk;
mod counts;
mod deps_logs;
mod dirty_edges;
mod discovered_inputs;
mod edge_times;
mod edges;
mod fault_kinds;
mod faults;
mod file_times;
mod files;
mod items;
mod lacking_depfiles;
mod laws;
mod loads;
mod made_from;
mod one_answer;
mod opened_files;
mod pages;
mod paths;
mod picked_targets;
mod program_runs;
mod rule_and_target_lists;
mod run_words;
mod sealed_box;
mod session;
mod session_state;
mod sessions;
mod stale_edges;
mod status;
mod supplied_files;
mod taken_box;
mod undeclared_inputs;
mod values;
mod wanted_files;

pub use bulk::{nx_inputs, nx_outputs, nx_users};
pub use counts::{nx_edge_count, nx_file_count, nx_rule_count};
pub use deps_logs::{nx_join_deps, nx_log_read};
pub use dirty_edges::nx_dirtied;
pub use discovered_inputs::{nx_is_unknown, nx_join_discovered};
pub use edges::{
    nx_edge_file, nx_edge_place, nx_explicit_inputs, nx_explicit_outputs, nx_input, nx_is_phony,
    nx_output, nx_rule_name, nx_validation,
};
pub use faults::{nx_fault_file, nx_fault_kind, nx_fault_line, nx_fault_place};
pub use files::{nx_file_named, nx_maker, nx_path, nx_user, nx_validation_user};
pub use laws::{all_words_can_be_given, outputs_never_fail};
pub use loads::{nx_load, nx_wanted};
pub use made_from::nx_made_from;
pub use opened_files::nx_opened;
pub use pages::{nx_affected, nx_found, nx_needed, nx_page, nx_page_mark};
pub use paths::{PathStep, nx_path_between};
pub use picked_targets::nx_pick_target;
pub use program_runs::{nx_run, nx_run_errors, nx_run_output};
pub use rule_and_target_lists::{nx_default, nx_root, nx_rule_name_at};
pub use session::Session;
pub use sessions::{nx_add_absent, nx_add_file, nx_close, nx_open, nx_version};
pub use stale_edges::{nx_stale, nx_stale_edge};
pub use undeclared_inputs::{EdgeInput, nx_undeclared};
pub use values::{nx_command, nx_variable};

// Calls that are made twice, with the same arguments. C does not see them.
pub use one_answer::counts::{edge_count_twice, file_count_twice, rule_count_twice};
pub use one_answer::edge_lists::{affected_twice, dirtied_twice, needed_twice, page_twice};
pub use one_answer::edges::{
    edge_file_twice, edge_place_twice, explicit_inputs_twice, explicit_outputs_twice, input_twice,
    inputs_twice, is_phony_twice, output_twice, outputs_twice, rule_name_twice, validation_twice,
};
pub use one_answer::faults::{
    fault_file_twice, fault_kind_twice, fault_line_twice, fault_place_twice,
};
pub use one_answer::files::{
    file_named_twice, maker_twice, path_twice, user_twice, users_twice, validation_user_twice,
};
pub use one_answer::graphs::graph_is_sound;
pub use one_answer::lists::{
    default_twice, found_twice, opened_twice, page_mark_twice, root_twice, rule_name_at_twice,
    wanted_twice,
};
pub use one_answer::loads::load_twice;
pub use one_answer::logs::{
    is_unknown_twice, join_deps_twice, join_discovered_twice, log_read_twice, undeclared_twice,
};
pub use one_answer::paths::path_between_twice;
pub use one_answer::runs::{run_errors_twice, run_output_twice, run_twice};
pub use one_answer::sessions::{
    add_absent_twice, add_file_twice, close_twice, open_twice, version_twice,
};
pub use one_answer::stale_edges::{stale_edge_twice, stale_twice};
pub use one_answer::targets::{made_from_twice, pick_target_twice};
pub use one_answer::values::{command_twice, variable_twice};
