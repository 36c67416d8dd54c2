//! What the contracts of public calls leave open: each function makes one call twice, with the same
//! arguments, and its contract says what the two answers have in common.
//!
//! The proof of a function sees the contract of the call alone. So answers that the contract allows
//! differ only in what the function's documentation names as free.
#![tactic(auto)]

mod answers;
mod asks;
mod audits;
mod deps;
mod graph;
mod keys;
mod needs;
mod runs;
mod tools;

pub use answers::{
    affected_answer_law, answer_law, audit_answer_law, draw_answer_law, json_answer_law,
    keys_answer_law, known_answer_law, misuse_law, stale_answer_law, tests_answer_law,
    times_answer_law, why_answer_law,
};
pub use asks::{
    ask_read_words, ask_words, made_from, refuse_folder, refuse_input, refuse_words,
    report_out_of_memory, with_discovered,
};
pub use audits::{
    audit, findings_extend, findings_push, findings_push_at, has_generator, kinds_from_words,
};
pub use deps::{deps_log_read, deps_log_read_with_keys};
pub use graph::edge_values::{
    edge_append_variable, edge_command, edge_command_with_rsp, edge_variable, graph_command,
    graph_command_with_rsp, graph_description_text,
};
pub use graph::edge_words::{
    edge_block_name, edge_block_name_count, edge_block_value, edge_dyndep, edge_pool,
    edge_rule_name, graph_scope_value,
};
pub use graph::joining::{graph_discover, graph_join_deps, graph_join_discovered};
pub use graph::lists::{edges_numbers, file_list_numbers, files_numbers, graph_defaults};
pub use graph::loading::{join_dyndeps, join_present_dyndeps, load};
pub use graph::reached_edges::{
    file_affected_edges, file_list_affected_edges, file_list_needed_commands,
    file_list_needed_edges, file_needed_edges,
};
pub use graph::targets::{
    graph_pick_named, graph_pick_targets, graph_target, graph_targets, pick_target,
};
pub use graph::undeclared::undeclared_inputs;
pub use keys::{
    all_keys, bases_add, bases_append_mapped, content_addition, key_lines, keys_from, page_from,
};
pub use needs::{
    grow_targets, mark_from_numbers, mark_read, mark_to_text, needs_mark, needs_mark_after_page,
    needs_new, needs_next, needs_next_on_page, needs_resume,
};
pub use runs::alike_runs_law;
pub use tools::{
    write_commands, write_compdb, write_edge_objects, write_inputs, write_query, write_rules,
    write_single_commands, write_targets, write_whole,
};
