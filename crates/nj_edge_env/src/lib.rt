//! The values of variables for an edge, as in Ninja's `EdgeEnv`: the bindings of its block, and the
//! late strings, which are the values of its rule's variables when the rule is used.
//!
//! The value of a name for an edge is the first of the following that exists:
//!
//! 1. for `in`, `in_newline` and `out`, the paths of the edge's explicit inputs or outputs. They are
//!    quoted for a shell, unless the name is used for `rspfile`, `depfile` or `dyndep`
//!    (`edge_paths`);
//! 2. the binding of the edge's block, as it was expanded when the statement was read: by the scope
//!    of the file alone, so a line of a block sees no other line of it (`block_values`);
//! 3. the last line of the rule with this key, where each name in it is looked up from step 1 on, for
//!    the same edge. For `command`, `rspfile` and `rspfile_content` an empty line does not count
//!    (`late_strings`). Lines may not refer to each other in a cycle (`key_cycles`);
//! 4. the binding of the file's scope after all statements, then the scope around it, and so on to
//!    the main file's (`nj_scope`). For `command`, `rspfile` and `rspfile_content` of a phony edge
//!    this step is skipped;
//! 5. nothing: the value is empty.
//!
//! The pool and the dyndep file of an edge are looked up at its statement, so that step 4 uses the
//! state of the scope at that point. So are the names in the words of a `build` line, for which only
//! steps 2 and 4 apply.
#![tactic(auto)]

mod binding_order;
mod block_values;
mod edge_paths;
mod key_cycles;
mod key_memo;
mod key_references;
mod late_edge;
mod late_strings;
mod laws;
mod name_values;
mod number_lists;
mod path_names;

pub use block_values::Blocks;
pub use key_references::KeyReferences;
pub use late_edge::LateEdge;
pub use laws::{block_before_rule_before_file, computed_cycle_is_found, late_strings_are_given};
