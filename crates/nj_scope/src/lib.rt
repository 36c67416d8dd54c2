//! The files of a run of Ninja, and the scopes of their variables and rules.
#![tactic(auto)]

mod declarations;
mod deferred;
mod laws;
mod memory_files;
mod pool_depths;
mod pools;
mod rule;
mod scopes;
mod source;
mod table;

pub use declarations::{Declarations, MAIN_SCOPE, PHONY, is_pool_or_dyndep};
pub use deferred::LateValue;
pub use laws::{lists_by_reading_order, rules_in_force, values_by_reading_order};
pub use memory_files::MemoryFiles;
pub use nj_names::HashKeys;
pub use pool_depths::is_depth;
pub use rule::{Rule, RuleNo};
pub use scopes::ScopeNo;
pub use source::{FileSource, SourceFault};
pub use table::FileTable;
