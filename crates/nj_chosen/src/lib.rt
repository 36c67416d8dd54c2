//! Which tests a change of files reaches.
#![tactic(auto)]

mod brought;
mod chosen_tests;
mod folders;
mod laws;
mod named;
mod numbers;
mod programs;
mod reason;
mod tables;
mod test_names;
mod test_reasons;

pub use chosen_tests::{Choice, ChosenTests, choose};
pub use laws::{chosen_are_least, others_name_nothing, own_programs_choose_anyway};
pub use named::named_by_tests;
pub use reason::{Link, Reason};
pub use tables::ChangedPaths;
