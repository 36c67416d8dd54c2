//! Lists of tests, as CTest and Meson write them in JSON.
#![tactic(auto)]

mod ctest_list;
mod laws;
mod list_fault;
mod list_property;
mod meson_list;
mod properties;
mod targets;
mod values;

pub use ctest_list::ctest_tests;
pub use laws::{
    each_meson_value_is_one_test, each_value_is_one_test, file_strings_are_texts,
    files_of_targets_are_texts, good_lists_are_read, one_reading,
};
pub use list_fault::{CTestKey, ListFault, MesonKey, TargetKey};
pub use list_property::ListProperty;
pub use meson_list::meson_tests;
