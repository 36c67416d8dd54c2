//! The tests of a list that are chosen, as text: for people, for `ctest` and for `meson test`.
#![tactic(auto)]

mod patterns;
mod reason_words;
mod style;
mod test_lines;
mod written_tests;

pub use style::Style;
pub use written_tests::tests_text;
