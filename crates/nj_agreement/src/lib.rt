//! When two answers of one call are the same: results, graphs, and what they were read from; with
//! the lemmas that compare the calls of the libraries.
//!
//! The crate has no functions: the crates that make a call twice use it to state and prove their
//! contracts.
#![tactic(auto)]
