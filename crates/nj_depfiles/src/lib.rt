//! Depfiles: the inputs that a compiler writes for one target, as a rule of Make ("C/C++ header
//! dependencies" in the Ninja manual).
#![tactic(auto)]

mod depfile;
mod depfile_fault;
mod pieces;
mod reading;

pub use depfile::Depfile;
pub use depfile_fault::DepfileFault;
pub use nj_names::HashKeys;
