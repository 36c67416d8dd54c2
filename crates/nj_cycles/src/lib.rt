//! The cycle check of a build graph: the first edge that lies on a dependency cycle, if any.
#![tactic(auto)]

mod check;
mod finishing_order;
mod maker_lists;
mod on_cycle;
mod reversed;

pub use check::{acyclic_law, first_on_cycle, makers_first};
pub use maker_lists::EdgeInputs;
