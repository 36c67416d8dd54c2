//! The calls of `nj_graph`.

pub mod edge_values;
pub mod edge_words;
pub mod joining;
pub mod lists;
pub mod loading;
pub mod reached_edges;
pub mod targets;
pub mod undeclared;
