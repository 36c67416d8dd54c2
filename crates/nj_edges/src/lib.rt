//! The files and edges of a graph of build statements, by their numbers.
#![tactic(auto)]

mod affected;
mod chains;
mod dirty;
mod dyndep_edges;
mod edge_lists;
mod edges;
mod files_by_kind;
mod graph;
mod input_makers;
mod joined_edges;
mod list_parts;
mod makers;
mod more_inputs;
mod needed;
mod needs_search;
mod roots;
mod rows;
mod search_state;
mod users;

pub use affected::affected_law;
pub use chains::{ChainKinds, Step, path_law};
pub use dirty::dirty_law;
pub use dyndep_edges::JoiningEdges;
pub use edges::{EdgeNo, Edges, Kind, KindEnds};
pub use graph::{CycleEdge, EdgeGraph, Finished};
pub use more_inputs::JoiningInputs;
pub use needs_search::NeedsSearch;
pub use nj_names::{FileNo, Files, HashKeys};
