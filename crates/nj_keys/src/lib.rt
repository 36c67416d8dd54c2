//! Keys of edges, under which a cache may keep the outputs of their commands.
#![tactic(auto)]

mod additions;
mod all_commands;
mod bases;
mod fields;
mod keys;
mod laws;
mod pages;

pub use additions::content_addition;
pub use all_commands::all_keys;
pub use bases::Bases;
pub use laws::{
    additions_law, bases_law, discoveries_law, edges_law, fields_law, keys_law, lines_law,
    pages_law,
};
pub use pages::{EdgeKey, KeyPage, Page, key_lines, keys_from, page_from};
