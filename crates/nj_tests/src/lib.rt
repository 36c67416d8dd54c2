//! Tests of a build, and the paths that their words may name.
#![tactic(auto)]

mod test;
mod word_laws;
mod words;

pub use test::Test;
pub use word_laws::{
    absolute_paths_name_the_same, pieces_between_cuts, pieces_between_signs, rests_are_pieces,
    spellings_name_the_same, way_round_names_the_same, words_are_pieces,
};
pub use words::{names_of, path_of, pieces_of};
