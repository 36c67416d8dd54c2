//! The text of a Ninja file: its lines, and the identifiers, signs, words and values in them.
//!
//! A [`Lexer`] reads a text from its front, one line at a time, and copies none of it: it returns
//! slices of the text.
#![tactic(auto)]

mod blanks;
mod cleaning;
mod components;
mod cursor;
mod dollar;
mod fault;
mod lanes;
mod laws;
mod lexer;
mod line_start;
mod line_words;
mod lossy;
mod numbers;
mod parts;
mod path_lanes;
mod path_laws;
mod paths;
mod plain_bindings;
mod plain_bytes;
mod plain_words;
mod quote_laws;
mod quotes;
mod runs;
mod sign;
mod spot;
mod state;
mod unit;
mod word;

pub use fault::{BAD_BYTE_TEXT, BAD_ESCAPE_TEXT, LexFault, OUT_OF_MEMORY_TEXT, TAB_TEXT};
pub use laws::{lines_are_the_units, parts_come_in_order, units_are_the_text, units_come_in_place};
pub use lexer::Lexer;
pub use line_start::LineStart;
pub use lossy::Lossy;
pub use numbers::{leading_number, version_of};
pub use path_laws::{clean_paths_stay, cleaned_paths_are_clean, cleaning_is_idempotent};
pub use paths::{TextFault, clean_into, clean_path, is_clean};
pub use plain_bindings::PlainBinding;
pub use plain_words::PlainWord;
pub use quote_laws::shells_take_the_path;
pub use quotes::quote_into;
pub use sign::Sign;
pub use spot::Spot;
pub use word::{Part, Word};
