//! Globs: patterns for whole paths, compared byte by byte, as the paths were given.
//!
//! | Part | Stands for |
//! |---|---|
//! | `?` | one byte other than `/` |
//! | `*` | any number of bytes other than `/` |
//! | `**` | any bytes |
//! | `**/` at the beginning or after a `/` | any bytes that end in `/`, or none |
//! | `[abc]`, `[a-z]` | one of the listed bytes, but never `/` |
//! | `[!abc]`, `[^abc]` | one byte that is not listed, and never `/` |
//! | `\` and a byte | that byte |
//! | any other byte | itself |
//!
//! So `**/x` matches `x` and `a/b/x`, and `a/**/b` matches `a/b`. In a set a `]` that comes first is
//! one of its bytes, and so are a `-` at either end and a byte after a `\`.
#![tactic(auto)]

mod fits;
mod glob;
mod glob_fault;
mod laws;
mod letters;
mod parts;
mod reading;

pub use glob::Glob;
pub use glob_fault::GlobFault;
pub use laws::{
    double_star_matches_all, good_patterns_are_read, letters_write_the_pattern, one_fault,
    one_reading, plain_patterns_match_themselves,
};
