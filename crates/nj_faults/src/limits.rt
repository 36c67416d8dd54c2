//! How many files may be open at once, and be opened in one run.

/// The most files that may be open at once, the main file among them.
pub const MOST_OPEN: usize = 32;

/// The text of a fault for a file that would be open beside as many.
pub(crate) const TOO_DEEP_TEXT: &str = "more than 32 files open";

/// The most files that may be opened in one run, the main file and repeated ones among them.
pub const MOST_OPENED: usize = 65536;

/// The text of a fault for a file that would be opened after as many.
pub(crate) const TOO_MANY_OPENINGS_TEXT: &str = "more than 65536 files opened";
