//! Laws of clean paths.

ghost use Rattle.nj_text.specs.Cited.{CleanedPathsAreClean, CleanPathsStay, CleaningIsIdempotent};

/// A cleaned path is clean: it is `.` or `/`, or no component of it is empty or `.`, and `..` comes
/// only before all other components, and never in an absolute path.
pub fn cleaned_paths_are_clean()
    ensures { CleanedPathsAreClean }
{}

/// Cleaning leaves a clean path unchanged.
pub fn clean_paths_stay()
    ensures { CleanPathsStay }
{}

/// Cleaning a path twice is cleaning it once.
pub fn cleaning_is_idempotent()
    ensures { CleaningIsIdempotent }
{}
