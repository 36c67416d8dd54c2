//! Laws of changed paths.

ghost use Rattle.nj_changes.specs.Cited.{LinesAreRead, SpellingsAreOne, ZeroEndedPathsAreRead};

/// Paths that are written each with a zero byte after it, or each as a line, are read unchanged. A
/// relative path and the absolute path of the same file have the same full path.
pub fn changes_law()
    ensures zeros { ZeroEndedPathsAreRead }
    ensures lines { LinesAreRead }
    ensures spellings { SpellingsAreOne }
{}
