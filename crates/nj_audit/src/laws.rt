//! The meaning of a command's words.

ghost use Rattle.nj_audit.specs.Cited.{ListedTextsAreNames, QuotedPathsAreWords};

/// Paths that are quoted as in `$in`, with blanks between them, are cut back into the same paths.
pub fn words_law()
    ensures { QuotedPathsAreWords }
{}

/// Texts that a word joins to a list by `=`, `:`, `,` or `;` are names in the word.
pub fn list_law()
    ensures { ListedTextsAreNames }
{}
