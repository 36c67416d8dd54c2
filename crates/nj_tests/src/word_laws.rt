//! Laws of the paths that a word may name.

ghost use Rattle.nj_tests.specs.Cited.{SpellingsNameTheSame, AbsolutePathsNameTheSame, WayRoundNamesTheSame, WordsArePieces, RestsArePieces, PiecesBetweenSigns, PiecesBetweenCuts};

/// Two spellings with the same clean path name the same path, whichever directory the test runs
/// in.
pub fn spellings_name_the_same()
    ensures { SpellingsNameTheSame }
{}

/// A path names the same path as its absolute form.
pub fn absolute_paths_name_the_same()
    ensures { AbsolutePathsNameTheSame }
{}

/// In a directory `name`, `../name/a` names the same path as `a`.
pub fn way_round_names_the_same()
    ensures { WayRoundNamesTheSame }
{}

/// A whole word is a piece, unless it is empty.
pub fn words_are_pieces()
    ensures { WordsArePieces }
{}

/// The rest of a word after a sign is a piece, unless it is empty.
pub fn rests_are_pieces()
    ensures { RestsArePieces }
{}

/// The text between two successive signs is a piece, unless it is empty.
pub fn pieces_between_signs()
    ensures { PiecesBetweenSigns }
{}

/// The text between two successive signs, blanks or quotes is a piece, unless it is empty.
pub fn pieces_between_cuts()
    ensures { PiecesBetweenCuts }
{}
