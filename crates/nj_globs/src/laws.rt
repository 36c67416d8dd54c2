//! Laws of globs.

ghost use Rattle.nj_globs.specs.Cited.{LettersWriteThePattern, OneReading, GoodPatternsAreRead, OneFault, DoubleStarMatchesAll, PlainPatternsMatchThemselves};

/// The letters of a pattern, written one after another, are the pattern.
pub fn letters_write_the_pattern()
    ensures { LettersWriteThePattern }
{}

/// Two readings of a pattern are the same.
pub fn one_reading()
    ensures { OneReading }
{}

/// A pattern with parts is not refused, unless memory runs out.
pub fn good_patterns_are_read()
    ensures { GoodPatternsAreRead }
{}

/// A pattern is refused for one reason, and at one byte, unless memory runs out.
pub fn one_fault()
    ensures { OneFault }
{}

/// `**` matches every path.
pub fn double_star_matches_all()
    ensures { DoubleStarMatchesAll }
{}

/// A pattern without special bytes matches only itself.
pub fn plain_patterns_match_themselves()
    ensures { PlainPatternsMatchThemselves }
{}
