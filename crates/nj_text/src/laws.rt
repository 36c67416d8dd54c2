//! Laws of the cut of a text into units and lines.

ghost use Rattle.nj_text.specs.Cited.{UnitsAreTheText, UnitsComeInPlace, LinesAreTheUnits, PartsComeInOrder};

/// The units of a text, one after another, are the text.
pub fn units_are_the_text()
    ensures { UnitsAreTheText }
{}

/// Each unit is at the line and the column that the bytes before it make.
pub fn units_come_in_place()
    ensures { UnitsComeInPlace }
{}

/// The lines of a text, each with its end, are its units.
pub fn lines_are_the_units()
    ensures { LinesAreTheUnits }
{}

/// The parts of a word or a value are at rising ranges of the text.
pub fn parts_come_in_order()
    ensures { PartsComeInOrder }
{}
