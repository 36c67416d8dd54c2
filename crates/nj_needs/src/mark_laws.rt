//! Laws of the written form of marks.

ghost use Rattle.nj_needs.specs.Cited.{WrittenMarksAreGiven, GivenMarksAreWritten};

/// The text that is written for a mark denotes that mark.
pub fn written_marks_are_given()
    ensures { WrittenMarksAreGiven }
{}

/// Only the text that is written for a mark denotes it.
pub fn given_marks_are_written()
    ensures { GivenMarksAreWritten }
{}
