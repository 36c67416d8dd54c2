//! Laws of runs.

ghost use Rattle.nj_c.specs.Cited.{AllWordsCanBeGiven, OutputsNeverFail};

/// Each list of words without zero bytes can be passed, as a text with a zero byte after each word.
pub fn all_words_can_be_given()
    ensures { AllWordsCanBeGiven }
{}

/// A run that is kept never ends as one whose standard output could not be written.
pub fn outputs_never_fail()
    ensures { OutputsNeverFail }
{}
