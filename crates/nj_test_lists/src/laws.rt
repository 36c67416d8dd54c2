//! Laws of lists of tests.

ghost use Rattle.nj_test_lists.specs.Cited.{EachValueIsOneTest, FileStringsAreTexts, OneReading, GoodListsAreRead, EachMesonValueIsOneTest, FilesOfTargetsAreTexts};

/// Each value of a list by CTest is one test, in the order of the list.
pub fn each_value_is_one_test()
    ensures { EachValueIsOneTest }
{}

/// Each string of a property that may name a file is a text of its test.
pub fn file_strings_are_texts()
    ensures { FileStringsAreTexts }
{}

/// Two readings of a list by CTest have the same tests.
pub fn one_reading()
    ensures { OneReading }
{}

/// A list by CTest is not refused, unless memory runs out.
pub fn good_lists_are_read()
    ensures { GoodListsAreRead }
{}

/// Each value of a list by Meson is one test, in the order of the list.
pub fn each_meson_value_is_one_test()
    ensures { EachMesonValueIsOneTest }
{}

/// Each file of a target on which a test of Meson depends is a text of the test.
pub fn files_of_targets_are_texts()
    ensures { FilesOfTargetsAreTexts }
{}
