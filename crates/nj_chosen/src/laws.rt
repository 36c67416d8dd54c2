//! Laws of chosen tests.

ghost use Rattle.nj_chosen.specs.Cited.{ChosenAreLeast, OthersNameNothing, OwnProgramsChooseAnyway};

/// If a test has no reason of its own, none of its words names an affected output, a changed file,
/// an output that needs either, or a directory in which either counts.
pub fn others_name_nothing()
    ensures { OthersNameNothing }
{}

/// A test whose own program is affected or changed has the same reason whether only the programs of
/// the other tests do not count in a directory, or its own does not either.
pub fn own_programs_choose_anyway()
    ensures { OwnProgramsChooseAnyway }
{}

/// The affected and the chosen tests are the smallest sets that have all tests with a reason of
/// their own and, with each test, the tests that it brings.
pub fn chosen_are_least()
    ensures { ChosenAreLeast }
{}
