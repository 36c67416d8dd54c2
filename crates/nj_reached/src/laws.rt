//! Laws of the changes of a graph.

ghost use Rattle.nj_reached.specs.Cited.{GraphsNoticeTheChange};

/// What counts in a directory, unless it is a program of a test, is affected or changed. So
/// [`nj_chosen::own_programs_choose_anyway`] holds for the paths of [`crate::changed_paths`].
pub fn graphs_notice_the_change()
    ensures { GraphsNoticeTheChange }
{}
