//! Laws of build logs.

ghost use Rattle.nj_build_log.specs.Cited.{LastLineCounts, UnendedLineChangesNothing, FewTabsChangeNothing, WrittenLinesAreRead};

/// The last line of an output counts: a line that is appended to a log replaces the entry of its
/// output, and does not change the entries of other outputs.
pub fn last_line_counts()
    ensures { LastLineCounts }
{}

/// A line without its end changes nothing.
pub fn unended_line_changes_nothing()
    ensures { UnendedLineChangesNothing }
{}

/// A line with fewer than four tabs changes nothing.
pub fn few_tabs_change_nothing()
    ensures { FewTabsChangeNothing }
{}

/// A line that Ninja writes counts, with the numbers that were written.
pub fn written_lines_are_read()
    ensures { WrittenLinesAreRead }
{}
