//! Laws of the grammar of statements.

ghost use Rattle.nj_manifest.specs.Cited.{StatementsAreTheForms, MissingLinesAreLacking, EntriesAreTheForms, NextEntriesAreTheForms, FaultsAreLeftmost, VersionsAreTheForms, DyndepFaultsAreLeftmost, UnitsOfStringsAreApart};

/// A statement, or `None` at the end, is read from lines exactly if the forms of Ninja's manual
/// allow it.
pub fn statements_are_the_forms()
    ensures { StatementsAreTheForms }
{}

/// A rule without `command`, a rule with only one of the two keys of a response file, and a pool
/// without `depth` are refused for the missing line exactly if each line of the block has its form.
pub fn missing_lines_are_lacking()
    ensures { MissingLinesAreLacking }
{}

/// A fault of syntax is at the first element with which no statement continues: whatever follows
/// it, the result is this fault. After the elements before it a statement does continue, with the
/// element that the fault names as expected.
pub fn faults_are_leftmost()
    ensures { FaultsAreLeftmost }
{}

/// A line of a dyndep file is read as an entry exactly if it has the form of an entry.
pub fn dyndep_entries_are_the_forms()
    ensures { EntriesAreTheForms }
{}

/// An entry of a dyndep file, or `None` at the end, is read from lines exactly if the forms allow
/// it.
pub fn next_entries_are_the_forms()
    ensures { NextEntriesAreTheForms }
{}

/// The version of a dyndep file is read from lines exactly where the form allows it.
pub fn dyndep_versions_are_the_forms()
    ensures { VersionsAreTheForms }
{}

/// A fault of an entry of a dyndep file is at the first element with which no entry continues:
/// whatever follows it, the result is this fault. After the elements before it an entry does
/// continue, with the element that the fault names as expected; before a line that is one too many
/// the entry is complete.
pub fn dyndep_faults_are_leftmost()
    ensures { DyndepFaultsAreLeftmost }
{}

/// Each unit of a text has a place of its own, and so has each unit that is left after the version
/// of a dyndep file, and after an entry.
pub fn units_of_strings_are_apart()
    ensures { UnitsOfStringsAreApart }
{}
