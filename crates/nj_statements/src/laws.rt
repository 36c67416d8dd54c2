//! Laws of edges and of the additions of dyndep files to them. A law is a theorem, stated as a
//! function with an empty body.

ghost use Rattle.nj_statements.specs.Cited.{IsInReadingOrder, edge_given, edges_read, assigned_given, assigned_read, NamedInputsAreAdded, AddsToOneEdge, OthersArePendingAsBefore, NamesStay, EntriesAddToTheirEdges, EdgesMakeWhatIsDiscovered, NoFileGetsTwoMakers, PendingEdgesRise, DyndepFilesComeOnce};

/// The k-th edge and its assignment are those of the k-th `build` statement, by the statements
/// before it; there are no other edges.
pub fn edges_by_reading_order()
    ensures edges { IsInReadingOrder edge_given edges_read }
    ensures assigned { IsInReadingOrder assigned_given assigned_read }
{}

/// The discoveries of a dyndep file are added to one edge that is pending on it; that edge is then
/// no longer pending. The other edges stay the same and pending as before, and the values of names,
/// rules and defaults do not change.
pub fn discovered_files_are_added()
    ensures added { AddsToOneEdge }
    ensures unjoined { OthersArePendingAsBefore }
    ensures names { NamesStay }
{}

/// An entry of a dyndep file that has no fault denotes one edge that is pending on the file, and
/// its discoveries are added to that edge: the edge makes the outputs, which no edge made before,
/// and every other file keeps its maker.
pub fn entries_add_to_their_edges()
    ensures added { EntriesAddToTheirEdges }
    ensures makers { EdgesMakeWhatIsDiscovered }
{}

/// If no statement and no entry of a dyndep file has a fault, the outputs of all edges are pairwise
/// distinct paths.
pub fn no_file_gets_two_makers()
    ensures { NoFileGetsTwoMakers }
{}

/// The edges that are pending on dyndep files are in ascending order of number, without duplicates.
pub fn pending_edges_rise()
    ensures { PendingEdgesRise }
{}

/// The dyndep files of the pending edges are in the order of their first edges, without duplicates.
pub fn dyndep_files_come_once()
    ensures { DyndepFilesComeOnce }
{}

/// The files that deps logs name for edges are added to their inputs, and nothing else changes: an
/// edge that waits for its dyndep file still waits for it.
pub fn named_inputs_are_added()
    ensures { NamedInputsAreAdded }
{}
