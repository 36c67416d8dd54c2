//! Laws of the tools' output. A law is a theorem, stated as a function with an empty body.

ghost use Rattle.nj_tools.specs.Cited.{CompdbIsJson, DepthZeroShowsAll, EdgeLinesAreJson, LinesRise, ListedHaveLines, SortedInputsRise, PrintedStringsDiffer, ListedArePrinted, PlainInputsAreSortedQuotes};

/// Depth 0 shows each tree whole: if no edge needs itself by a chain, more levels change nothing.
pub fn depth_law()
    ensures { DepthZeroShowsAll }
{}

/// The lines of `targets rule` are in strictly ascending byte order, without duplicates; and the
/// paths that have a line are exactly the listed paths.
pub fn list_law()
    ensures rise { LinesRise }
    ensures listed { ListedHaveLines }
{}

/// The output of `inputs` is the printed form of the inputs: in each style, exactly one line per
/// input, and no two lines the same. Unless the style keeps the order of dependencies, the lines
/// are in strictly ascending byte order. Without options the lines are the quotes of the inputs, a
/// line each.
pub fn input_lines_law()
    ensures rise { SortedInputsRise }
    ensures differ { PrintedStringsDiffer }
    ensures listed { ListedArePrinted }
    ensures plain { PlainInputsAreSortedQuotes }
{}

/// The output of `compdb` is one JSON array if all strings of the listed edges are UTF-8: an object
/// for each listed edge, in their order, with exactly the keys `directory`, `command`, `file` and
/// `output`, in this order, with the strings of the edge.
pub fn compdb_law()
    ensures { CompdbIsJson }
{}

/// Each line of `write_edge_objects` is one JSON object if all strings of the edges are UTF-8: the
/// object of an edge, with all its keys in their order. Edges have a line each, by number, and an
/// object never contains a line end.
pub fn edge_objects_law()
    ensures { EdgeLinesAreJson }
{}
