//! Laws of keys and their lines.

ghost use Rattle.nj_keys.specs.Cited.{AdditionsTell, AdditionsTellContents, DiscoveriesChangeNoKey, EdgesHaveKeys, KeysAreUnique, LinesAreUnique, ListsOfKeysAreUnique, PagesOfLinesJoin, TextsTellFields, MappedTells, TextsTellEdges, TextsTellMapped, KeysTellFields, PagesAreAll, PagesLeaveTheRest, StartLeavesAll};

/// Bases lose nothing: two texts without a zero byte are the same if they agree once numbers stand
/// for the same directories.
pub fn bases_law()
    ensures { MappedTells }
{}

/// Edges with different fields have keys of different texts: the text of an edge's fields
/// determines its command, its response file, its outputs and its inputs, with their kinds and the
/// keys of the edges that make them, in their order.
pub fn fields_law()
    ensures { TextsTellFields }
{}

/// Two edges whose fields have the same text, of two graphs and with bases of their own, have the
/// same command, response file, outputs and inputs except for what their bases stand for; with the
/// same bases and without zero bytes, all of them are the same. Two edges with the same key have
/// the same fields, unless SHA-256 gives the texts of their fields the same digest. The keys of the
/// edges that make the inputs are among the fields, so this is true of those edges too.
pub fn edges_law()
    ensures agree { TextsTellMapped }
    ensures same { TextsTellEdges }
    ensures keys { KeysTellFields }
{}

/// An edge has at most one key, and each edge of a graph has a key.
pub fn keys_law()
    ensures unique { KeysAreUnique }
    ensures all { EdgesHaveKeys }
{}

/// Additions are part of every key: keys with different additions differ, and so do the keys of
/// edges that differ without them, unless SHA-256 gives two texts the same digest. Additions for
/// texts without a zero byte, and then for the contents of files, differ if a text or a content
/// differs, unless SHA-256 gives two contents the same digest.
pub fn additions_law()
    ensures tell { AdditionsTell }
    ensures contents { AdditionsTellContents }
{}

/// A list of edges has only one list of keys and only one text, and the texts of pages, one after
/// another, are the text of all their edges.
pub fn lines_law()
    ensures keys { ListsOfKeysAreUnique }
    ensures unique { LinesAreUnique }
    ensures join { PagesOfLinesJoin }
{}

/// The edges of a page, and then the edges that are left at its mark, are the edges that were left
/// before it. So the lines of pages, each from the mark of the page before until a page has no
/// mark, are together the lines of all edges that were left at the first mark; at the start, every
/// command that the files need is left.
pub fn pages_law()
    ensures rest { PagesLeaveTheRest }
    ensures all { PagesAreAll }
    ensures start { StartLeavesAll }
{}

/// Inputs that builds discovered change no key: an edge has the same key before anything was built
/// and after, if the manifest is the same.
pub fn discoveries_law()
    ensures { DiscoveriesChangeNoKey }
{}
