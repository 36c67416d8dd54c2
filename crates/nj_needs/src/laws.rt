//! Laws of the order of the commands.

ghost use Rattle.nj_needs.specs.Cited.{FuelIsEnough, EdgesComeAfterMakers, CommandsAreTheReached, CommandsComeOnce, CommandsComeAfterNeeds, FirstPlacesAreOne, MarkKeepsTheRest, PagesJoin, RestIsSuffix};

/// The unfolded order has fuel enough: with more of it the order is the same. So an edge unfolds to
/// the unfolded order of each of its makers, in turn, and then the edge.
pub fn unfolding_law()
    ensures fuel { FuelIsEnough }
    ensures edges { EdgesComeAfterMakers }
{}

/// The needed commands are exactly the commands of the edges that the targets reach; no command is
/// repeated; and each comes after all others that its edge needs by any chain, also through phony
/// edges.
pub fn order_law()
    ensures reached { CommandsAreTheReached }
    ensures once { CommandsComeOnce }
    ensures after { CommandsComeAfterNeeds }
{}

/// The mark after an edge is determined: an edge has exactly one first place in the unfolded order.
pub fn place_law()
    ensures { FirstPlacesAreOne }
{}

/// The rest at a mark is a suffix of the needed commands. The rest after some edges of a walk is
/// the rest at the mark after them. So if each run continues at the mark of the run before, their
/// pages, one after another, and then the rest after the last are the rest at the first mark.
pub fn page_law()
    ensures keeps { MarkKeepsTheRest }
    ensures join { PagesJoin }
    ensures suffix { RestIsSuffix }
{}
