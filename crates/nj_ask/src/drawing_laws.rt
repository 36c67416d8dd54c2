//! What all drawings have in common.

ghost use Rattle.nj_ask.specs.Cited.{EndsAreDrawn, NeededAreDrawn, NodesAreDistinct, NodesAreLimited};

/// Each node of a drawing stands for a different edge or file, and there are never more nodes than
/// the limit; each arrow connects nodes that have a line; and where the limits leave nothing out,
/// each edge that the files need is drawn.
pub fn drawing_law()
    ensures distinct { NodesAreDistinct }
    ensures limited { NodesAreLimited }
    ensures ends { EndsAreDrawn }
    ensures needed { NeededAreDrawn }
{}
