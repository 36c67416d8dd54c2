//! Laws of the listed edges.

ghost use Rattle.nj_state.specs.Cited.{ListedEdgesAreTheStale};

use nj_needs::order_law;

/// The listed edges are exactly those that the targets need and that have a command and a reason to
/// run. So if nothing is listed, no needed edge with a command is stale.
pub fn listed_edges_law()
    ensures { ListedEdgesAreTheStale }
{
    order_law();
}
