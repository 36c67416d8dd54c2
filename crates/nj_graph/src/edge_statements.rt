//! The rule and the place of the statement of an edge.

ghost use Rattle.std.specs.Prelude.{◌≡◌};
ghost use Rattle.nj_graph.specs.Cited.{OfEdge, detail_of_edge, edge_of, rule_name_at};

use crate::handles::Edge;
use nj_faults::PlaceRef;

impl<'g> Edge<'g> {
    /// The name of its rule, which is the rule that was in force before its statement.
    pub fn rule_name(self) -> &'g [u8]
        ensures { OfEdge (edge_of self.entry) (λ entries number.
            result.now ≡ rule_name_at entries number) }
    {
        self.graph.rule_name(self.number)
    }

    /// The place of its statement: the file, by the name under which it was opened, and the first
    /// byte there.
    pub fn place(self) -> PlaceRef<'g>
        ensures file { result.file.now ≡ (detail_of_edge (edge_of self.entry)).file }
        ensures spot { result.spot ≡ (detail_of_edge (edge_of self.entry)).spot }
    {
        self.graph.edge_place(self.number)
    }
}
