//! The rules of all scopes with their places, and the rules of edges.

ghost use Rattle.std.specs.Prelude.{◌≡◌, ◌<◌, Some, length, option_map, slice_get};
ghost use Rattle.nj_graph.specs.Cited.{OfEdge, OfStatements, rules_read, detail_of_edge, edge_of, place_text, rule_place_at, rule_places, rule_number_at};

use crate::graph::Graph;
use crate::handles::Edge;
use nj_faults::PlaceRef;
use nj_scope::{Rule, RuleNo};

impl Graph {
    /// The rules of all scopes in the order of their numbers: `phony`, which always exists and has
    /// no lines, and then the rules that `rule` statements declare, in reading order ("Rules" in
    /// the Ninja manual). Rules of different scopes may have the same name. The lines of a rule are
    /// kept as they were written: `LateValue::written` returns a value as a text.
    pub fn rules(&self) -> &[Rule]
        ensures held { result.now ≡ self.now.declarations.rules }
        ensures stated { OfStatements self.now (λ entries. result.now ≡ rules_read entries) }
    {
        self.declared.declarations.rules()
    }

    /// The place of the `rule` statement that declares the rule with the given number, as in
    /// `rules`: its file, by the name under which it was opened, and its first byte there. `None`
    /// for `phony`, which no statement declares, and past the last rule.
    pub fn rule_place(&self, rule: RuleNo) -> Option<PlaceRef<'_>>
        ensures held { option_map place_text result ≡ rule_place_at self.now.origins.rules rule.0 }
        ensures stated { OfStatements self.now (λ entries.
            option_map place_text result ≡ rule_place_at (rule_places entries) rule.0) }
    {
        self.declared.origins.rule_place(rule)
    }
}

impl<'g> Edge<'g> {
    /// Its rule, which is the rule that was in force before its statement.
    pub fn rule(self) -> &'g Rule
        ensures held { slice_get (edge_of self.entry).graph.declarations.rules
            (detail_of_edge (edge_of self.entry)).rule ≡ Some result.now }
        ensures stated { OfEdge (edge_of self.entry) (λ entries number.
            slice_get (rules_read entries) (rule_number_at entries number) ≡ Some result.now) }
    {
        &self.graph.rules()[self.rule_number().0]
    }

    /// The number of its rule in [`Graph::rules`].
    pub fn rule_number(self) -> RuleNo
        ensures there { result.0 < length (edge_of self.entry).graph.declarations.rules }
        ensures held { result.0 ≡ (detail_of_edge (edge_of self.entry)).rule }
        ensures stated { OfEdge (edge_of self.entry) (λ entries number.
            result.0 ≡ rule_number_at entries number) }
    {
        let graph = self.graph;
        graph.built.rule(self.number)
    }
}
