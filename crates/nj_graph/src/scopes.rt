//! The scopes of a graph, and their bindings after all statements.

ghost use Rattle.std.specs.Prelude.{◌≡◌, ◌<◌, ℕ, List, [], ◌∷◌, length, option_copied};
ghost use Rattle.nj_graph.specs.Cited.{OfStatements, Contains, ReadStatement, scope_of, scopes_opened, value_if_bound, IsScope, parent_at, OfEdge, detail_of_edge, edge_of, IsGraphOf, scope_number_at};

use crate::graph::Graph;
use crate::handles::Edge;
use nj_scope::ScopeNo;

impl Graph {
    /// The number of scopes: the main file's, which has the number 0, and one more for each file
    /// that a `subninja` statement opened, numbered in reading order ("Evaluation and scoping" in
    /// the Ninja manual).
    pub fn scope_count(&self) -> usize
        ensures held { result ≡ length self.now.declarations.scopes }
        ensures stated { OfStatements self.now (λ entries. result ≡ scopes_opened entries) }
    {
        self.declared.declarations.scope_count()
    }

    /// The value of a name, such as `builddir`, in the scope with the given number after all
    /// statements: the last binding of the scope itself, else the binding of the nearest enclosing
    /// scope that binds the name ("Evaluation and scoping" in the Ninja manual). `None` if none of
    /// the scopes binds the name.
    pub fn scope_value(&self, scope: ScopeNo, name: &[u8]) -> Option<&[u8]>
        requires { scope.0 < length self.now.declarations.scopes }
        ensures main { OfStatements self.now (λ entries.
            scope.0 ≡ 0 → option_copied result ≡ value_if_bound entries (0 ∷ []) name.now) }
        ensures stated { (entries : List ReadStatement) (e : ReadStatement)
            → IsGraphOf self.now entries → Contains entries e → e.scope ≡ scope.0
            → option_copied result ≡ value_if_bound entries (scope_of e) name.now }
        ensures within { (entries : List ReadStatement) (around : List ℕ)
            → IsGraphOf self.now entries
            → IsScope (parent_at self.now.declarations.scopes) scope.0 (scope.0 ∷ around)
            → option_copied result ≡ value_if_bound entries (scope.0 ∷ around) name.now }
    {
        self.declared.declarations.value_if_bound(scope, name)
    }
}

impl<'g> Edge<'g> {
    /// The number of the scope of its statement ("Evaluation and scoping" in the Ninja manual).
    pub fn scope(self) -> ScopeNo
        ensures there { result.0 < length (edge_of self.entry).graph.declarations.scopes }
        ensures held { result.0 ≡ (detail_of_edge (edge_of self.entry)).scope }
        ensures stated { OfEdge (edge_of self.entry) (λ entries number.
            result.0 ≡ scope_number_at entries number) }
    {
        let graph = self.graph;
        graph.built.scope(self.number)
    }
}
