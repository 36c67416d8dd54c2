//! What an edge and its scope bind.

ghost use Rattle.std.specs.Prelude.{◌≡◌, ◌<◌, ◌∷◌, ℕ, List, length, option_copied};
ghost use Rattle.nj_one_answer.specs.Cited.{edge_of, OfEdge, OfStatements, IsScope, parent_at};

use nj_graph::{Edge, Graph, ScopeNo};

/// For a graph of statements.
pub fn edge_block_name_count<'g>(edge: Edge<'g>) -> (usize, usize)
    ensures { OfEdge (edge_of edge.entry) (λ entries number. result.0 ≡ result.1) }
{
    (edge.block_name_count(), edge.block_name_count())
}

/// For a graph of statements.
pub fn edge_block_name<'g>(edge: Edge<'g>, index: usize) -> (Option<&'g [u8]>, Option<&'g [u8]>)
    ensures { OfEdge (edge_of edge.entry) (λ entries number.
        option_copied result.0 ≡ option_copied result.1) }
{
    (edge.block_name(index), edge.block_name(index))
}

/// For a graph of statements.
pub fn edge_block_value<'g>(edge: Edge<'g>, name: &[u8]) -> (Option<&'g [u8]>, Option<&'g [u8]>)
    ensures { OfEdge (edge_of edge.entry) (λ entries number.
        option_copied result.0 ≡ option_copied result.1) }
{
    (edge.block_value(name), edge.block_value(name))
}

/// For a graph of statements.
pub fn edge_pool<'g>(edge: Edge<'g>) -> (Option<&'g [u8]>, Option<&'g [u8]>)
    ensures { OfEdge (edge_of edge.entry) (λ entries number.
        option_copied result.0 ≡ option_copied result.1) }
{
    (edge.pool(), edge.pool())
}

/// For a graph of statements.
pub fn edge_dyndep<'g>(edge: Edge<'g>) -> (Option<&'g [u8]>, Option<&'g [u8]>)
    ensures { OfEdge (edge_of edge.entry) (λ entries number.
        option_copied result.0 ≡ option_copied result.1) }
{
    (edge.dyndep(), edge.dyndep())
}

/// For a graph of statements.
pub fn edge_rule_name<'g>(edge: Edge<'g>) -> (&'g [u8], &'g [u8])
    ensures { OfEdge (edge_of edge.entry) (λ entries number. result.0.now ≡ result.1.now) }
{
    (edge.rule_name(), edge.rule_name())
}

/// For a graph of statements, and a scope whose enclosing scopes end at an outermost scope, as
/// those of a statement do.
pub fn graph_scope_value<'a>(
    graph: &'a Graph,
    scope: ScopeNo,
    name: &[u8],
) -> (Option<&'a [u8]>, Option<&'a [u8]>)
    requires { scope.0 < length graph.now.declarations.scopes }
    ensures { OfStatements graph.now (λ entries. (around : List ℕ)
        → IsScope (parent_at graph.now.declarations.scopes) scope.0 (scope.0 ∷ around)
        → option_copied result.0 ≡ option_copied result.1) }
{
    (
        graph.scope_value(scope, name),
        graph.scope_value(scope, name),
    )
}
