//! Rules that no edge uses.

ghost use Rattle.std.specs.Prelude.{◌≡◌, ◌++◌, ◌<◌, ℕ, [], IfOk, OnOk, false, length, slice_index_or};
ghost use Rattle.nj_audit.specs.Cited.{is_used_rule, unused_rules};

use crate::findings::Findings;
use crate::kinds::Kind;
use nj_graph::{Graph, RuleNo};
use std::alloc::{AllocError, Global};

/// Appends the rules that no edge uses.
pub fn find_unused_rules<'a>(
    alloc: Global,
    graph: &'a Graph,
    found: &mut Findings<'a>,
) -> Result<(), AllocError>
    ensures { OnOk result (found.new ≡ found.old ++ unused_rules graph.entry.now) }
{
    let used = used_rules(alloc, graph)?;
    'rules: for (rule, declared) in graph.rules().iter().enumerate() {
        if !used[rule] {
            // `phony` is not declared by a statement.
            if let Some(place) = graph.rule_place(RuleNo(rule)) {
                found.push(place, Kind::UnusedRule, declared.name())?;
            }
        }
    }
    Ok(())
}

/// Returns for each rule whether an edge uses it.
#[tactic(auto, using(crate::proofs::HandleLemmas::numbers_there))]
fn used_rules(alloc: Global, graph: &Graph) -> Result<Vec<bool>, AllocError>
    ensures len { IfOk result (λ used.
        length used.items ≡ length graph.now.declarations.rules) }
    ensures used { IfOk result (λ used. (rule : ℕ) → rule < length graph.now.declarations.rules
        → slice_index_or used.items rule false ≡ is_used_rule graph.now rule) }
{
    let mut used = vec![in alloc; false; graph.rules().len()]?;
    'edges: for edge in graph.edges() {
        used[edge.rule_number().0] = true;
    }
    Ok(used)
}
