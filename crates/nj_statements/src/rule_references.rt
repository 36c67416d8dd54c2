//! Which variables of rules refer to which.

ghost use Rattle.std.specs.Prelude.{◌≡◌, ◌<◌, ◌≤◌, ◌+◌, ◌^◌, List, Some, None, true, is_some, option_copied, length, slice_get, slice_index_or, OnOk};
ghost use Rattle.nj_scope.specs.Rules.{RuleModel};
ghost use Rattle.nj_statements.specs.Answers.{HasReferences};
ghost use Rattle.nj_statements.specs.Inside.EdgeSteps.{SameReferences};

use nj_edge_env::KeyReferences;
use nj_scope::{Rule, RuleNo};
use std::alloc::{AllocError, Global};

/// The rule that a statement uses, and its number.
#[derive(Clone, Copy)]
pub(crate) struct UsedRule<'a> {
    pub(crate) number: RuleNo,
    pub(crate) rule: &'a Rule,
    ghost small: { number.0 + 1 < 2 ^ 64 },
}

/// Keeps which keys of the rule refer to which, by its number, unless that is kept already.
pub(crate) fn keep_references(
    alloc: Global,
    kept: &mut Vec<Option<KeyReferences>>,
    rule: UsedRule<'_>,
) -> Result<(), AllocError>
    ensures held { (rules : List RuleModel) → HasReferences kept.old.items rules
        → slice_get rules rule.entry.number.0 ≡ Some rule.entry.rule.now
        → OnOk result (HasReferences kept.new.items rules) }
    ensures kept { OnOk result (is_some (slice_index_or kept.new.items rule.entry.number.0 None)
        ≡ true) }
{
    if references_kept(kept, rule.number).is_some() {
        return Ok(());
    }
    let references = KeyReferences::new(alloc, rule.rule)?;
    make_capacity(kept, rule.number.0 + 1)?;
    kept[rule.number.0] = Some(references);
    Ok(())
}

/// The references kept for the rule with the given number, which must exist.
pub(crate) fn rule_references(kept: &[Option<KeyReferences>], number: RuleNo) -> &KeyReferences
    requires { is_some (slice_index_or kept.now number.0 None) ≡ true }
    ensures { slice_index_or kept.now number.0 None ≡ Some result.now }
{
    match references_kept(kept, number) {
        Some(references) => references,
        None => unreachable!(),
    }
}

// The references kept for the rule with the given number.
fn references_kept(kept: &[Option<KeyReferences>], number: RuleNo) -> Option<&KeyReferences>
    ensures { option_copied result ≡ slice_index_or kept.now number.0 None }
{
    match kept.get(number.0) {
        Some(references) => references.as_ref(),
        None => None,
    }
}

// Reserves capacity for the references of the given number of rules.
fn make_capacity(kept: &mut Vec<Option<KeyReferences>>, count: usize) -> Result<(), AllocError>
    ensures capacity { OnOk result (count ≤ length kept.new.items) }
    ensures same { SameReferences kept.old.items kept.new.items }
{
    'capacity: while kept.len() < count {
        kept.push(None)?;
    }
    Ok(())
}
