//! The graph of a run.

ghost use Rattle.std.specs.Prelude.{◌≡◌, ◌<◌, length, option_copied, option_and_then, slice_get, IfOk};
ghost use Rattle.nj_graph.specs.Cited.{main_rules, main_rule_at, rule_name, description, has_description, description_text, NamesRise, ListsMainRules, HasMainRules};

use crate::origins::Origins;
use nj_scope::{Declarations, LateValue, MAIN_SCOPE, Rule};
use nj_statements::Built;
use std::alloc::{AllocError, Global};
use std::marker::Model;

/// The graph of a run: the declarations of its files ("Rules" and "Variables" in the Ninja manual),
/// its edges and its defaults.
#[derive(Drop)]
pub struct Graph {
    pub(crate) built: Built,
    pub(crate) declared: Declared,
}

/// All of a graph except its edges and defaults: one value, so that a function that changes the
/// edges owns only this value at each of its exits.
#[derive(Drop)]
pub(crate) struct Declared {
    pub(crate) declarations: Declarations,
    pub(crate) origins: Origins,
    // The numbers of the rules that are listed.
    pub(crate) main_rules: Vec<usize>,
}

impl Model for Graph {
    ghost use Rattle.nj_graph.specs.Graph.{GraphModel};
    ghost use Rattle.nj_graph.specs.Inside.GraphHeld.{IsGraph};

    ghost Value = { GraphModel };

    ghost view = { λ g. record {
      declarations = g.declared.declarations;
      built = g.built;
      origins = g.declared.origins;
    } };

    ghost invariant = { λ g.
        IsGraph g.declared.declarations g.built g.declared.main_rules.items };
}

impl Graph {
    /// The number of listed rules: the rules of the main file's scope, `phony` among them.
    pub fn main_rule_count(&self) -> usize
        ensures { result ≡ length (main_rules self.now) }
    {
        self.declared.main_rules.len()
    }

    /// The name of the rule at the given index. The rules are in byte order of their names.
    pub fn main_rule(&self, index: usize) -> &[u8]
        requires { index < length (main_rules self.now) }
        ensures { result.now ≡ (main_rule_at self.now index).name }
    {
        rule_name(
            self.declared.declarations.rules(),
            self.declared.main_rules[index],
        )
    }

    /// Whether the rule at the given index has a `description` line.
    pub fn has_description(&self, index: usize) -> bool
        requires { index < length (main_rules self.now) }
        ensures { result ≡ has_description (main_rule_at self.now index) }
    {
        self.description(index).is_some()
    }

    /// The value of the last `description` line of the rule at the given index, not expanded:
    /// `${name}` is a reference, and an escape is the byte that it stands for. The value is empty
    /// if the rule has no `description` line.
    pub fn description_text(&self, alloc: Global, index: usize) -> Result<Vec<u8>, AllocError>
        requires { index < length (main_rules self.now) }
        ensures { IfOk result (λ text.
            text.items ≡ description_text (main_rule_at self.now index)) }
    {
        match self.description(index) {
            Some(value) => value.written(alloc),
            None => Ok(Vec::new(alloc)),
        }
    }

    // The value of the last `description` line of the rule at the given index.
    fn description(&self, index: usize) -> Option<&LateValue>
        requires { index < length (main_rules self.now) }
        ensures { option_copied result ≡ description (main_rule_at self.now index) }
    {
        description_of(
            self.declared.declarations.rules(),
            self.declared.main_rules[index],
        )
    }
}

// The numbers of the rules of the main file's scope, by name.
pub(crate) fn rules_of_main(alloc: Global, rules: &[Rule]) -> Result<Vec<usize>, AllocError>
    ensures { IfOk result (λ numbers. HasMainRules rules.now numbers.items) }
{
    let mut numbers = Vec::new(alloc);
    'rules: for (number, rule) in rules.iter().enumerate() {
        if rule.scope().0 == MAIN_SCOPE.0 {
            numbers.push(number)?;
        }
    }
    numbers.sort_by(|one, other| rule_name(rules, *one).cmp(rule_name(rules, *other)))?;
    Ok(numbers)
}

// The name of the rule with the given number; empty if no rule has the number.
pub(crate) fn rule_name(rules: &[Rule], number: usize) -> &[u8]
    ensures { result.now ≡ rule_name rules.now number }
{
    match rules.get(number) {
        Some(rule) => rule.name(),
        None => b"",
    }
}

// The value of the last `description` line of the rule with the given number; `None` if it has
// none.
fn description_of(rules: &[Rule], number: usize) -> Option<&LateValue>
    ensures { option_copied result ≡ option_and_then description (slice_get rules.now number) }
{
    match rules.get(number) {
        Some(rule) => rule.value(b"description"),
        None => None,
    }
}

/// Which rules are listed: exactly the rules of the main file's scope. If their names are distinct,
/// the names are in strictly ascending byte order, without duplicates.
pub fn rules_by_name()
    ensures rise { NamesRise }
    ensures listed { ListsMainRules }
{}
