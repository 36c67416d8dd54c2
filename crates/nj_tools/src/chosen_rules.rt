//! The rules that are requested by name.

ghost use Rattle.std.specs.Prelude.{◌≡◌, ℕ, List, map, string_bytes, IfOk};
ghost use Rattle.nj_tools.specs.Cited.{is_chosen};

use std::alloc::{AllocError, Global};
use std::marker::Model;

/// The names of rules, in byte order; without any name, all rules are chosen.
#[derive(Drop)]
pub(crate) struct ChosenRules<'a> {
    names: Vec<&'a [u8]>,
}

impl<'a> Model for ChosenRules<'a> {
    ghost use Rattle.std.specs.Prelude.{ℕ, List, map};
    ghost use Rattle.std.specs.List.Sorted.{IsSortedBy};
    ghost use Rattle.nj_graph.specs.Graph.{is_before};

    ghost Value = { List (List ℕ) };

    ghost view = { λ c. map (λ name. name.now) c.names.items };

    ghost invariant = { λ c.
        IsSortedBy (λ name other. is_before name.now other.now) c.names.items };
}

impl<'a> ChosenRules<'a> {
    /// The rules with the given names.
    pub(crate) fn new(alloc: Global, rules: &'a [String]) -> Result<ChosenRules<'a>, AllocError>
        ensures { IfOk result (λ chosen. (rule : List ℕ)
            → is_chosen chosen rule ≡ is_chosen (map string_bytes rules.entry.now) rule) }
    {
        let mut names = Vec::with_capacity(alloc, rules.len())?;
        'rules: for rule in rules {
            names.push(rule.as_bytes())?;
        }
        names.sort_by(|one, other| one.cmp(other))?;
        Ok(ChosenRules { names })
    }

    /// Whether the rule with the given name is chosen.
    pub(crate) fn includes(&self, rule: &[u8]) -> bool
        ensures { result ≡ is_chosen self.now rule.now }
    {
        self.names.as_slice().is_empty() || self.names.binary_search(&rule).is_ok()
    }
}
