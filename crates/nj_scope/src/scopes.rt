//! The scopes of variables and rules.

ghost use Rattle.std.specs.Prelude.{◌≡◌, ℕ, ◌+◌, ◌<◌, ◌&&◌, ◌==◌, ◌++◌, List, Option, Some, None, length, option_copied, option_map, IfSome, IfOk, OnOk, OnErr, if◌then◌else◌, bytes_eq};
ghost use Rattle.nj_scope.specs.Cited.{IsScope, first_given, value_in, expanded, parent_at, bound_at, rule_at, lookup, values_text, word_model};

use crate::deferred::written_len;
use crate::rule::RuleNo;
use indexmap::IndexMap;
use nj_names::HashKeys;
use nj_text::{Part, Word};
use std::alloc::{AllocError, Global};
use std::marker::Model;

/// The number of a scope in its run. The main file's is 0; each `subninja` opens the next one
/// ("Evaluation and scoping" in the Ninja manual).
#[derive(Clone, Copy, Debug, PartialEq, Eq)]
pub struct ScopeNo(pub usize);

// One scope: the number of the scope around it, and its own bindings and rules.
#[derive(Drop)]
struct Scope {
    parent: Option<ScopeNo>,
    values: IndexMap<Vec<u8>, Vec<u8>, HashKeys>,
    rules: IndexMap<Vec<u8>, RuleNo, HashKeys>,
}

/// The variables and rules of a run, by scope. The main file's scope has the number 0; each
/// `subninja` opens another, which sees the bindings and rules of the scopes around it, and may
/// shadow them ("Evaluation and scoping" in the Ninja manual).
#[derive(Drop)]
pub(crate) struct Scopes {
    alloc: Global,
    keys: HashKeys,
    scopes: Vec<Scope>,
}

impl Model for Scopes {
    ghost use Rattle.std.specs.Prelude.{List, map};
    ghost use Rattle.nj_scope.specs.Scopes.{ScopeModel};
    ghost use Rattle.nj_scope.specs.Inside.ScopesHeld.{scope_model, ParentsAreEarlier};

    ghost Value = { List ScopeModel };

    ghost view = { λ s. map scope_model s.scopes.items };

    ghost invariant = { λ s. ParentsAreEarlier (map scope_model s.scopes.items) };
}

impl Scopes {
    /// The main file's scope, in which nothing is bound or declared yet.
    pub fn new(alloc: Global, keys: HashKeys) -> Result<Scopes, AllocError>
        ensures count { IfOk result (λ s. length s ≡ 1) }
        ensures outermost { IfOk result (λ s. parent_at s 0 ≡ None) }
        ensures nothing { IfOk result (λ s. (n : ℕ) (name : List ℕ) → bound_at s n name ≡ None) }
        ensures no_rule { IfOk result (λ s. (n : ℕ) (name : List ℕ) → rule_at s n name ≡ None) }
    {
        let mut scopes = Vec::with_capacity(alloc, 1)?;
        scopes.push(Scope {
            parent: None,
            values: IndexMap::with_hasher(alloc, keys),
            rules: IndexMap::with_hasher(alloc, keys),
        })?;
        Ok(Scopes {
            alloc,
            keys,
            scopes,
        })
    }

    /// How many scopes there are.
    pub fn count(&self) -> usize
        ensures { result ≡ length self.now }
    {
        self.scopes.len()
    }

    /// Opens a scope within another. Returns its number, which is the next one.
    pub fn open(&mut self, parent: ScopeNo) -> Result<ScopeNo, AllocError>
        requires { parent.0 < length self.old }
        ensures number { IfOk result (λ n. n.0 ≡ length self.old) }
        ensures count { OnOk result (length self.new ≡ length self.old + 1) }
        ensures within { OnOk result (parent_at self.new (length self.old) ≡ Some parent.0) }
        ensures others { (n : ℕ) → n < length self.old
            → parent_at self.new n ≡ parent_at self.old n }
        ensures bound { (n : ℕ) (x : List ℕ) → bound_at self.new n x ≡ bound_at self.old n x }
        ensures rules { (n : ℕ) (x : List ℕ) → rule_at self.new n x ≡ rule_at self.old n x }
        ensures refused { OnErr result (self.new ≡ self.old) }
    {
        let number = ScopeNo(self.scopes.len());
        self.scopes.push(Scope {
            parent: Some(parent),
            values: IndexMap::with_hasher(self.alloc, self.keys),
            rules: IndexMap::with_hasher(self.alloc, self.keys),
        })?;
        Ok(number)
    }

    /// Binds the name in the given scope, in place of an earlier value there.
    pub fn bind(&mut self, scope: ScopeNo, name: &[u8], value: Vec<u8>) -> Result<(), AllocError>
        requires { scope.0 < length self.old }
        ensures bound { OnOk result ((n : ℕ) (x : List ℕ) → bound_at self.new n x
            ≡ (if n == scope.0 && bytes_eq x name.now
            then Some value.items else bound_at self.old n x)) }
        ensures refused { OnErr result ((n : ℕ) (x : List ℕ)
            → bound_at self.new n x ≡ bound_at self.old n x) }
        ensures rules { (n : ℕ) (x : List ℕ) → rule_at self.new n x ≡ rule_at self.old n x }
        ensures parents { (n : ℕ) → parent_at self.new n ≡ parent_at self.old n }
        ensures count { length self.new ≡ length self.old }
    {
        set_value(self.alloc, &mut self.scopes[scope.0].values, name, value)
    }

    /// Declares the rule with the given number under a name for which the scope declares no rule
    /// yet.
    pub fn declare(&mut self, scope: ScopeNo, name: &[u8], rule: RuleNo) -> Result<(), AllocError>
        requires scope { scope.0 < length self.old }
        requires new { rule_at self.old scope.0 name.now ≡ None }
        ensures declared { OnOk result ((n : ℕ) (x : List ℕ) → rule_at self.new n x
            ≡ (if n == scope.0 && bytes_eq x name.now then Some rule.0 else rule_at self.old n x)) }
        ensures refused { OnErr result ((n : ℕ) (x : List ℕ)
            → rule_at self.new n x ≡ rule_at self.old n x) }
        ensures bound { (n : ℕ) (x : List ℕ) → bound_at self.new n x ≡ bound_at self.old n x }
        ensures parents { (n : ℕ) → parent_at self.new n ≡ parent_at self.old n }
        ensures count { length self.new ≡ length self.old }
    {
        let key = Vec::from_slice(self.alloc, name)?;
        self.scopes[scope.0].rules.insert(key, rule)?;
        Ok(())
    }

    /// Returns the number of the rule that the given scope declares under the name, else of the
    /// rule of the nearest scope around it that declares one, or `None`.
    pub fn rule(&self, scope: ScopeNo, name: &[u8]) -> Option<RuleNo>
        requires { scope.0 < length self.now }
        ensures { (around : List ℕ) → IsScope (parent_at self.now) scope.0 around
            → option_map (λ r. r.0) result
            ≡ first_given (λ s. rule_at self.now s name.now) around }
    {
        let mut next = Some(scope);
        'scopes: while let Some(number) = next {
            if let Some(rule) = self.own_rule(number, name) {
                return Some(rule);
            }
            next = self.parent(number);
        }
        None
    }

    /// The value of the name in the given scope: its own, else its value in the nearest scope
    /// around it that binds the name. An unknown name is empty.
    pub fn value(&self, scope: ScopeNo, name: &[u8]) -> &[u8]
        requires { scope.0 < length self.now }
        ensures { (around : List ℕ) → IsScope (parent_at self.now) scope.0 around
            → result.now ≡ value_in (bound_at self.now) around name.now }
    {
        match self.value_if_bound(scope, name) {
            Some(value) => value,
            None => &[],
        }
    }

    /// Returns the value of the name in the given scope: its own, else its value in the nearest
    /// scope around it that binds the name; `None` if no scope does.
    pub fn value_if_bound(&self, scope: ScopeNo, name: &[u8]) -> Option<&[u8]>
        requires { scope.0 < length self.now }
        ensures { (around : List ℕ) → IsScope (parent_at self.now) scope.0 around
            → option_copied result ≡ first_given (λ s. bound_at self.now s name.now) around }
    {
        let mut next = Some(scope);
        'scopes: while let Some(number) = next {
            if let Some(value) = self.own_value(number, name) {
                return Some(value);
            }
            next = self.parent(number);
        }
        None
    }

    // The value that this scope itself binds to the name.
    fn own_value(&self, scope: ScopeNo, name: &[u8]) -> Option<&[u8]>
        requires { scope.0 < length self.now }
        ensures { option_copied result ≡ bound_at self.now scope.0 name.now }
    {
        match self.scopes[scope.0].values.get(name) {
            Some(value) => Some(value.as_slice()),
            None => None,
        }
    }

    /// The number of the rule that this scope itself declares under the name.
    pub fn own_rule(&self, scope: ScopeNo, name: &[u8]) -> Option<RuleNo>
        requires { scope.0 < length self.now }
        ensures { option_map (λ r. r.0) result ≡ rule_at self.now scope.0 name.now }
    {
        self.scopes[scope.0].rules.get(name).copied()
    }

    // The scope around the given one.
    fn parent(&self, scope: ScopeNo) -> Option<ScopeNo>
        requires { scope.0 < length self.now }
        ensures parent { option_map (λ p. p.0) result ≡ parent_at self.now scope.0 }
        ensures earlier { IfSome result (λ p. p.0 < scope.0) }
    {
        self.scopes[scope.0].parent
    }

    /// The value of the word in this scope: its bytes, and the values of the names in it.
    pub fn expand(
        &self,
        alloc: Global,
        scope: ScopeNo,
        word: &Word<'_>,
    ) -> Result<Vec<u8>, AllocError>
        requires { scope.0 < length self.now }
        ensures { (around : List ℕ) → IsScope (parent_at self.now) scope.0 around
            → IfOk result (λ v. v.items
            ≡ expanded (value_in (bound_at self.now) around) (word_model word.now).parts) }
    {
        let mut text = Vec::with_capacity(alloc, written_len(word))?;
        self.append_expanded(scope, word, &mut text)?;
        Ok(text)
    }

    /// Appends to the text the value of the word in this scope.
    pub fn append_expanded(
        &self,
        scope: ScopeNo,
        word: &Word<'_>,
        text: &mut Vec<u8>,
    ) -> Result<(), AllocError>
        requires { scope.0 < length self.now }
        ensures { (around : List ℕ) → IsScope (parent_at self.now) scope.0 around
            → OnOk result (text.new.items ≡ text.old.items
            ++ expanded (value_in (bound_at self.now) around) (word_model word.now).parts) }
    {
        'parts: for part in word.parts.as_slice() {
            match part {
                Part::Bytes(bytes) => text.extend_from_slice(bytes)?,
                Part::Name(name) => text.extend_from_slice(self.value(scope, name))?,
            }
        }
        Ok(())
    }
}

// Sets the value of the name. The name is hashed once; for that it is copied even if it has a
// value, and so keeps its key: most names that files bind are new.
fn set_value(
    alloc: Global,
    values: &mut IndexMap<Vec<u8>, Vec<u8>, HashKeys>,
    name: &[u8],
    value: Vec<u8>,
) -> Result<(), AllocError>
    ensures set { OnOk result ((x : List ℕ) → lookup (bytes_eq x) (values_text values.new.entries)
        ≡ (if bytes_eq x name.now
        then Some value.items else lookup (bytes_eq x) (values_text values.old.entries))) }
    ensures refused { OnErr result (values.new.entries ≡ values.old.entries) }
{
    let key = Vec::from_slice(alloc, name)?;
    values.insert(key, value)?;
    Ok(())
}
