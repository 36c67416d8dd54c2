//! The declarations of a run's statements.

ghost use Rattle.std.specs.Prelude.{◌≡◌, ℕ, ◌+◌, ◌<◌, List, [], ◌∷◌, ◌++◌, Some, None, true, false, length, not, slice_get, option_copied, option_map, IfOk, OnOk, OnErr, IfSome};
ghost use Rattle.nj_scope.specs.Cited.{Spot, WordModel, word_model, lines_model, LineModel, BindingModel, RuleModel, PoolModel, SubninjaModel, IsScope, expanded, parent_at, rule_at, is_pool, DeclaredBy, TakesIn, Keeps, SameScopes, ReadStatement, value_after, value_if_bound, is_declared, rule_in_force, is_pool_or_dyndep};

use crate::pools::Pools;
use crate::rule::{Rule, RuleNo};
use crate::scopes::{ScopeNo, Scopes};
use nj_manifest::Line;
use nj_names::HashKeys;
use nj_text::Word;
use std::alloc::{AllocError, Global};
use std::marker::Model;

/// The number of the main file's scope.
pub const MAIN_SCOPE: ScopeNo = ScopeNo(0);

/// The number of the rule `phony`.
pub const PHONY: RuleNo = RuleNo(0);

/// The scopes, rules and pools of a run, as the statements that were read so far declare them.
#[derive(Drop)]
pub struct Declarations {
    scopes: Scopes,
    rules: Vec<Rule>,
    pools: Pools,
    // The buffer in which a value is expanded, before it is kept in as much memory as it needs.
    buffer: Vec<u8>,
    // Whether a scope may bind `pool` or `dyndep`. Few do, and both are looked up for every edge.
    binds_pool_or_dyndep: bool,
}

impl Model for Declarations {
    ghost use Rattle.std.specs.Prelude.{◌≡◌, false};
    ghost use Rattle.nj_scope.specs.Declarations.{DeclarationsModel};
    ghost use Rattle.nj_scope.specs.Inside.PoolOrDyndep.{BindNeither};

    ghost Value = { DeclarationsModel };

    ghost view = { λ d. record { scopes = d.scopes; rules = d.rules.items; pools = d.pools } };

    ghost invariant = { λ d. d.binds_pool_or_dyndep ≡ false → BindNeither d.scopes };
}

impl Declarations {
    /// The declarations before any statement: the main file's scope, 0, the rule `phony`, 0, and
    /// the pool `console`. Names are hashed by the given keys.
    pub fn new(alloc: Global, keys: HashKeys) -> Result<Declarations, AllocError>
        ensures nothing { IfOk result (λ d. DeclaredBy d []) }
        ensures outermost { IfOk result (λ d. parent_at d.scopes 0 ≡ None) }
    {
        let scopes = Scopes::new(alloc, keys)?;
        let phony = Rule::new(alloc, MAIN_SCOPE, b"phony", &[])?;
        let mut rules = Vec::new(alloc);
        rules.push(phony)?;
        Ok(Declarations {
            scopes,
            rules,
            pools: Pools::new(alloc, keys),
            buffer: Vec::new(alloc),
            binds_pool_or_dyndep: false,
        })
    }

    /// Reads a binding in this scope: its value is expanded at once ("Variables" in the Ninja
    /// manual).
    pub fn bind(
        &mut self,
        alloc: Global,
        scope: ScopeNo,
        name: &[u8],
        value: &Word<'_>,
    ) -> Result<(), AllocError>
        requires { scope.0 < length self.old.scopes }
        ensures bound { (around : List ℕ)
            → IsScope (parent_at self.old.scopes) scope.0 (scope.0 ∷ around)
            → OnOk result (TakesIn self.old self.new scope.0 around
            (BindingModel name.now (word_model value.now))) }
        ensures refused { OnErr result (Keeps self.old self.new) }
        ensures scopes { SameScopes self.old self.new }
    {
        self.buffer.clear();
        self.scopes.append_expanded(scope, value, &mut self.buffer)?;
        let value = Vec::from_slice(alloc, &self.buffer)?;
        self.binds_pool_or_dyndep = self.binds_pool_or_dyndep || is_pool_or_dyndep(name);
        self.scopes.bind(scope, name, value)
    }

    /// Declares a rule in the given scope. Returns `false`, and changes nothing, if the scope
    /// already has a rule of that name, and for `phony`, which always exists ("Rules" in the Ninja
    /// manual).
    pub fn declare_rule(
        &mut self,
        alloc: Global,
        scope: ScopeNo,
        name: &[u8],
        lines: &[Line<'_>],
    ) -> Result<bool, AllocError>
        requires { scope.0 < length self.old.scopes }
        ensures is_new { IfOk result (λ is_new.
            is_new ≡ not (is_declared (rule_at self.old.scopes scope.0 name.now) name.now)) }
        ensures declared { (around : List ℕ) (spot : Spot) → IfOk result (λ is_new. is_new ≡ true
            → TakesIn self.old self.new scope.0 around
            (RuleModel (record { spot = spot; name = name.now }) (lines_model lines.now))) }
        ensures kept { IfOk result (λ is_new. is_new ≡ false → self.new ≡ self.old) }
        ensures refused { OnErr result (Keeps self.old self.new) }
        ensures scopes { SameScopes self.old self.new }
    {
        if name == b"phony".as_slice() || self.scopes.own_rule(scope, name).is_some() {
            return Ok(false);
        }
        let number = RuleNo(self.rules.len());
        self.rules.push(Rule::new(alloc, scope, name, lines)?)?;
        if let Err(fault) = self.scopes.declare(scope, name, number) {
            self.rules.pop();
            return Err(fault);
        }
        Ok(true)
    }

    /// Declares a pool. Returns `false`, and changes nothing, if a pool of that name already exists
    /// ("Pools" in the Ninja manual).
    pub fn declare_pool(&mut self, name: &[u8]) -> Result<bool, AllocError>
        ensures is_new { IfOk result (λ is_new. is_new ≡ not (is_pool self.old.pools name.now)) }
        ensures declared { (number : ℕ) (around : List ℕ) (spot : Spot) (lines : List LineModel)
            → IfOk result (λ is_new. is_new ≡ true
            → TakesIn self.old self.new number around
            (PoolModel (record { spot = spot; name = name.now }) lines)) }
        ensures kept { IfOk result (λ is_new. is_new ≡ false → self.new ≡ self.old) }
        ensures refused { OnErr result (self.new ≡ self.old) }
        ensures scopes { SameScopes self.old self.new }
    {
        self.pools.declare(name)
    }

    /// Opens a scope for a `subninja` in the given scope. Returns its number, which is the next
    /// one.
    pub fn open(&mut self, parent: ScopeNo) -> Result<ScopeNo, AllocError>
        requires { parent.0 < length self.old.scopes }
        ensures number { IfOk result (λ n. n.0 ≡ length self.old.scopes) }
        ensures within { OnOk result
            (parent_at self.new.scopes (length self.old.scopes) ≡ Some parent.0) }
        ensures others { (n : ℕ) → n < length self.old.scopes
            → parent_at self.new.scopes n ≡ parent_at self.old.scopes n }
        ensures count { OnOk result (length self.new.scopes ≡ length self.old.scopes + 1) }
        ensures opened { (around : List ℕ) (word : WordModel)
            → OnOk result (TakesIn self.old self.new parent.0 around (SubninjaModel word)) }
        ensures refused { OnErr result (self.new ≡ self.old) }
    {
        self.scopes.open(parent)
    }

    /// The value of the word in this scope, by the bindings so far.
    pub fn expand(
        &self,
        alloc: Global,
        scope: ScopeNo,
        word: &Word<'_>,
    ) -> Result<Vec<u8>, AllocError>
        requires { scope.0 < length self.now.scopes }
        ensures { (entries : List ReadStatement) (around : List ℕ) → DeclaredBy self.now entries
            → IsScope (parent_at self.now.scopes) scope.0 (scope.0 ∷ around)
            → IfOk result (λ v. v.items
            ≡ expanded (value_after entries (scope.0 ∷ around)) (word_model word.now).parts) }
    {
        self.scopes.expand(alloc, scope, word)
    }

    /// Appends to the text the value of the word in this scope, by the bindings so far.
    pub fn append_expanded(
        &self,
        scope: ScopeNo,
        word: &Word<'_>,
        text: &mut Vec<u8>,
    ) -> Result<(), AllocError>
        requires { scope.0 < length self.now.scopes }
        ensures { (entries : List ReadStatement) (around : List ℕ) → DeclaredBy self.now entries
            → IsScope (parent_at self.now.scopes) scope.0 (scope.0 ∷ around)
            → OnOk result (text.new.items ≡ text.old.items
            ++ expanded (value_after entries (scope.0 ∷ around)) (word_model word.now).parts) }
    {
        self.scopes.append_expanded(scope, word, text)
    }

    /// The value of the name in this scope, by the bindings so far. An unknown name is empty.
    pub fn value(&self, scope: ScopeNo, name: &[u8]) -> &[u8]
        requires { scope.0 < length self.now.scopes }
        ensures { (entries : List ReadStatement) (around : List ℕ) → DeclaredBy self.now entries
            → IsScope (parent_at self.now.scopes) scope.0 (scope.0 ∷ around)
            → result.now ≡ value_after entries (scope.0 ∷ around) name.now }
    {
        if !self.binds_pool_or_dyndep && is_pool_or_dyndep(name) {
            return &[];
        }
        self.scopes.value(scope, name)
    }

    /// Returns the value of the name in the given scope, by the bindings so far: its value in the
    /// nearest scope, itself or around it, that binds the name; `None` if no scope does.
    pub fn value_if_bound(&self, scope: ScopeNo, name: &[u8]) -> Option<&[u8]>
        requires { scope.0 < length self.now.scopes }
        ensures { (entries : List ReadStatement) (around : List ℕ) → DeclaredBy self.now entries
            → IsScope (parent_at self.now.scopes) scope.0 (scope.0 ∷ around)
            → option_copied result ≡ value_if_bound entries (scope.0 ∷ around) name.now }
    {
        if !self.binds_pool_or_dyndep && is_pool_or_dyndep(name) {
            return None;
        }
        self.scopes.value_if_bound(scope, name)
    }

    /// How many scopes there are: the main file's, and one more for each `subninja`.
    pub fn scope_count(&self) -> usize
        ensures { result ≡ length self.now.scopes }
    {
        self.scopes.count()
    }

    /// Whether there is a pool with the given name; `console` always exists.
    pub fn has_pool(&self, name: &[u8]) -> bool
        ensures { result ≡ is_pool self.now.pools name.now }
    {
        self.pools.has(name)
    }

    /// How many pools were declared; `console` is not among them.
    pub fn pool_count(&self) -> usize
        ensures { result ≡ length self.now.pools }
    {
        self.pools.count()
    }

    /// Returns the name of the pool at the given index, in the order of declaration, or `None` past
    /// the last pool.
    pub fn pool_name(&self, index: usize) -> Option<&[u8]>
        ensures { option_copied result ≡ slice_get self.now.pools index }
    {
        self.pools.name(index)
    }

    /// Returns the number of the rule that is in force under the name in the given scope, or
    /// `None`: the scope's own rule, else the rule of the nearest scope around it that declares
    /// one. `phony` always exists.
    pub fn rule(&self, scope: ScopeNo, name: &[u8]) -> Option<RuleNo>
        requires { scope.0 < length self.now.scopes }
        ensures in_force { (entries : List ReadStatement) (around : List ℕ)
            → DeclaredBy self.now entries
            → IsScope (parent_at self.now.scopes) scope.0 (scope.0 ∷ around)
            → option_map (λ r. r.0) result ≡ rule_in_force entries (scope.0 ∷ around) name.now }
        ensures within { (entries : List ReadStatement) (around : List ℕ)
            → DeclaredBy self.now entries
            → IsScope (parent_at self.now.scopes) scope.0 (scope.0 ∷ around)
            → IfSome result (λ r. r.0 < length self.now.rules) }
    {
        if name == b"phony".as_slice() {
            return Some(PHONY);
        }
        self.scopes.rule(scope, name)
    }

    /// The rules in the order of their numbers: `phony`, and then those that were declared, in
    /// their order.
    pub fn rules(&self) -> &[Rule]
        ensures { result.now ≡ self.now.rules }
    {
        self.rules.as_slice()
    }
}

/// Whether it is a variable that assigns a pool or a dyndep file to an edge.
#[inline(always)]
pub fn is_pool_or_dyndep(name: &[u8]) -> bool
    ensures { result ≡ is_pool_or_dyndep name.now }
{
    name == b"pool".as_slice() || name == b"dyndep".as_slice()
}
