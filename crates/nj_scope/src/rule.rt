//! Rules.

ghost use Rattle.std.specs.Prelude.{◌≡◌, ◌<◌, ℕ, List, Some, None, map, option_copied, length, option_map, slice_get, slice_index, All, IfOk, IfSome, IfNone};
ghost use Rattle.nj_scope.specs.Cited.{line_kept, given, last_lines, key_count, key_at, IsNumber, KeysAreNumbered, NumbersDiffer, line_held, AreIndexes, HasKeyAt, line_model};

use crate::deferred::LateValue;
use crate::scopes::ScopeNo;
use nj_manifest::Line;
use std::alloc::{AllocError, Global};
use std::marker::Model;

/// The number of a rule in its run. `phony` is 0; the rules that are declared follow in reading
/// order ("Rules" in the Ninja manual).
#[derive(Clone, Copy, Debug, PartialEq, Eq)]
pub struct RuleNo(pub usize);

// A line of a rule's block, kept apart from its file.
#[derive(Drop)]
struct RuleLine {
    key: Vec<u8>,
    value: LateValue,
}

/// A rule: the number of the scope that declares it, its name, and the lines of its block, which
/// are expanded when an edge uses them ("Rules" in the Ninja manual).
#[derive(Drop)]
pub struct Rule {
    scope: ScopeNo,
    name: Vec<u8>,
    lines: Vec<RuleLine>,
    // for each key the index of its last line, from the end
    last: Vec<usize>,
}

impl Model for Rule {
    ghost use Rattle.std.specs.Prelude.{map};
    ghost use Rattle.nj_scope.specs.Rules.{RuleModel, RuleLineModel};
    ghost use Rattle.nj_scope.specs.RulesHeld.{last_lines};
    ghost use Rattle.nj_scope.specs.Inside.KeysHeld.{line_held, AreIndexes};

    ghost Value = { RuleModel };

    ghost view = { λ r. record {
      scope = r.scope.0;
      name = r.name.items;
      lines = map {B = RuleLineModel} line_held r.lines.items;
    } };

    ghost invariant = { λ r. AreIndexes (map {B = RuleLineModel} line_held r.lines.items)
        r.last.items (last_lines (map {B = RuleLineModel} line_held r.lines.items)) };
}

impl Rule {
    /// A rule with the given name and lines, declared by the scope with the given number.
    pub fn new(
        alloc: Global,
        scope: ScopeNo,
        name: &[u8],
        lines: &[Line<'_>],
    ) -> Result<Rule, AllocError>
        ensures scope { IfOk result (λ r. r.scope ≡ scope.0) }
        ensures name { IfOk result (λ r. r.name ≡ name.now) }
        ensures lines { IfOk result (λ r. r.lines ≡ map (λ l. line_kept (line_model l)) lines.now) }
    {
        let name = Vec::from_slice(alloc, name)?;
        let mut kept = Vec::with_capacity(alloc, lines.len())?;
        'lines: for line in lines {
            kept.push(RuleLine {
                key: Vec::from_slice(alloc, line.name)?,
                value: LateValue::from_word(alloc, &line.value)?,
            })?;
        }
        let last = last_of_keys(alloc, &kept)?;
        Ok(Rule {
            scope,
            name,
            lines: kept,
            last,
        })
    }

    /// The number of the scope that declares it.
    pub fn scope(&self) -> ScopeNo
        ensures { result.0 ≡ self.now.scope }
    {
        self.scope
    }

    /// Its name.
    pub fn name(&self) -> &[u8]
        ensures { result.now ≡ self.now.name }
    {
        self.name.as_slice()
    }

    /// How many lines there are.
    pub fn line_count(&self) -> usize
        ensures { result ≡ length self.now.lines }
    {
        self.lines.len()
    }

    /// The key of the line at the given index. Lines are in the order in which they were written.
    pub fn line_key(&self, index: usize) -> &[u8]
        requires { index < length self.now.lines }
        ensures { option_map (λ l. l.key) (slice_get self.now.lines index) ≡ Some result.now }
    {
        self.lines[index].key.as_slice()
    }

    /// The value of the line at the given index, even if a later line has the same key.
    pub fn line_value(&self, index: usize) -> &LateValue
        requires { index < length self.now.lines }
        ensures { option_map (λ l. l.value) (slice_get self.now.lines index) ≡ Some result.now }
    {
        &self.lines[index].value
    }

    /// How many different keys the lines have. The keys are numbered, from the last line on.
    pub fn key_count(&self) -> usize
        ensures count { result ≡ key_count self.now.lines }
        ensures all { KeysAreNumbered self.now.lines }
        ensures apart { NumbersDiffer self.now.lines }
    {
        self.last.len()
    }

    /// The key with the given number.
    pub fn key(&self, number: usize) -> &[u8]
        requires { number < key_count self.now.lines }
        ensures { result.now ≡ key_at self.now.lines number }
    {
        line_at(&self.lines, &self.last, number).key.as_slice()
    }

    /// The value of the key with the given number: the value of its last line, which wins.
    pub fn key_value(&self, number: usize) -> &LateValue
        requires { number < key_count self.now.lines }
        ensures { given self.now.lines (key_at self.now.lines number) ≡ Some result.now }
    {
        &line_at(&self.lines, &self.last, number).value
    }

    /// Returns the number of a key, or `None` if no line has it. Takes time linear in the different
    /// keys.
    pub fn key_number(&self, key: &[u8]) -> Option<usize>
        ensures some { IfSome result (IsNumber self.now.lines key.now) }
        ensures none { IfNone result (given self.now.lines key.now ≡ None) }
    {
        number_among(&self.lines, &self.last, key)
    }

    /// Returns the value of a key: the value of the last line with the key, which wins, or `None`
    /// if no line has it.
    pub fn value(&self, key: &[u8]) -> Option<&LateValue>
        ensures { option_copied result ≡ given self.now.lines key.now }
    {
        match self.key_number(key) {
            Some(number) => Some(self.key_value(number)),
            None => None,
        }
    }
}

// The line whose index is at the given place.
fn line_at<'a>(lines: &'a [RuleLine], indexes: &[usize], place: usize) -> &'a RuleLine
    requires place { place < length indexes.now }
    requires index { slice_index indexes.now place < length lines.now }
    ensures { slice_get lines.now (slice_index indexes.now place) ≡ Some result.now }
{
    &lines[indexes[place]]
}

// The first place of an index of a line that has the key.
fn number_among(lines: &[RuleLine], indexes: &[usize], key: &[u8]) -> Option<usize>
    requires { All (λ i. i < length lines.now) indexes.now }
    ensures some { IfSome result (λ n. (n < length indexes.now)
        × HasKeyAt lines.now (slice_index indexes.now n) key.now) }
    ensures none { IfNone result ((n : ℕ) → n < length indexes.now
        → ¬ HasKeyAt lines.now (slice_index indexes.now n) key.now) }
{
    'places: for place in 0..indexes.len() {
        if key == line_at(lines, indexes, place).key.as_slice() {
            return Some(place);
        }
    }
    None
}

// For each key the index of its last line, from the end.
fn last_of_keys(alloc: Global, lines: &[RuleLine]) -> Result<Vec<usize>, AllocError>
    ensures { IfOk result (λ last. AreIndexes (map line_held lines.now) last.items
        (last_lines (map line_held lines.now))) }
{
    let mut last = Vec::new(alloc);
    'lines: for index in (0..lines.len()).rev() {
        if number_among(lines, &last, lines[index].key.as_slice()).is_none() {
            last.push(index)?;
        }
    }
    Ok(last)
}
