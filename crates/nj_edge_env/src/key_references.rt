//! Which keys of a rule refer to which.

ghost use Rattle.std.specs.Prelude.{◌≡◌, ◌<◌, false, length, IfOk, option_copied, slice_index_or};
ghost use Rattle.nj_edge_env.specs.Cited.{part_model, rule_value, refers, refers_in, AreReferences, TellsCycles, name_at, row_at, refers_unbound, unbound, AreSortedKeys, key_held, referring_key};

use crate::path_names::{is_of_command, names_paths};
use nj_scope::{LateValue, Rule};
use nj_text::Part;
use std::alloc::{AllocError, Global};
use std::marker::Model;

// A key of a rule, and for each key of the rule, by number, whether the value of the former refers
// to the latter.
#[derive(Drop)]
struct ReferringKey {
    name: Vec<u8>,
    refers: Vec<bool>,
}

/// Which keys of a rule refer to which if no block binds any of them ("Rule variables" in the Ninja
/// manual). It is made once for a rule, and determines for each edge that uses the rule whether
/// variables refer to each other in a cycle, in time bounded by the number of keys. It is empty for
/// a rule that cannot have a cycle, whatever a block binds.
#[derive(Drop)]
pub struct KeyReferences {
    // in byte order
    keys: Vec<ReferringKey>,
}

impl Model for KeyReferences {
    ghost use Rattle.std.specs.Prelude.{List, map};
    ghost use Rattle.nj_edge_env.specs.ReferencesHeld.{ReferringKeyModel};
    ghost use Rattle.nj_edge_env.specs.Inside.CyclesHeld.{key_held};

    ghost Value = { List ReferringKeyModel };

    ghost view = { λ r. map {B = ReferringKeyModel} key_held r.keys.items };
}

impl KeyReferences {
    /// The references of the rule's keys. Takes time in proportion to the parts of its lines.
    ///
    /// # Errors
    ///
    /// If an allocation failed.
    pub fn new(alloc: Global, rule: &Rule) -> Result<KeyReferences, AllocError>
        ensures { IfOk result (TellsCycles rule.now.lines) }
    {
        let references = references_of(alloc, rule)?;
        if references.may_cycle(alloc)? {
            return Ok(references);
        }
        Ok(KeyReferences {
            keys: Vec::new(alloc),
        })
    }

    // The number of keys.
    pub(crate) fn key_count(&self) -> usize
        ensures { result ≡ length self.now }
    {
        self.keys.len()
    }

    // The key with the given number.
    pub(crate) fn key(&self, number: usize) -> &[u8]
        requires { number < length self.now }
        ensures { result.now ≡ name_at self.now number }
    {
        self.keys[number].name.as_slice()
    }

    // Whether the value of a key refers to another key, or to itself.
    pub(crate) fn refers(&self, key: usize, other: usize) -> bool
        ensures { result ≡ slice_index_or (row_at self.now key) other false }
    {
        match self.keys.as_slice().get(key) {
            Some(referring) => is_marked(&referring.refers, other),
            None => false,
        }
    }
}

// Whether the mark with the given number is set; marks past the end are not set.
pub(crate) fn is_marked(marks: &[bool], number: usize) -> bool
    ensures { result ≡ slice_index_or marks.now number false }
{
    match marks.get(number) {
        Some(mark) => *mark,
        None => false,
    }
}

// The references of all keys of the rule.
fn references_of(alloc: Global, rule: &Rule) -> Result<KeyReferences, AllocError>
    ensures { IfOk result (AreReferences rule.now.lines) }
{
    let sorted = sorted_keys(alloc, rule)?;
    let names = sorted.as_slice();
    let mut keys = Vec::with_capacity(alloc, names.len())?;
    'names: for name in names {
        keys.push(referring_key(alloc, rule, name, names)?)?;
    }
    Ok(KeyReferences { keys })
}

// The keys of the rule, in byte order.
fn sorted_keys<'a>(alloc: Global, rule: &'a Rule) -> Result<Vec<&'a [u8]>, AllocError>
    ensures { IfOk result (λ names. AreSortedKeys rule.entry.now.lines names.items) }
{
    let mut names = Vec::with_capacity(alloc, rule.key_count())?;
    'keys: for number in 0..rule.key_count() {
        names.push(rule.key(number))?;
    }
    names.sort_by(|one, other| one.cmp(other))?;
    Ok(names)
}

// The key with the given name, and for each of the given names whether the value of the key refers
// to it.
fn referring_key(
    alloc: Global,
    rule: &Rule,
    name: &[u8],
    names: &[&[u8]],
) -> Result<ReferringKey, AllocError>
    ensures { IfOk result (λ key. key_held key
        ≡ referring_key rule.now.lines names.now name.now) }
{
    let mut refers = Vec::with_capacity(alloc, names.len())?;
    'names: for other in names {
        refers.push(refers_unbound(rule, name, other))?;
    }
    let name = Vec::from_slice(alloc, name)?;
    Ok(ReferringKey { name, refers })
}

// Whether the value of the key refers to the name if no block binds the key.
fn refers_unbound(rule: &Rule, key: &[u8], name: &[u8]) -> bool
    ensures { result ≡ refers_unbound rule.now.lines key.now name.now }
{
    match value_unbound(rule, key) {
        Some(value) => refers(value, name),
        None => false,
    }
}

// The value that the rule gives to the key, and that counts if no block binds the key.
fn value_unbound<'a>(rule: &'a Rule, key: &[u8]) -> Option<&'a LateValue>
    ensures { option_copied result ≡ rule_value unbound rule.entry.now.lines key.now }
{
    if names_paths(key) {
        return None;
    }
    let value = rule.value(key)?;
    if is_of_command(key) && value.len() == 0 {
        return None;
    }
    Some(value)
}

// Whether a part of a value is a reference to the name.
fn refers(value: &LateValue, name: &[u8]) -> bool
    ensures { result ≡ refers value.now name.now }
{
    'parts: for index in 0..value.len() {
        if refers_in(value.part(index), name) {
            return true;
        }
    }
    false
}

// Whether a part is a reference to the name.
fn refers_in(part: Part<'_>, name: &[u8]) -> bool
    ensures { result ≡ refers_in (part_model part.entry) name.now }
{
    match part {
        Part::Name(other) => name == other,
        Part::Bytes(_) => false,
    }
}
