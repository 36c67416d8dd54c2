//! The names of a run, by their numbers.

ghost use Rattle.std.specs.Prelude.{◌≡◌, ◌<◌, ◌≤◌, ◌+◌, if◌then◌else◌, [], ◌∷◌, ◌++◌, length, Some, position, slice_get, slice_index_or, slice_range, is_some, is_ok, bytes_eq, nat_eq, IfOk, OnOk, OnErr};
ghost use Rattle.nj_names.specs.Cited.{IsDistinct, list_any, IsUnchanged, Updates, with_name, CanBeFound, EndsRise, IsFound, held_names, newest_in, start_in};

use crate::hash_keys::HashKeys;
use crate::plain_hasher::PlainHasher;
use crate::short::short_number;
use indexmap::IndexMap;
use std::alloc::{AllocError, Global};
use std::hash::BuildHasherDefault;
use std::marker::Model;

/// Names without duplicates. The number of a name is its place in the order of adding.
///
/// The names are stored as one text. Each is found by its hash, which is computed once for a
/// look-up: the map leads to the newest name with that hash, and each name to the previous name
/// with the same hash. In these links names are counted from 1, and 0 is none.
#[derive(Drop)]
pub struct Names {
    keys: HashKeys,
    text: Vec<u8>,
    ends: Vec<u32>,
    newest: NewestNames,
    earlier: Vec<u32>,
}

// The newest name of each hash.
type NewestNames = IndexMap<u64, u32, BuildHasherDefault<PlainHasher>>;

impl Model for Names {
    ghost use Rattle.std.specs.Prelude.{List, ℕ};
    ghost use Rattle.nj_names.specs.ByteHash.{hash_bytes};
    ghost use Rattle.nj_names.specs.Inside.NamesHeld.{held_names, AreHeld};

    ghost Value = { List (List ℕ) };

    ghost view = { λ n. held_names n.text.items n.ends.items };

    ghost invariant = { λ n. AreHeld (hash_bytes n.keys) n.text.items n.ends.items n.earlier.items
        n.newest };
}

impl Names {
    /// No names yet. Names are hashed by the given keys. Allocates nothing.
    pub fn new(alloc: Global, keys: HashKeys) -> Names
        ensures { result ≡ [] }
    {
        Names {
            keys,
            text: Vec::new(alloc),
            ends: Vec::new(alloc),
            newest: IndexMap::with_hasher(alloc, BuildHasherDefault::new()),
            earlier: Vec::new(alloc),
        }
    }

    /// The number of names.
    pub fn count(&self) -> usize
        ensures count { result ≡ length self.now }
        ensures each_name_once { IsDistinct bytes_eq self.now }
    {
        self.ends.as_slice().len()
    }

    /// Returns the number of a name, or `None` if it was not added.
    pub fn number(&self, name: &[u8]) -> Option<usize>
        ensures index { result ≡ position (bytes_eq name.now) self.now }
        ensures known { is_some result ≡ list_any (bytes_eq name.now) self.now }
    {
        let newest = newest_name(&self.newest, self.keys.hash_bytes(name));
        find_name(
            self.text.as_slice(),
            self.ends.as_slice(),
            self.earlier.as_slice(),
            newest,
            name,
        )
    }

    /// The name with the given number.
    pub fn name(&self, number: usize) -> &[u8]
        requires { number < length self.now }
        ensures { slice_get self.now number ≡ Some result.now }
    {
        name_at(self.text.as_slice(), self.ends.as_slice(), number)
    }

    /// Adds a name, unless the table has it, and returns its number.
    pub fn add(&mut self, name: &[u8]) -> Result<usize, AllocError>
        ensures added { OnOk result (self.new ≡ with_name self.old name.now) }
        ensures number { IfOk result (λ number. slice_get self.new number ≡ Some name.now) }
        ensures refused { OnErr result (self.new ≡ self.old) }
        ensures each_name_once { IsDistinct bytes_eq self.new }
    {
        let hash = self.keys.hash_bytes(name);
        if let Some(number) = find_name(
            self.text.as_slice(),
            self.ends.as_slice(),
            self.earlier.as_slice(),
            newest_name(&self.newest, hash),
            name,
        ) {
            return Ok(number);
        }
        let number = self.ends.as_slice().len();
        push_name(
            &mut self.text,
            &mut self.ends,
            &mut self.newest,
            &mut self.earlier,
            hash,
            name,
        )?;
        Ok(number)
    }
}

// Returns the newest name with a hash, counted from 1, or 0.
fn newest_name(newest: &NewestNames, hash: u64) -> u32
    ensures { result ≡ newest_in newest.now hash }
{
    match newest.get(&hash) {
        Some(number) => *number,
        None => 0,
    }
}

// Returns the number of a name, or `None`. The search starts from the newest name with its hash.
fn find_name(text: &[u8], ends: &[u32], earlier: &[u32], newest: u32, name: &[u8]) -> Option<usize>
    requires rise { EndsRise 0 ends.now (length text.now) }
    requires chained { CanBeFound (held_names text.now ends.now) earlier.now name.now newest }
    ensures { IsFound (held_names text.now ends.now) name.now result }
{
    let mut at = newest as usize;
    'chain: while at > 0 {
        let number = at - 1;
        if name_at(text, ends, number) == name {
            return Some(number);
        }
        at = number_at(earlier, number);
    }
    None
}

// The name with the given number.
#[inline(always)]
fn name_at<'a>(text: &'a [u8], ends: &[u32], number: usize) -> &'a [u8]
    requires rise { EndsRise 0 ends.now (length text.now) }
    requires number { number < length ends.now }
    ensures { slice_get (held_names text.now ends.now) number ≡ Some result.now }
{
    part(text, start_of(ends, number), number_at(ends, number))
}

// The bytes between the given places.
#[inline(always)]
fn part(text: &[u8], start: usize, end: usize) -> &[u8]
    requires rises { start ≤ end }
    requires within { end ≤ length text.now }
    ensures { result.now ≡ slice_range text.now start end }
{
    &text[start..end]
}

// Where the name with the given number starts.
#[inline(always)]
fn start_of(ends: &[u32], number: usize) -> usize
    requires { number < length ends.now }
    ensures { result ≡ start_in 0 ends.now number }
{
    if number == 0 {
        0
    } else {
        number_at(ends, number - 1)
    }
}

// The number at this index.
#[inline(always)]
fn number_at(numbers: &[u32], index: usize) -> usize
    requires { index < length numbers.now }
    ensures { result ≡ slice_index_or numbers.now index 0 }
{
    numbers[index] as usize
}

// Appends a name that is new. Memory is reserved before anything changes.
fn push_name(
    text: &mut Vec<u8>,
    ends: &mut Vec<u32>,
    newest: &mut NewestNames,
    earlier: &mut Vec<u32>,
    hash: u64,
    name: &[u8],
) -> Result<(), AllocError>
    ensures text { text.new.items ≡ (if is_ok result then text.old.items ++ name.now
        else text.old.items) }
    ensures ends { ends.new.items ≡ (if is_ok result
        then ends.old.items ++ (length text.old.items + length name.now) ∷ []
        else ends.old.items) }
    ensures earlier { earlier.new.items ≡ (if is_ok result
        then earlier.old.items ++ newest_in newest.old hash ∷ [] else earlier.old.items) }
    ensures newest { OnOk result (Updates nat_eq newest.old newest.new hash
        (Some (length ends.old.items + 1))) }
    ensures refused { OnErr result (IsUnchanged newest.old newest.new) }
{
    text.reserve(name.len())?;
    ends.reserve(1)?;
    earlier.reserve(1)?;
    let end = short_number(text.as_slice().len() + name.len())?;
    let number = short_number(ends.as_slice().len() + 1)?;
    let before = newest.insert(hash, number)?;
    ends.push_reserved(end);
    earlier.push_reserved(before.unwrap_or(0));
    text.extend_from_slice(name)
}
