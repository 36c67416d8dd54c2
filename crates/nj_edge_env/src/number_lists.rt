//! Lists of numbers, by edge: parts of one list.

ghost use Rattle.std.specs.Prelude.{◌≡◌, ℕ, ◌+◌, ◌-◌, ◌≤◌, ◌==◌, if◌then◌else◌, [], ◌∷◌, ◌++◌, length, replicate, slice_index_or, slice_range, OnOk, OnErr};
ghost use Rattle.nj_edge_env.specs.Cited.{list_at, lists_of, AreStarts};

use nj_names::short_number;
use std::alloc::{AllocError, Global};
use std::marker::Model;

/// A list of numbers for each edge, up to the last edge that has any. The lists are stored one
/// after another in a single list of 32-bit numbers, and the start of each edge's list is a 32-bit
/// index.
#[derive(Drop)]
pub(crate) struct NumberLists {
    numbers: Vec<u32>,
    starts: Vec<u32>,
}

impl Model for NumberLists {
    ghost use Rattle.std.specs.Prelude.{List, ℕ, length};
    ghost use Rattle.nj_edge_env.specs.Inside.BlocksHeld.{lists_of, AreStarts};

    ghost Value = { List (List ℕ) };

    ghost view = { λ l. lists_of l.numbers.items l.starts.items };

    ghost invariant = { λ l. AreStarts (length l.numbers.items) l.starts.items };
}

impl NumberLists {
    /// Empty lists for all edges. It allocates nothing.
    pub(crate) fn new(alloc: Global) -> NumberLists
        ensures { result ≡ [] }
    {
        NumberLists {
            numbers: Vec::new(alloc),
            starts: Vec::new(alloc),
        }
    }

    /// The numbers of the edge.
    pub(crate) fn list(&self, edge: usize) -> &[u32]
        ensures { result.now ≡ list_at self.now edge }
    {
        part_from(self.numbers.as_slice(), self.starts.as_slice(), edge)
    }

    /// Appends a number to the list of an edge. Later edges must not have lists yet.
    pub(crate) fn push(&mut self, edge: u32, number: usize) -> Result<(), AllocError>
        requires { length self.old ≤ edge + 1 }
        ensures pushed { OnOk result ((e : ℕ) → list_at self.new e
            ≡ (if e == edge then list_at self.old e ++ number ∷ [] else list_at self.old e)) }
        ensures refused { OnErr result ((e : ℕ) → list_at self.new e ≡ list_at self.old e) }
        ensures count { length self.new ≤ edge + 1 }
    {
        let number = short_number(number)?;
        let start = short_number(self.numbers.as_slice().len())?;
        self.numbers.reserve(1)?;
        pad(&mut self.starts, edge as usize + 1, start)?;
        self.numbers.push_reserved(number);
        Ok(())
    }
}

// Appends the given start until there are `count` starts.
fn pad(starts: &mut Vec<u32>, count: usize, start: u32) -> Result<(), AllocError>
    requires { length starts.old.items ≤ count }
    ensures padded { OnOk result (starts.new.items
        ≡ starts.old.items ++ replicate (count - length starts.old.items) start) }
    ensures refused { OnErr result (starts.new.items ≡ starts.old.items) }
{
    starts.resize(count, start)
}

// The part of the numbers between the start at the given index and the next start.
fn part_from<'a>(numbers: &'a [u32], starts: &[u32], index: usize) -> &'a [u32]
    requires { AreStarts (length numbers.now) starts.now }
    ensures { result.now ≡ list_at (lists_of numbers.now starts.now) index }
{
    if index >= starts.len() {
        return &[];
    }
    let start = start_at(starts, index, numbers.len());
    let end = start_at(starts, index + 1, numbers.len());
    part(numbers, start, end)
}

// The start of the part at the given index, or `past` after the last index.
fn start_at(starts: &[u32], index: usize, past: usize) -> usize
    ensures { result ≡ slice_index_or starts.now index past }
{
    match starts.get(index) {
        Some(start) => *start as usize,
        None => past,
    }
}

// The numbers between the given indices.
fn part(numbers: &[u32], start: usize, end: usize) -> &[u32]
    requires rises { start ≤ end }
    requires within { end ≤ length numbers.now }
    ensures { result.now ≡ slice_range numbers.now start end }
{
    &numbers[start..end]
}
