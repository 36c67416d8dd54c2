//! Sets of numbers.

ghost use Rattle.std.specs.Prelude.{◌≡◌, ℕ, ◌<◌, ◌≤◌, not, false, [], length, slice_index_or, nat_eq, All, IfOk, OnOk, OnErr};
ghost use Rattle.nj_names.specs.Cited.{IsDistinct, has, with_number};

use std::alloc::{AllocError, Global};
use std::marker::Model;

/// Numbers below a limit, without duplicates, in the order in which they were added: a flag for
/// each number below the limit, and the numbers with a flag.
#[derive(Drop)]
pub struct NumberSet {
    flags: Vec<bool>,
    numbers: Vec<usize>,
}

impl Model for NumberSet {
    ghost use Rattle.std.specs.Prelude.{length};
    ghost use Rattle.nj_names.specs.NumberSets.{NumberSetModel};
    ghost use Rattle.nj_names.specs.Inside.NumbersHeld.{AreFlagged};

    ghost Value = { NumberSetModel };

    ghost view = { λ s. record { limit = length s.flags.items; numbers = s.numbers.items } };

    ghost invariant = { λ s. AreFlagged s.flags.items s.numbers.items };
}

impl NumberSet {
    /// An empty set of numbers below the limit. Fails only if an allocation fails.
    pub fn none_below(alloc: Global, limit: usize) -> Result<NumberSet, AllocError>
        ensures { IfOk result (λ s. s ≡ record { limit = limit; numbers = [] }) }
    {
        Ok(NumberSet {
            flags: vec![in alloc; false; limit]?,
            numbers: Vec::new(alloc),
        })
    }

    /// Whether the number is in the set.
    #[inline(always)]
    pub fn contains(&self, number: usize) -> bool
        requires { number < self.now.limit }
        ensures { result ≡ has self.now.numbers number }
    {
        self.flags[number]
    }

    /// Adds a number, unless it is in the set, and returns whether it is new.
    #[inline(always)]
    pub fn insert(&mut self, number: usize) -> Result<bool, AllocError>
        requires { number < self.old.limit }
        ensures is_new { IfOk result (λ is_new. is_new ≡ not (has self.old.numbers number)) }
        ensures added { OnOk result (self.new ≡ record self.old {
          numbers = with_number self.old.numbers number;
        }) }
        ensures refused { OnErr result (self.new ≡ self.old) }
    {
        if self.flags[number] {
            return Ok(false);
        }
        self.numbers.push(number)?;
        self.flags[number] = true;
        Ok(true)
    }

    /// The numbers, in the order in which they were added.
    pub fn numbers(&self) -> &[usize]
        ensures numbers { result.now ≡ self.now.numbers }
        ensures each_once { IsDistinct nat_eq self.now.numbers }
        ensures below { All (λ number. number < self.now.limit) self.now.numbers }
        ensures fits { length self.now.numbers ≤ self.now.limit }
    {
        self.numbers.as_slice()
    }

    /// For each number below the limit, whether it is in the set.
    pub fn flags(&self) -> &[bool]
        ensures count { length result.now ≡ self.now.limit }
        ensures flags { (number : ℕ)
            → slice_index_or result.now number false ≡ has self.now.numbers number }
    {
        self.flags.as_slice()
    }
}
