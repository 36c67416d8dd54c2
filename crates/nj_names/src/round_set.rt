//! Sets of numbers that are emptied at once.

ghost use Rattle.std.specs.Prelude.{◌≡◌, ◌<◌, ◌≤◌, not, [], length, nat_eq, All, IfOk, OnErr, OnOk};
ghost use Rattle.nj_names.specs.Cited.{IsDistinct, has, with_number};

use std::alloc::{AllocError, Global};
use std::marker::Model;

/// Numbers below a limit, without duplicates, in the order in which they were added since the set
/// was emptied last. Emptying takes no pass over the numbers below the limit: each has a mark, and
/// is in the set if that is the mark of the round. Where a set is never emptied,
/// [`NumberSet`](crate::NumberSet) takes less memory.
#[derive(Drop)]
pub struct RoundSet {
    marks: Vec<usize>,
    round: usize,
    numbers: Vec<usize>,
}

impl Model for RoundSet {
    ghost use Rattle.std.specs.Prelude.{length};
    ghost use Rattle.nj_names.specs.NumberSets.{NumberSetModel};
    ghost use Rattle.nj_names.specs.Inside.RoundsHeld.{AreMarked};

    ghost Value = { NumberSetModel };

    ghost view = { λ s. record { limit = length s.marks.items; numbers = s.numbers.items } };

    ghost invariant = { λ s. AreMarked s.marks.items s.round s.numbers.items };
}

impl RoundSet {
    /// An empty set of numbers below the limit. Fails only if an allocation fails.
    pub fn none_below(alloc: Global, limit: usize) -> Result<RoundSet, AllocError>
        ensures { IfOk result (λ s. s ≡ record { limit = limit; numbers = [] }) }
    {
        Ok(RoundSet {
            marks: vec![in alloc; 0; limit]?,
            round: 1,
            numbers: Vec::new(alloc),
        })
    }

    /// Whether the number is in the set.
    pub fn contains(&self, number: usize) -> bool
        requires { number < self.now.limit }
        ensures { result ≡ has self.now.numbers number }
    {
        self.marks[number] == self.round
    }

    /// Adds a number, unless it is in the set, and returns whether it is new. Fails only if an
    /// allocation fails.
    pub fn insert(&mut self, number: usize) -> Result<bool, AllocError>
        requires { number < self.old.limit }
        ensures is_new { IfOk result (λ is_new. is_new ≡ not (has self.old.numbers number)) }
        ensures added { OnOk result (self.new ≡ record self.old {
          numbers = with_number self.old.numbers number;
        }) }
        ensures refused { OnErr result (self.new ≡ self.old) }
    {
        if self.marks[number] == self.round {
            return Ok(false);
        }
        self.numbers.push(number)?;
        self.marks[number] = self.round;
        Ok(true)
    }

    /// Removes all numbers from the set. It makes no pass over the numbers below the limit, except
    /// every 2^64 - 1 times: then no round is left, all marks are reset, and the rounds start over.
    pub fn clear(&mut self)
        ensures { self.new ≡ record { limit = self.old.limit; numbers = [] } }
    {
        self.numbers.clear();
        match self.round.checked_add(1) {
            Some(round) => self.round = round,
            None => {
                self.marks.fill(0);
                self.round = 1;
            }
        }
    }

    /// The numbers, in the order in which they were added.
    pub fn numbers(&self) -> &[usize]
        ensures numbers { result.now ≡ self.now.numbers }
        ensures each_once { IsDistinct nat_eq self.now.numbers }
        ensures below { All (λ number. number < self.now.limit) self.now.numbers }
        ensures fits { length self.now.numbers ≤ self.now.limit }
    {
        self.numbers.as_slice()
    }
}
