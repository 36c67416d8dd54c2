//! Marks, and their written form.

ghost use Rattle.std.specs.Prelude.{◌≡◌, [], ◌∷◌, Some, IfOk, IfErr, string_bytes, codes};
ghost use Rattle.nj_needs.specs.Cited.{bytes_eq, mark_text, given_mark, ReadsBack, IsReadFault};

use crate::mark_fault::MarkFault;
use crate::mark_numbers::numbers_in;
use itoa::Buffer;
use std::alloc::{AllocError, Global};
use std::marker::Model;

/// Where a walk is: at its start, or after the edge with this address. An address is the number of
/// a target, and then indexes in lists of inputs, all from 0. The value of the start is the empty
/// list.
#[derive(Drop)]
pub struct Mark {
    numbers: Vec<u64>,
}

impl Model for Mark {
    ghost use Rattle.std.specs.Prelude.{ℕ, List, ◌<◌, ◌^◌};
    ghost use Rattle.std.specs.List.{All};

    ghost Value = { List ℕ };

    ghost view = { λ m. m.numbers.items };

    ghost invariant = { λ m. All (λ n. n < 2 ^ 64) m.numbers.items };
}

impl Mark {
    /// The mark at the start of a walk. Allocates nothing.
    pub fn start(alloc: Global) -> Mark
        ensures { result ≡ [] }
    {
        Mark {
            numbers: Vec::new(alloc),
        }
    }

    /// The mark of the given numbers. Fails only if an allocation fails.
    pub fn from_numbers(alloc: Global, numbers: &[u64]) -> Result<Mark, AllocError>
        ensures mark { IfOk result (λ mark. mark ≡ numbers.now) }
        ensures reads_back { ReadsBack numbers.now }
    {
        let numbers = Vec::from_slice(alloc, numbers)?;
        Ok(Mark { numbers })
    }

    /// Its numbers; none at the start.
    pub fn numbers(&self) -> &[u64]
        ensures { result.now ≡ self.now }
    {
        self.numbers.as_slice()
    }

    /// Returns the mark that a text denotes: `start`, or the numbers of an address, joined by `.`,
    /// without leading zeros.
    ///
    /// # Errors
    ///
    /// `BadMark` if the text is not a mark, and `OutOfMemory` if an allocation failed; never
    /// `MarkOutOfRange`.
    #[tactic(auto, using(crate::proofs::MarkTextLemmas::given_start, crate::proofs::MarkTextLemmas::given_address, crate::proofs::GivenMarks::given_fit))]
    pub fn read(alloc: Global, text: &str) -> Result<Mark, MarkFault>
        ensures ok { IfOk result (λ mark. given_mark text.now ≡ Some mark) }
        ensures err { IfErr result (λ fault. IsReadFault (given_mark text.now) fault) }
    {
        if is_start(text) {
            return Ok(Mark::start(alloc));
        }
        match numbers_in(alloc, text) {
            Ok(numbers) => Ok(Mark { numbers }),
            Err(fault) => Err(fault),
        }
    }

    /// The text of the mark, which reads back as the same mark.
    ///
    /// # Errors
    ///
    /// If an allocation failed.
    pub fn to_text(&self, alloc: Global) -> Result<String, AllocError>
        ensures text { IfOk result (λ text. string_bytes text ≡ mark_text self.now) }
        ensures reads_back { ReadsBack self.now }
    {
        match self.numbers.as_slice() {
            [] => String::from_str(alloc, "start"),
            [target, positions @ ..] => address_text(alloc, *target, positions),
        }
    }
}

fn is_start(text: &str) -> bool
    ensures { result ≡ bytes_eq text.now (codes "start") }
{
    text == "start"
}

fn address_text(alloc: Global, target: u64, positions: &[u64]) -> Result<String, AllocError>
    ensures { IfOk result (λ text. string_bytes text ≡ mark_text (target ∷ positions.now)) }
{
    let mut buffer = Buffer::new();
    let mut text = String::from_str(alloc, buffer.format(target))?;
    for position in positions {
        text.push('.')?;
        text.push_str(buffer.format(*position))?;
    }
    Ok(text)
}
