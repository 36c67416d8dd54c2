//! Cycles of a rule's variables.

ghost use Rattle.std.specs.Prelude.{◌≡◌, ◌<◌, List, false, length, IfOk, IfSome, option_copied};
ghost use Rattle.nj_edge_env.specs.Cited.{IsFirstOnCycle, RuleLineModel, bound_in, variable_cycle_of, AreReferences, NeverCycles, TellsCycles, makers_counted};

use crate::block_values::Blocks;
use crate::key_references::{KeyReferences, is_marked};
use nj_cycles::{EdgeInputs, first_on_cycle};
use std::alloc::{AllocError, Global};

impl KeyReferences {
    /// Returns the least key, by bytes, of the rule's lines that refers to itself in one or more
    /// steps when an edge uses the rule: through keys that the block of the edge does not bind.
    /// `None` if no key does ("Rule variables" in the Ninja manual), in which case the edge has
    /// late strings.
    ///
    /// # Errors
    ///
    /// If an allocation failed.
    pub fn variable_cycle(
        &self,
        alloc: Global,
        blocks: &Blocks,
        edge: usize,
    ) -> Result<Option<&[u8]>, AllocError>
        ensures { (lines : List RuleLineModel) → TellsCycles lines self.now
            → IfOk result (λ key. option_copied key
            ≡ variable_cycle_of (bound_in blocks.now edge) lines) }
    {
        let mut counts = Vec::with_capacity(alloc, self.key_count())?;
        'keys: for number in 0..self.key_count() {
            counts.push(blocks.value(edge, self.key(number)).is_none())?;
        }
        match self.first_cycle(alloc, &counts)? {
            Some(number) => Ok(Some(self.key(number))),
            None => Ok(None),
        }
    }

    // Whether a block could leave a cycle of the rule's variables, that is, whether there is a
    // cycle if nothing is bound.
    pub(crate) fn may_cycle(&self, alloc: Global) -> Result<bool, AllocError>
        ensures { (lines : List RuleLineModel) → AreReferences lines self.now
            → IfOk result (λ may. may ≡ false → NeverCycles lines) }
    {
        let counts = vec![in alloc; true; self.key_count()]?;
        Ok(self.first_cycle(alloc, &counts)?.is_some())
    }

    // The first key that leads back to itself by keys that count.
    fn first_cycle(&self, alloc: Global, counts: &[bool]) -> Result<Option<usize>, AllocError>
        ensures first { IfOk result (IsFirstOnCycle (makers_counted self.now counts.now)
            (length self.now)) }
        ensures within { IfOk result (λ first. IfSome first (λ n. n < length self.now)) }
    {
        if self.key_count() == 0 {
            return Ok(None);
        }
        let keys = CountedKeys {
            references: self,
            counts,
        };
        first_on_cycle(alloc, &keys)
    }
}

// The keys of a rule, as a graph in which a key that counts needs the keys to which its value
// refers.
#[derive(Clone, Copy)]
struct CountedKeys<'a> {
    references: &'a KeyReferences,
    counts: &'a [bool],
}

impl<'a> EdgeInputs for CountedKeys<'a> {
    ghost makers = { λ k. makers_counted k.references.now k.counts.now };

    ghost count = { λ k. length k.references.now };

    fn edge_count(&self) -> usize {
        self.references.key_count()
    }

    fn maker_at(&self, key: usize, other: usize) -> Option<Option<usize>> {
        if other >= self.references.key_count() {
            return None;
        }
        if is_marked(self.counts, key) && self.references.refers(key, other) {
            Some(Some(other))
        } else {
            Some(None)
        }
    }
}
