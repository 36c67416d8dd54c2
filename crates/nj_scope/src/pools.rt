//! Pools.

ghost use Rattle.std.specs.Prelude.{◌≡◌, ℕ, List, [], ◌∷◌, ◌++◌, length, not, slice_get, option_copied, IfOk, OnErr, if◌then◌else◌};
ghost use Rattle.nj_scope.specs.Cited.{is_pool};

use indexmap::IndexSet;
use nj_names::HashKeys;
use std::alloc::{AllocError, Global};
use std::marker::Model;

/// The pools that were declared, by name; `console` always exists ("Pools" in the Ninja manual).
/// They do not belong to a scope: a name is declared once in a run.
#[derive(Drop)]
pub(crate) struct Pools {
    alloc: Global,
    names: IndexSet<Vec<u8>, HashKeys>,
}

impl Model for Pools {
    ghost use Rattle.std.specs.Prelude.{ℕ, List, map};

    ghost Value = { List (List ℕ) };

    ghost view = { λ p. map (λ k. k.items) p.names.keys };
}

impl Pools {
    /// Only `console`. Allocates nothing.
    pub fn new(alloc: Global, keys: HashKeys) -> Pools
        ensures { result ≡ [] }
    {
        Pools {
            alloc,
            names: IndexSet::with_hasher(alloc, keys),
        }
    }

    /// Whether there is a pool with the given name.
    pub fn has(&self, name: &[u8]) -> bool
        ensures { result ≡ is_pool self.now name.now }
    {
        name == b"console".as_slice() || self.names.contains(name)
    }

    /// How many were declared.
    pub fn count(&self) -> usize
        ensures { result ≡ length self.now }
    {
        self.names.len()
    }

    /// Returns the name of the pool at the given index, in the order of declaration, or `None` past
    /// the last pool.
    pub fn name(&self, index: usize) -> Option<&[u8]>
        ensures { option_copied result ≡ slice_get self.now index }
    {
        match self.names.get_index(index) {
            Some(name) => Some(name.as_slice()),
            None => None,
        }
    }

    /// Declares a pool. Returns `false`, and changes nothing, if a pool of that name already
    /// exists.
    pub fn declare(&mut self, name: &[u8]) -> Result<bool, AllocError>
        ensures is_new { IfOk result (λ is_new. is_new ≡ not (is_pool self.old name.now)) }
        ensures declared { IfOk result (λ is_new.
            self.new ≡ (if is_new then self.old ++ name.now ∷ [] else self.old)) }
        ensures refused { OnErr result (self.new ≡ self.old) }
    {
        if self.has(name) {
            return Ok(false);
        }
        let name = Vec::from_slice(self.alloc, name)?;
        self.names.insert(name)?;
        Ok(true)
    }
}
