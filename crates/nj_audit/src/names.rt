//! Sets of names.

ghost use Rattle.std.specs.Prelude.{◌≡◌, ◌||◌, ℕ, List, [], false, not, bytes_eq, IfOk, OnOk};
ghost use Rattle.nj_audit.specs.Cited.{is_among};

use std::alloc::{AllocError, Global};
use std::collections::BTreeSet;
use std::marker::Model;

/// Names without duplicates.
#[derive(Drop)]
pub struct Names {
    alloc: Global,
    names: BTreeSet<Vec<u8>>,
}

impl Model for Names {
    ghost use Rattle.std.specs.Prelude.{ℕ, List, map};

    ghost Value = { List (List ℕ) };

    ghost view = { λ n. map (λ name. name.items) n.names.keys };
}

impl Names {
    /// Returns an empty set.
    pub fn new(alloc: Global) -> Names
        ensures { result ≡ [] }
    {
        Names {
            alloc,
            names: BTreeSet::new(alloc),
        }
    }

    /// Whether a name is in the set.
    pub fn has(&self, name: &[u8]) -> bool
        ensures { result ≡ is_among self.now name.now }
    {
        self.names.contains(name)
    }

    /// Adds a name. Returns whether it is new.
    pub fn add(&mut self, name: &[u8]) -> Result<bool, AllocError>
        ensures new { IfOk result (λ is_new. is_new ≡ not (is_among self.old name.now)) }
        ensures names { OnOk result ((other : List ℕ) →
            is_among self.new other ≡ (bytes_eq other name.now || is_among self.old other)) }
    {
        let name = Vec::from_slice(self.alloc, name)?;
        let is_new = self.names.insert(name)?;
        Ok(is_new)
    }
}
