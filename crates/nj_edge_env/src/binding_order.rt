//! The order in which blocks bind names.

ghost use Rattle.std.specs.Prelude.{◌≡◌, ◌≤◌, [], length, slice_index_or, slice_set, OnOk};

use std::alloc::{AllocError, Global};

/// For each name, by its number, the name that was bound after it the last time. Most blocks bind
/// names in the order of an earlier block, so this predicts which name comes next.
#[derive(Drop)]
pub(crate) struct NameOrder {
    // the name that was bound last
    latest: usize,
    following: Vec<usize>,
}

impl NameOrder {
    /// No names. It allocates nothing.
    pub(crate) fn new(alloc: Global) -> NameOrder
        ensures { result.following.items ≡ [] }
    {
        NameOrder {
            latest: 0,
            following: Vec::new(alloc),
        }
    }

    /// The number of the name that probably comes next. A name with that number may not exist.
    #[inline(always)]
    pub(crate) fn guess(&self) -> usize
        ensures { result ≡ slice_index_or self.now.following.items self.now.latest 0 }
    {
        match self.following.as_slice().get(self.latest) {
            Some(number) => *number,
            None => 0,
        }
    }

    /// Makes room for at least `count` names.
    pub(crate) fn grow(&mut self, count: usize) -> Result<(), AllocError>
        ensures { OnOk result (count ≤ length self.new.following.items) }
    {
        if self.following.as_slice().len() < count {
            self.following.resize(count, 0)?;
        }
        Ok(())
    }

    /// Notes that the name with the given number was bound after the latest one.
    #[inline(always)]
    pub(crate) fn note(&mut self, number: usize)
        ensures latest { self.new.latest ≡ number }
        ensures following { self.new.following.items
            ≡ slice_set self.old.following.items self.old.latest number }
    {
        if let Some(next) = self.following.get_mut(self.latest) {
            *next = number;
        }
        self.latest = number;
    }
}
