//! The address of the edge that a walk returned last.

ghost use Rattle.std.specs.Prelude.{◌≡◌, ◌+◌, ◌<◌, ◌≤◌, List, [], ◌∷◌, ◌++◌, length, min, take, IfOk};
ghost use Rattle.nj_needs.specs.Cited.{places, KeepsFront};

use crate::frame::Frame;
use crate::reserved_list::ReservedList;
use std::alloc::{AllocError, Global};

/// The address, or the mark that the walk began with, and how many of its numbers still are numbers
/// of the path of open edges.
#[derive(Drop)]
pub(crate) struct Saved {
    pub numbers: ReservedList<u64>,
    pub kept: usize,
}

impl Saved {
    /// The given numbers, with capacity for `capacity` numbers.
    pub fn new(alloc: Global, numbers: &[u64], capacity: usize) -> Result<Saved, AllocError>
        requires { length numbers.now ≤ capacity }
        ensures numbers { IfOk result (λ s. s.numbers.items ≡ numbers.now) }
        ensures kept { IfOk result (λ s. s.kept ≡ 0) }
        ensures capacity { IfOk result (λ s. capacity ≤ s.numbers.capacity) }
    {
        let mut held = Vec::with_capacity(alloc, capacity)?;
        'copied: for number in numbers {
            held.push(*number)?;
        }
        Ok(Saved {
            numbers: ReservedList::new(held),
            kept: 0,
        })
    }

    /// An edge was closed, and `len` are still open.
    pub fn back_to(&mut self, len: usize)
        ensures numbers { self.new.numbers ≡ self.old.numbers }
        ensures kept { self.new.kept ≡ min self.old.kept len }
    {
        self.kept = self.kept.min(len);
    }

    /// Takes the address of the edge that was closed last, at this index of the row on top of the
    /// path. Only the part that differs from the address before is written, into existing capacity.
    pub fn save(&mut self, path: &[Frame], at: usize)
        requires front { KeepsFront self.old path.now }
        requires capacity { length path.now < self.old.numbers.capacity }
        ensures numbers { self.new.numbers.items ≡ places path.now ++ at ∷ [] }
        ensures kept { KeepsFront self.new path.now }
        ensures whole { self.new.kept ≡ length path.now }
        ensures capacity { self.new.numbers.capacity ≡ self.old.numbers.capacity }
    {
        self.numbers.truncate(self.kept);
        'changed: for frame in &path[self.kept..] {
            self.numbers.push(frame.at as u64);
        }
        self.numbers.push(at as u64);
        self.kept = path.len();
    }
}
