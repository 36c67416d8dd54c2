//! A list in reserved memory. A walk keeps all that it writes in such lists and in numbers.
//!
//! A call that allocates takes an allocator, or a value that lends one, as a `Vec` does. So the
//! `Vec` of a list is private, and no method lends it or its allocator, or lets it grow.
//! `Needs::next` reaches no other allocator, so a body of it that makes a `Vec` and drops it does
//! not compile.

ghost use Rattle.std.specs.Prelude.{◌≡◌, ◌<◌, [], ◌∷◌, ◌++◌, length, take, MatchOption, Some, slice_get, slice_set, vec_capacity};

use std::marker::Model;

/// A list that keeps to the memory of the `Vec` from which it was made.
#[derive(Drop)]
pub(crate) struct ReservedList<T> {
    list: Vec<T>,
}

impl<T> Model for ReservedList<T> {
    ghost use Rattle.std.specs.Prelude.{vec_capacity};
    ghost use Rattle.nj_needs.specs.Inside.Reserved.{Reserved};

    ghost Value = { Reserved T };

    ghost view = { λ l. record { items = l.list.items; capacity = vec_capacity l.list } };
}

impl<T: Copy> ReservedList<T> {
    /// The items of a `Vec`, and its memory.
    pub fn new(list: Vec<T>) -> ReservedList<T>
        ensures items { result.items ≡ list.items }
        ensures capacity { result.capacity ≡ vec_capacity list }
    {
        ReservedList { list }
    }

    pub fn len(&self) -> usize
        ensures { result ≡ length self.now.items }
    {
        self.list.len()
    }

    /// All items. A slice has no allocator.
    pub fn as_slice(&self) -> &[T]
        ensures { result.now ≡ self.now.items }
    {
        self.list.as_slice()
    }

    pub fn get(&self, index: usize) -> T
        requires { index < length self.now.items }
        ensures { slice_get self.now.items index ≡ Some result }
    {
        self.list[index]
    }

    pub fn set(&mut self, index: usize, item: T)
        requires { index < length self.old.items }
        ensures items { self.new.items ≡ slice_set self.old.items index item }
        ensures capacity { self.new.capacity ≡ self.old.capacity }
    {
        self.list[index] = item;
    }

    /// Appends an item, within the capacity.
    pub fn push(&mut self, item: T)
        requires { length self.old.items < self.old.capacity }
        ensures items { self.new.items ≡ self.old.items ++ item ∷ [] }
        ensures capacity { self.new.capacity ≡ self.old.capacity }
    {
        self.list.push_reserved(item);
    }

    /// Removes and returns the last item, or `None` if the list is empty.
    pub fn pop(&mut self) -> Option<T>
        ensures items { MatchOption result ((self.old.items ≡ []) × (self.new.items ≡ []))
            (λ item. self.old.items ≡ self.new.items ++ item ∷ []) }
        ensures capacity { self.new.capacity ≡ self.old.capacity }
    {
        self.list.pop()
    }

    /// Keeps at most so many items, from the first on.
    pub fn truncate(&mut self, len: usize)
        ensures items { self.new.items ≡ take len self.old.items }
        ensures capacity { self.new.capacity ≡ self.old.capacity }
    {
        self.list.truncate(len);
    }
}
