//! All paths of a deps log.

ghost use Rattle.std.specs.Prelude.{◌≡◌};
ghost use Rattle.nj_deps.specs.Cited.{YieldsFirstRef, item_count};

use nj_names::Names;
use std::marker::Model;

/// The paths of a deps log that are left, in the order of their numbers: the value of
/// [`DepsLog::paths`](crate::DepsLog::paths).
#[derive(Clone, Drop)]
pub struct Paths<'a> {
    paths: &'a Names,
    // the number of the next path
    next: usize,
}

impl<'a> Model for Paths<'a> {
    ghost use Rattle.std.specs.Prelude.{List, ℕ, ◌≤◌, drop, length};

    ghost Value = { List (List ℕ) };

    ghost view = { λ p. drop p.next p.paths.now };

    ghost invariant = { λ p. p.next ≤ length p.paths.now };
}

impl<'a> Paths<'a> {
    /// All of them.
    pub(crate) fn new(paths: &'a Names) -> Paths<'a>
        ensures { result ≡ paths.entry.now }
    {
        Paths { paths, next: 0 }
    }
}

impl<'a> Iterator for Paths<'a> {
    type Item = &'a [u8];

    ghost next_gives = { YieldsFirstRef (λ left. left) };

    ghost remaining = { item_count (λ left. left) };

    fn next(&mut self) -> Option<&'a [u8]> {
        if self.next == self.paths.count() {
            return None;
        }
        let path = self.paths.name(self.next);
        self.next += 1;
        Some(path)
    }
}
