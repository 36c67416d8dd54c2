//! The outputs of a build log.

ghost use Rattle.std.specs.Prelude.{◌≡◌};
ghost use Rattle.nj_build_log.specs.Cited.{YieldsFirstRef, item_count};

use nj_names::Names;
use std::marker::Model;

/// The remaining outputs of a build log, in the order of their first lines: the value of
/// [`BuildLog::outputs`](crate::BuildLog::outputs).
#[derive(Clone, Drop)]
pub struct Outputs<'a> {
    outputs: &'a Names,
    // the number of the next output
    next: usize,
}

impl<'a> Model for Outputs<'a> {
    ghost use Rattle.std.specs.Prelude.{List, ℕ, ◌≤◌, drop, length};

    ghost Value = { List (List ℕ) };

    ghost view = { λ o. drop o.next o.outputs.now };

    ghost invariant = { λ o. o.next ≤ length o.outputs.now };
}

impl<'a> Outputs<'a> {
    /// All outputs.
    pub(crate) fn new(outputs: &'a Names) -> Outputs<'a>
        ensures { result ≡ outputs.entry.now }
    {
        Outputs { outputs, next: 0 }
    }
}

impl<'a> Iterator for Outputs<'a> {
    type Item = &'a [u8];

    ghost next_gives = { YieldsFirstRef (λ left. left) };

    ghost remaining = { item_count (λ left. left) };

    fn next(&mut self) -> Option<&'a [u8]> {
        if self.next == self.outputs.count() {
            return None;
        }
        let output = self.outputs.name(self.next);
        self.next += 1;
        Some(output)
    }
}
