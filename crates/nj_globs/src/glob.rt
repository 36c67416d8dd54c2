//! Globs.

ghost use Rattle.std.specs.Prelude.{◌≡◌, ◌↔◌, IsTrue, IfOk, IfErr};
ghost use Rattle.nj_globs.specs.Cited.{Matches, ArePartsOf, IsGlobFault};

use crate::fits::{Fit, put_in_front, set_empty};
use crate::glob_fault::GlobFault;
use crate::letters::read_letters;
use crate::parts::Part;
use crate::reading::read_parts;
use std::alloc::Global;
use std::marker::Model;

/// A glob: a pattern for paths.
#[derive(Drop)]
pub struct Glob {
    parts: Vec<Part>,
    // a fit from each part on, and a fit of no parts; overwritten for each path
    fits: Vec<Fit>,
}

impl Model for Glob {
    ghost use Rattle.std.specs.Prelude.{◌≡◌, ◌+◌, List, length};
    ghost use Rattle.nj_globs.specs.Globs.{GlobPart};
    ghost use Rattle.nj_globs.specs.Inside.Fits.{parts_model};

    ghost Value = { List GlobPart };

    ghost view = { λ g. parts_model g.parts.items };

    ghost invariant = { λ g. length g.fits.items ≡ length g.parts.items + 1 };
}

impl Glob {
    /// Reads a pattern.
    ///
    /// # Errors
    ///
    /// [`GlobFault::BackslashAtEnd`] if the last byte is a `\` with no byte to escape. Otherwise
    /// [`GlobFault::UnclosedSet`] or [`GlobFault::ReversedRange`], for the first set that is wrong.
    /// No other pattern is refused, except by [`GlobFault::OutOfMemory`].
    pub fn read(alloc: Global, pattern: &[u8]) -> Result<Glob, GlobFault>
        ensures glob { IfOk result (λ glob. ArePartsOf pattern.now glob) }
        ensures fault { IfErr result (λ fault. IsGlobFault pattern.now fault) }
    {
        let letters = read_letters(alloc, pattern)?;
        let parts = read_parts(alloc, &letters)?;
        let mut fits = Vec::new(alloc);
        fits.resize(parts.as_slice().len() + 1, Fit::END)?;
        Ok(Glob { parts, fits })
    }

    /// Whether the whole path matches. It borrows the glob mutably only for a buffer, so it
    /// allocates nothing. It takes at most a step for each pair of a byte of the path and a byte of
    /// the pattern.
    pub fn matches(&mut self, path: &[u8]) -> bool
        ensures answer { IsTrue result ↔ Matches self.old path.now }
        ensures same { self.new ≡ self.old }
    {
        let fits = self.fits.as_mut_slice();
        set_empty(&self.parts, fits);
        'bytes: for index in (0..path.len()).rev() {
            put_in_front(&self.parts, fits, path[index]);
        }
        fits[0].whole
    }
}
