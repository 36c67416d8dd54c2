//! What a depfile names.

ghost use Rattle.std.specs.Prelude.{◌≡◌, ◌<◌, ◌⊎◌, Ok, Err, Some, length, slice_get, IfOk, IfErr};
ghost use Rattle.nj_depfiles.specs.Cited.{depfile_of, OutOfMemory};

use crate::depfile_fault::DepfileFault;
use crate::pieces::next_piece;
use crate::reading::Reading;
use nj_names::{HashKeys, Names};
use std::alloc::Global;
use std::marker::Model;

/// What a depfile names: targets, and the inputs that a compiler discovered for them. Each is
/// named once, letter by letter, in the order of the first mentions; paths are not cleaned.
#[derive(Drop)]
pub struct Depfile {
    pub(crate) targets: Names,
    pub(crate) inputs: Names,
}

impl Model for Depfile {
    ghost use Rattle.nj_depfiles.specs.Depfiles.{DepfileModel};

    ghost Value = { DepfileModel };

    ghost view = { λ d. record { targets = d.targets; inputs = d.inputs } };
}

impl Depfile {
    /// Reads a depfile, a rule of Make, as Ninja 1.13 reads it ("C/C++ header dependencies" in the
    /// Ninja manual).
    ///
    /// A word that ends in a colon is the last target of its line, and the words after it are
    /// inputs. A backslash keeps a space, `#` or `:` in a name, and joins a line with the next one;
    /// `$$` is `$`.
    ///
    /// Names are hashed by fixed keys, which everyone knows. For an untrusted file use
    /// [`Depfile::read_with_keys`].
    ///
    /// # Errors
    ///
    /// [`DepfileFault::NoColon`] if no word ends in a colon, as in an empty text,
    /// [`DepfileFault::InputHasInputs`] if a line with a target that was an input has new inputs,
    /// and [`DepfileFault::OutOfMemory`].
    pub fn read(alloc: Global, text: &[u8]) -> Result<Depfile, DepfileFault>
        ensures depfile { IfOk result (λ depfile. depfile_of text.now ≡ Ok depfile) }
        ensures fault { IfErr result (λ fault.
            (fault ≡ OutOfMemory) ⊎ (depfile_of text.now ≡ Err fault)) }
    {
        Depfile::read_with_keys(alloc, HashKeys::default(), text)
    }

    /// The same, with names that are hashed by the given keys: if the keys were drawn, nobody can
    /// choose many names that collide.
    ///
    /// # Errors
    ///
    /// Those of [`Depfile::read`].
    pub fn read_with_keys(
        alloc: Global,
        keys: HashKeys,
        text: &[u8],
    ) -> Result<Depfile, DepfileFault>
        ensures depfile { IfOk result (λ depfile. depfile_of text.now ≡ Ok depfile) }
        ensures fault { IfErr result (λ fault.
            (fault ≡ OutOfMemory) ⊎ (depfile_of text.now ≡ Err fault)) }
    {
        let mut reading = Reading::new(alloc, keys);
        let mut rest = text;
        'pieces: while let Some((piece, after)) = next_piece(rest) {
            reading.take(piece)?;
            rest = after;
        }
        reading.finish()
    }

    /// The number of targets.
    pub fn target_count(&self) -> usize
        ensures { result ≡ length self.now.targets }
    {
        self.targets.count()
    }

    /// The target with the given number.
    pub fn target(&self, number: usize) -> &[u8]
        requires { number < length self.now.targets }
        ensures { slice_get self.now.targets number ≡ Some result.now }
    {
        self.targets.name(number)
    }

    /// The number of inputs.
    pub fn input_count(&self) -> usize
        ensures { result ≡ length self.now.inputs }
    {
        self.inputs.count()
    }

    /// The input with the given number.
    pub fn input(&self, number: usize) -> &[u8]
        requires { number < length self.now.inputs }
        ensures { slice_get self.now.inputs number ≡ Some result.now }
    {
        self.inputs.name(number)
    }
}
