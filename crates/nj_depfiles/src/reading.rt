//! The reading of a depfile, piece by piece.

ghost use Rattle.std.specs.Prelude.{◌≡◌, Ok};
ghost use Rattle.nj_depfiles.specs.Cited.{ends_in_colon, name_in, piece_of, Answers, GoesOn, at_start, before_word, piece_read, told, then_read, with_name_read, word_ended};

use crate::depfile::Depfile;
use crate::depfile_fault::DepfileFault;
use crate::pieces::Piece;
use nj_names::{HashKeys, Names};
use std::alloc::{AllocError, Global};
use std::marker::Model;

/// What a depfile names up to a word of a line.
#[derive(Drop)]
pub(crate) struct Reading {
    named: Depfile,
    // The bytes of the word so far.
    word: Vec<u8>,
    // Whether a word of the line ended in a colon: the words after it are inputs.
    is_right: bool,
    // Whether a target of the line was an input: the line has no new input then.
    is_poisoned: bool,
    // Whether any word ended in a colon.
    has_colon: bool,
}

impl Model for Reading {
    ghost use Rattle.nj_depfiles.specs.Inside.Readings.{ReadingModel};

    ghost Value = { ReadingModel };

    ghost view = { λ r. record {
      line = record {
        named = r.named;
        is_right = r.is_right;
        is_poisoned = r.is_poisoned;
        has_colon = r.has_colon;
      };
      word = r.word.items;
    } };
}

impl Reading {
    /// Nothing is read yet. Names are hashed by the given keys. Allocates nothing.
    pub(crate) fn new(alloc: Global, keys: HashKeys) -> Reading
        ensures { result ≡ at_start }
    {
        Reading {
            named: Depfile {
                targets: Names::new(alloc, keys),
                inputs: Names::new(alloc, keys),
            },
            word: Vec::new(alloc),
            is_right: false,
            is_poisoned: false,
            has_colon: false,
        }
    }

    /// Reads the next piece.
    pub(crate) fn take(&mut self, piece: Piece<'_>) -> Result<(), DepfileFault>
        ensures { GoesOn (piece_read self.old (piece_of piece.entry)) self.new result }
    {
        match piece {
            Piece::NameBytes(bytes) => Ok(self.word.extend_from_slice(bytes)?),
            Piece::NameEnd => self.end_word(),
            Piece::LineEnd => {
                self.end_word()?;
                self.is_right = false;
                self.is_poisoned = false;
                Ok(())
            }
        }
    }

    /// What the depfile names, after its last piece.
    pub(crate) fn finish(mut self) -> Result<Depfile, DepfileFault>
        ensures { Answers (then_read (word_ended self.line self.word) told) result }
    {
        self.end_word()?;
        if self.has_colon {
            Ok(self.named)
        } else {
            Err(DepfileFault::NoColon)
        }
    }

    // The word so far is whole, unless it is empty.
    fn end_word(&mut self) -> Result<(), DepfileFault>
        ensures { GoesOn (then_read (word_ended self.old.line self.old.word)
            (λ line. Ok (before_word line))) self.new result }
    {
        if self.word.is_empty() {
            return Ok(());
        }
        let is_colon = ends_in_colon(&self.word);
        self.add_name()?;
        self.word.clear();
        self.is_right = self.is_right || is_colon;
        self.has_colon = self.has_colon || is_colon;
        Ok(())
    }

    // Adds the name of the word so far, if any.
    fn add_name(&mut self) -> Result<(), DepfileFault>
        ensures { GoesOn (then_read (with_name_read self.old.line (name_in self.old.word))
            (λ line. Ok (record self.old { line = line }))) self.new result }
    {
        let name = name_in(&self.word);
        if name.is_empty() {
            return Ok(());
        }
        let is_input = self.named.inputs.number(name).is_some();
        if self.is_right {
            if self.is_poisoned && !is_input {
                return Err(DepfileFault::InputHasInputs);
            }
            self.named.inputs.add(name)?;
        } else if is_input {
            self.is_poisoned = true;
        } else {
            self.named.targets.add(name)?;
        }
        Ok(())
    }
}

// Whether a word ends in a colon.
fn ends_in_colon(word: &[u8]) -> bool
    ensures { result ≡ ends_in_colon word.now }
{
    match word {
        [.., byte] => *byte == b':',
        [] => false,
    }
}

// A word without the colon at its end.
fn name_in(word: &[u8]) -> &[u8]
    ensures { result.now ≡ name_in word.now }
{
    match word {
        [name @ .., b':'] => name,
        _ => word,
    }
}
