//! A box of a session's contents, whose type names no other type: its owners are proved without a
//! look at all that it owns.

ghost use Rattle.std.specs.Prelude.{◌≡◌};
ghost use Rattle.nj_c.specs.declared.session_state.Kept.{Kept};
ghost use Rattle.nj_c.specs.Inside.Keeps.{boxed, lends, value_coded};

use crate::session_state::Kept;
use crate::taken_box::Loose;
use std::alloc::{AllocError, Global};
use std::marker::Model;

/// The contents of an open session.
pub(crate) struct Seal {
    at: *mut Kept,
    alloc: Global,
    pub(crate) ghost kept: { Kept } by { value_coded },
}

impl Model for Seal {
    ghost also_owns = { λ s. boxed s.alloc s.at s.kept };

    ghost also_shares = { λ s _ κ. lends s.at s.kept κ };
}

impl Seal {
    /// Keeps the contents of a box.
    pub(crate) fn new(value: Box<Kept>) -> Seal
        ensures { result.kept ≡ value.value }
    {
        Seal::of_loose(Loose::of(value))
    }

    /// The contents.
    pub(crate) fn get(&self) -> &Kept
        ensures { result.now ≡ self.now.kept }
    {
        unsafe { &*self.at }
    }

    /// The box again.
    pub(crate) fn into_box(self) -> Box<Kept>
        ensures { result.value ≡ self.kept }
    {
        self.into_loose().into_box()
    }

    pub(crate) fn of_loose(value: Loose<Kept, Global>) -> Seal
        ensures { result.kept ≡ value.value }
    {
        let Loose { at, alloc } = value;
        Seal { at, alloc }
    }

    pub(crate) fn into_loose(self) -> Loose<Kept, Global>
        ensures { result.value ≡ self.kept }
    {
        let Seal { at, alloc } = self;
        Loose { at, alloc }
    }
}

impl Drop for Seal {
    fn drop(self) {
        drop(self.into_box());
    }
}

unsafe impl Send for Seal {}
