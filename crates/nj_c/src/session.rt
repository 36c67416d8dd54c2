//! A pointer that owns its target, or is null.

ghost use Rattle.std.specs.Prelude.{◌≡◌, None, Some, option_map};
ghost use Rattle.std.specs.declared.option.Option.{Option};
ghost use Rattle.nj_c.specs.declared.session_state.Kept.{Kept};
ghost use Rattle.nj_c.specs.Inside.Keeps.{keeps, kept_coded};

use crate::sealed_box::Seal;
use crate::session_state::Kept;
use crate::taken_box::Loose;
use std::alloc::Global;
use std::marker::Model;
use std::mem;
use std::ptr::null_mut;

/// A value on the heap that C keeps by a pointer; a null pointer keeps none.
#[repr(C)]
pub struct Session {
    at: *mut u8,
    alloc: Global,
    pub ghost kept: { Option Kept } by { kept_coded },
}

impl Model for Session {
    ghost also_owns = { λ s. keeps s.alloc s.at s.kept };
}

impl Session {
    pub(crate) fn empty(alloc: Global) -> Session
        ensures { result.kept ≡ None }
    {
        Session {
            at: null_mut(),
            alloc,
        }
    }

    fn holding(value: Loose<Kept, Global>) -> Session
        ensures { result.kept ≡ Some value.value }
    {
        let Loose { at, alloc } = value;
        let at = at as *mut u8;
        Session { at, alloc }
    }

    fn into_loose(self) -> Option<Loose<Kept, Global>>
        ensures { option_map (λ l. l.value) result ≡ self.kept }
    {
        let Session { at, alloc } = self;
        if at.is_null() {
            None
        } else {
            let at = at as *mut Kept;
            Some(Loose { at, alloc })
        }
    }

    fn into_seal(self) -> Option<Seal>
        ensures { option_map (λ s. s.kept) result ≡ self.kept }
    {
        match self.into_loose() {
            Some(value) => Some(Seal::of_loose(value)),
            None => None,
        }
    }

    /// Takes out the contents of the session, so that it keeps nothing.
    pub(crate) fn take(&mut self, alloc: Global) -> Option<Seal>
        ensures taken { option_map (λ s. s.kept) result ≡ self.old.kept }
        ensures left { self.new.kept ≡ None }
    {
        mem::replace(self, Session::empty(alloc)).into_seal()
    }

    /// Keeps the given contents from now on.
    pub(crate) fn put(&mut self, kept: Seal)
        ensures { self.new.kept ≡ Some kept.kept }
    {
        *self = Session::holding(kept.into_loose());
    }
}

impl Drop for Session {
    fn drop(self) {
        if let Some(kept) = self.into_seal() {
            drop(kept);
        }
    }
}

unsafe impl Send for Session {}
