//! The `build` and `default` statements.

ghost use Rattle.std.specs.Prelude.{◌≡◌, ◌<◌, length, OnOk};
ghost use Rattle.nj_graph.specs.Cited.{words_model, build_model, DefaultModel, entry_at, InFile, ScopesGrow, Declares};

use crate::reader::{OpenFile, Reader};
use nj_faults::GraphFault;
use nj_manifest::{Build, Spot, Word};
use std::alloc::Global;

impl Reader {
    /// Reads a `build` statement, whose first byte is at the given place.
    pub(crate) fn build(
        &mut self,
        alloc: Global,
        file: OpenFile<'_>,
        spot: Spot,
        build: &Build<'_>,
    ) -> Result<(), GraphFault>
        requires { file.scope.0 < length self.old.declarations.scopes }
        ensures declares { InFile self.old file.entry (λ main site entries.
            let e = entry_at site (record { spot = spot; item = build_model build.now }) in
            Declares main self.new e entries result) }
        ensures files { self.new.files ≡ self.old.files }
        ensures grows { OnOk result (ScopesGrow self.old self.new) }
    {
        let place = file.place(spot);
        self.building
            .read_build(alloc, &self.declarations, place, file.scope, build)
    }

    /// Reads a `default` statement, whose first byte is at the given place.
    pub(crate) fn add_defaults(
        &mut self,
        alloc: Global,
        file: OpenFile<'_>,
        spot: Spot,
        words: &[Word<'_>],
    ) -> Result<(), GraphFault>
        requires { file.scope.0 < length self.old.declarations.scopes }
        ensures declares { InFile self.old file.entry (λ main site entries.
            let item = DefaultModel (words_model words.now) in
            let e = entry_at site (record { spot = spot; item = item }) in
            Declares main self.new e entries result) }
        ensures files { self.new.files ≡ self.old.files }
        ensures grows { OnOk result (ScopesGrow self.old self.new) }
    {
        let place = file.place(spot);
        self.building
            .read_default(alloc, &self.declarations, place, file.scope, words)
    }
}
