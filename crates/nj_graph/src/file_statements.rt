//! The statements that name a file, and how it is opened.

ghost use Rattle.std.specs.Prelude.{◌≡◌, ℕ, ◌<◌, List, length, IfOk, OnOk};
ghost use Rattle.nj_graph.specs.Cited.{Spot, WordModel, word_model, DeclaredBy, ReadStatement, entry_at, expanded_in, path_fault, site_scope, Has, InFile, IsOpenIn, ScopesGrow, site_of, place_in, named_item, named_site, EntersScope, ReturnsText, OpensOrStops, GivesPath, OpensPath};

use crate::reader::{OpenFile, Opened, Reader};
use nj_faults::{Cause, GraphFault, MOST_OPENED, Name, PlaceRef};
use nj_manifest::{Spot, Word};
use nj_scope::{FileSource, FileTable, ScopeNo, SourceFault};
use std::alloc::{AllocError, Global};
use std::rc::RcSlice;

/// How a statement names a file: the statements of an included file are in the scope of the
/// `include`, those of any other file in a new scope within the scope of the `subninja`.
#[derive(Clone, Copy)]
pub(crate) enum Naming {
    Include,
    Subninja,
}

impl Reader {
    /// Opens the file that the word of a statement names; the statement is at the given place.
    pub(crate) fn open_named<S: FileSource>(
        &mut self,
        alloc: Global,
        source: &mut S,
        file: OpenFile<'_>,
        spot: Spot,
        naming: Naming,
        word: &Word<'_>,
    ) -> Result<Opened, GraphFault>
        requires { file.scope.0 < length self.old.declarations.scopes }
        ensures opens { InFile self.old file.entry (λ main site entries.
            let item = named_item naming (word_model word.now) in
            OpensOrStops main (S.state source.old) (S.state source.new) self.old self.new
            file.entry.left (entry_at site (record { spot = spot; item = item })) entries result) }
        ensures left { OnOk result (0 < file.entry.left) }
        ensures there { IfOk result (λ o. o.scope.0 < length self.new.declarations.scopes) }
        ensures grows { OnOk result (ScopesGrow self.old self.new) }
    {
        let path = self.path(alloc, file, word)?;
        let text = self.open_file(alloc, source, file, word.spot, &path)?;
        let scope = self.scope_for(file, naming)?;
        self.origins.add_opening(file.place(spot), &path, scope)?;
        Ok(Opened { path, scope, text })
    }

    // The path that a word expands to.
    fn path(&self, alloc: Global, file: OpenFile<'_>, word: &Word<'_>) -> Result<String, GraphFault>
        requires { file.scope.0 < length self.now.declarations.scopes }
        ensures { InFile self.now file.entry (λ main site entries.
            let path = expanded_in (site_scope site) entries (word_model word.now) in
            GivesPath (path_fault site.file word.now.spot path) path result) }
    {
        let path = self.declarations.expand(alloc, file.scope, word)?;
        if path.as_slice().is_empty() {
            return Err(file.fault(alloc, word.spot, Cause::EmptyPath));
        }
        match String::from_utf8(path) {
            Ok(path) => Ok(path),
            Err(_) => Err(file.fault(alloc, word.spot, Cause::PathNotText)),
        }
    }

    // Opens the file at the path for the word at the given place.
    fn open_file<S: FileSource>(
        &mut self,
        alloc: Global,
        source: &mut S,
        file: OpenFile<'_>,
        spot: Spot,
        path: &str,
    ) -> Result<RcSlice<u8>, GraphFault>
        ensures opens { (main : List ℕ) (entries : List ReadStatement) → Has main self.old entries
            → OpensPath main (S.state source.old) (S.state source.new) self.old self.new
            file.entry.left (place_in file.entry spot) path.now entries result }
        ensures left { OnOk result (0 < file.entry.left) }
        ensures declarations { self.new.declarations ≡ self.old.declarations }
        ensures building { self.new.building ≡ self.old.building }
        ensures origins { self.new.origins ≡ self.old.origins }
    {
        if file.left == 0 {
            return Err(file.fault(alloc, spot, Cause::TooDeep));
        }
        if self.origins.opening_count() >= MOST_OPENED {
            return Err(file.fault(alloc, spot, Cause::TooManyOpenings));
        }
        text_at(alloc, source, &mut self.files, file.place(spot), path)
    }

    // The number of the scope of a named file's statements.
    fn scope_for(&mut self, file: OpenFile<'_>, naming: Naming) -> Result<ScopeNo, AllocError>
        requires { file.scope.0 < length self.old.declarations.scopes }
        ensures enters { (start : Spot) (word : WordModel)
            (entries : List ReadStatement) (around : List ℕ) (depth : ℕ)
            → DeclaredBy self.old.declarations entries → IsOpenIn self.old file.entry around
            → let site = site_of file.entry around depth in
            let e = entry_at site (record { spot = start; item = named_item naming word }) in
            IfOk result (λ n. EntersScope self.new n.0 (named_site naming e entries word) e entries) }
        ensures there { IfOk result (λ n. n.0 < length self.new.declarations.scopes) }
        ensures grows { OnOk result (ScopesGrow self.old self.new) }
        ensures building { self.new.building ≡ self.old.building }
        ensures files { self.new.files ≡ self.old.files }
        ensures origins { self.new.origins ≡ self.old.origins }
    {
        match naming {
            Naming::Include => Ok(file.scope),
            Naming::Subninja => self.declarations.open(file.scope),
        }
    }
}

// The text of the file at the path, which is read unless the table has it; a fault is placed at the
// word at this place. The name in the fault is copied before the file is read, so that a failed
// read is reported as a failed read.
pub(crate) fn text_at<S: FileSource>(
    alloc: Global,
    source: &mut S,
    files: &mut FileTable,
    place: PlaceRef<'_>,
    path: &str,
) -> Result<RcSlice<u8>, GraphFault>
    ensures { ReturnsText (S.state source.old) (S.state source.new) files.old files.new
        (record { file = place.entry.file.now; spot = place.entry.spot }) path.now result }
{
    let name = Name::new(alloc, path.as_bytes())?;
    let place = Some(place.to_place(alloc)?);
    match files.open(alloc, source, path) {
        Ok(Some(text)) => Ok(text),
        Ok(None) => Err(GraphFault {
            place,
            cause: Cause::Missing(name),
        }),
        Err(SourceFault::Io) => Err(GraphFault {
            place,
            cause: Cause::Io(name),
        }),
        Err(SourceFault::OutOfMemory) => Err(GraphFault::out_of_memory()),
    }
}
