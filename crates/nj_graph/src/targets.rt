//! Targets, as named by words of a command line.

ghost use Rattle.std.specs.Prelude.{◌≡◌, ◌<◌, Some, All, IfOk, length, map, option_map};
ghost use Rattle.nj_graph.specs.Cited.{edges_of, files_of, target, first_made_of, made_target, clean_target, picked, targets_named, targets_or, Picks, PicksFile, PicksFiles, PicksTargets, defaults_in_force, file_in, file_of};

use crate::file_lists::FileList;
use crate::graph::Graph;
use crate::handles::File;
use nj_edges::FileNo;
use nj_faults::{Cause, GraphFault, Name};
use nj_text::{TextFault, clean_path};
use std::alloc::Global;
use std::convert::AsSlice;

/// The file that a word of a command line denotes, by its number ([`Graph::target`]).
///
/// # Errors
///
/// The errors of [`Graph::target`].
pub fn pick_target(alloc: Global, graph: &Graph, word: &[u8]) -> Result<FileNo, GraphFault>
    ensures { Picks (files_of graph.now) (picked (edges_of graph.now) word.now) result }
{
    let file = graph.target(alloc, word)?;
    Ok(file.number())
}

impl Graph {
    /// The file that a word of a command line denotes: the file at its path, which is cleaned
    /// first; for `FILE^` the first output of the lowest-numbered edge that has FILE as an input
    /// ("Running Ninja" in the Ninja manual).
    ///
    /// # Errors
    ///
    /// An empty word, a file that no edge names, and for `FILE^` a file that no edge has as an
    /// input; or an allocation failed. The fault has no place.
    pub fn target(&self, alloc: Global, word: &[u8]) -> Result<File<'_>, GraphFault>
        ensures { PicksFile self.now (picked (edges_of self.now) word.now) result }
    {
        match clean_path(alloc, word) {
            Ok(path) => self.clean_target(alloc, &path),
            Err(TextFault::EmptyPath) => Err(GraphFault::unplaced(Cause::EmptyPath)),
            Err(TextFault::OutOfMemory) => Err(GraphFault::out_of_memory()),
        }
    }

    // The file that a clean path denotes.
    fn clean_target(&self, alloc: Global, path: &[u8]) -> Result<File<'_>, GraphFault>
        ensures { PicksFile self.now (clean_target (edges_of self.now) path.now) result }
    {
        match path.strip_suffix(b"^".as_slice()) {
            Some(file) => self.made_target(alloc, file),
            None => self.named_target(alloc, path),
        }
    }

    // The file at a path.
    fn named_target(&self, alloc: Global, path: &[u8]) -> Result<File<'_>, GraphFault>
        ensures { PicksFile self.now (target (edges_of self.now) path.now) result }
    {
        match self.file(path) {
            Some(file) => Ok(file),
            None => {
                let cause = Cause::UnknownTarget(Name::new(alloc, path)?);
                Err(GraphFault::unplaced(cause))
            }
        }
    }

    // The first output of the first edge that has the file at a path as an input.
    fn made_target(&self, alloc: Global, path: &[u8]) -> Result<File<'_>, GraphFault>
        ensures { PicksFile self.now (made_target (edges_of self.now) path.now) result }
    {
        let file = self.named_target(alloc, path)?;
        match first_made_of(file) {
            Some(made) => Ok(made),
            None => {
                let cause = Cause::NoOutEdge(Name::new(alloc, path)?);
                Err(GraphFault::unplaced(cause))
            }
        }
    }

    /// The files that words of a command line denote, in their order, each as by [`Graph::target`];
    /// the defaults in force if there are no words.
    ///
    /// # Errors
    ///
    /// The fault of the first word that does not denote a file; or an allocation failed.
    pub fn targets<W: AsSlice<u8>>(
        &self,
        alloc: Global,
        words: &[W],
    ) -> Result<FileList<'_>, GraphFault>
        ensures { PicksFiles self.now
            (targets_or (defaults_in_force self.now.built.defaults (edges_of self.now))
            (edges_of self.now) (map W.items words.now)) result }
    {
        let numbers = self.pick_targets(alloc, words)?;
        Ok(FileList {
            graph: self,
            numbers,
        })
    }

    /// The files that words of a command line denote, in their order, by their numbers
    /// ([`Graph::targets`]).
    ///
    /// # Errors
    ///
    /// The errors of [`Graph::targets`].
    pub fn pick_targets<W: AsSlice<u8>>(
        &self,
        alloc: Global,
        words: &[W],
    ) -> Result<Vec<FileNo>, GraphFault>
        ensures picks { PicksTargets (files_of self.now)
            (targets_or (defaults_in_force self.now.built.defaults (edges_of self.now))
            (edges_of self.now) (map W.items words.now)) result }
        ensures known { IfOk result (λ files.
            All (λ file. file.0 < length (files_of self.now)) files.items) }
    {
        if words.is_empty() {
            return Ok(Vec::from_slice(alloc, self.defaults())?);
        }
        self.pick_named(alloc, words)
    }

    /// The files that words of a command line denote, in their order: no files if there are no
    /// words. For this library's own crates.
    ///
    /// # Errors
    ///
    /// The fault of the first word that does not denote a file; or an allocation failed.
    pub fn pick_named<W: AsSlice<u8>>(
        &self,
        alloc: Global,
        words: &[W],
    ) -> Result<Vec<FileNo>, GraphFault>
        ensures { PicksTargets (files_of self.now)
            (targets_named (edges_of self.now) (map W.items words.now)) result }
    {
        let mut files = Vec::new(alloc);
        'words: for word in words {
            let file = pick_target(alloc, self, word.as_slice())?;
            files.push(file)?;
        }
        Ok(files)
    }
}

// The first output of the first edge that has a file as an input.
fn first_made_of(file: File<'_>) -> Option<File<'_>>
    ensures { option_map file_of result ≡ option_map (file_in (file_of file.entry).graph)
        (first_made_of (edges_of (file_of file.entry).graph) (file_of file.entry).path) }
{
    let edge = file.users().first()?;
    edge.outputs().first()
}
