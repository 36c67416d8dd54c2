//! Sets of files.

ghost use Rattle.std.specs.Prelude.{◌≡◌, ◌++◌, ◌∷◌, [], List, ℕ, IfOk};
ghost use Rattle.nj_tools.specs.Cited.{HasExactly, file_of, is_among};

use nj_graph::{File, Graph};
use std::alloc::{AllocError, Global};
use std::marker::Model;

/// A set of files of a graph.
#[derive(Drop)]
pub(crate) struct FileSet<'g> {
    pub(crate) graph: &'g Graph,
    // A flag for each file of the graph: whether the set has it.
    flags: Vec<bool>,
}

impl<'g> Model for FileSet<'g> {
    ghost use Rattle.std.specs.Prelude.{◌≡◌, bytes_eq, length};
    ghost use Rattle.std.specs.List.{IsDistinct};
    ghost use Rattle.nj_graph.specs.Graph.{files_of};
    ghost use Rattle.nj_tools.specs.Inside.Collections.{Flags};

    ghost Value = { Flags };

    ghost view = { λ s. record { graph = s.graph.now; flags = s.flags.items } };

    ghost invariant = { λ s. (length s.flags.items ≡ length (files_of s.graph.now))
        × IsDistinct bytes_eq (files_of s.graph.now) };
}

impl<'g> FileSet<'g> {
    /// Returns the empty set of files of the graph.
    pub(crate) fn new(alloc: Global, graph: &'g Graph) -> Result<FileSet<'g>, AllocError>
        ensures graph { IfOk result (λ set. set.graph ≡ graph.entry.now) }
        ensures none { IfOk result (λ set. HasExactly set []) }
    {
        Ok(FileSet {
            graph,
            flags: vec![in alloc; false; graph.file_count()]?,
        })
    }

    /// Whether it has a file.
    pub(crate) fn has(&self, file: File<'_>) -> bool
        requires { (file_of file).graph ≡ self.now.graph }
        ensures { (paths : List (List ℕ)) → HasExactly self.now paths
            → result ≡ is_among paths (file_of file.entry).path }
    {
        self.flags[file.number().0]
    }

    /// Adds a file.
    pub(crate) fn insert(&mut self, file: File<'_>)
        requires { (file_of file).graph ≡ self.old.graph }
        ensures graph { self.new.graph ≡ self.old.graph }
        ensures more { (paths : List (List ℕ)) → HasExactly self.old paths
            → HasExactly self.new (paths ++ (file_of file.entry).path ∷ []) }
    {
        self.flags[file.number().0] = true;
    }
}
