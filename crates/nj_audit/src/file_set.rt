//! Sets of files.

ghost use Rattle.std.specs.Prelude.{◌≡◌, [], not, IfOk, OnOk};
ghost use Rattle.nj_audit.specs.Cited.{file_of, is_among, with_name};

use nj_graph::{File, Graph};
use nj_names::RoundSet;
use std::alloc::{AllocError, Global};
use std::marker::Model;

/// Files of a graph without duplicates, by their numbers.
#[derive(Drop)]
pub struct FileSet<'g> {
    graph: &'g Graph,
    numbers: RoundSet,
}

impl<'g> Model for FileSet<'g> {
    ghost use Rattle.std.specs.Prelude.{map};
    ghost use Rattle.nj_names.specs.NameTables.{name_at};
    ghost use Rattle.nj_graph.specs.Graph.{files_of};
    ghost use Rattle.nj_audit.specs.Inside.FileSets.{FileSetModel, HasFileNumbers};

    ghost Value = { FileSetModel };

    ghost view = { λ s. record {
      graph = s.graph.now;
      paths = map (name_at (files_of s.graph.now)) s.numbers.numbers;
    } };

    ghost invariant = { λ s. HasFileNumbers (files_of s.graph.now) s.numbers };
}

impl<'g> FileSet<'g> {
    /// Returns an empty set.
    pub fn new(alloc: Global, graph: &'g Graph) -> Result<FileSet<'g>, AllocError>
        ensures { IfOk result (λ s. s ≡ record { graph = graph.entry.now; paths = [] }) }
    {
        Ok(FileSet {
            graph,
            numbers: RoundSet::none_below(alloc, graph.file_count())?,
        })
    }

    /// Whether a file is in the set.
    pub fn has(&self, file: File<'_>) -> bool
        requires { (file_of file).graph ≡ self.now.graph }
        ensures { result ≡ is_among self.now.paths (file_of file.entry).path }
    {
        self.numbers.contains(file.number().0)
    }

    /// Adds a file. Returns whether it is new.
    pub fn add(&mut self, file: File<'_>) -> Result<bool, AllocError>
        requires { (file_of file).graph ≡ self.old.graph }
        ensures new { IfOk result (λ is_new. is_new
            ≡ not (is_among self.old.paths (file_of file.entry).path)) }
        ensures paths { OnOk result (self.new ≡ record self.old {
          paths = with_name self.old.paths (file_of file.entry).path;
        }) }
    {
        self.numbers.insert(file.number().0)
    }

    /// Removes all files from the set.
    pub fn clear(&mut self)
        ensures { self.new ≡ record self.old { paths = [] } }
    {
        self.numbers.clear()
    }
}
