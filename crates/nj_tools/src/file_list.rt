//! Files without duplicates.

ghost use Rattle.std.specs.Prelude.{◌≡◌, [], All, IfOk, OnOk, map};
ghost use Rattle.nj_tools.specs.Cited.{file_of, files_in, with_name, with_paths};

use crate::file_set::FileSet;
use nj_graph::{File, FileNo, Files, Graph};
use std::alloc::{AllocError, Global};
use std::marker::Model;

/// Files of a graph without duplicates, in the order of their first additions.
#[derive(Drop)]
pub(crate) struct Collected<'g> {
    added: FileSet<'g>,
    files: Vec<FileNo>,
}

impl<'g> Model for Collected<'g> {
    ghost use Rattle.std.specs.Prelude.{map};
    ghost use Rattle.nj_names.specs.Files.{path_at};
    ghost use Rattle.nj_graph.specs.Graph.{files_of};
    ghost use Rattle.nj_tools.specs.Inside.Collections.{Collection, AreAdded};

    ghost Value = { Collection };

    ghost view = { λ c. record {
      graph = c.added.graph;
      paths = map (path_at (files_of c.added.graph)) c.files.items;
    } };

    ghost invariant = { λ c. AreAdded c.added c.files.items };
}

impl<'g> Collected<'g> {
    /// No files of the graph yet.
    pub(crate) fn new(alloc: Global, graph: &'g Graph) -> Result<Collected<'g>, AllocError>
        ensures { IfOk result (λ c. c ≡ record { graph = graph.entry.now; paths = [] }) }
    {
        Ok(Collected {
            added: FileSet::new(alloc, graph)?,
            files: Vec::new(alloc),
        })
    }

    /// Appends a file, unless the list has it already.
    pub(crate) fn add(&mut self, file: File<'_>) -> Result<(), AllocError>
        requires { (file_of file).graph ≡ self.old.graph }
        ensures graph { self.new.graph ≡ self.old.graph }
        ensures paths { OnOk result
            (self.new.paths ≡ with_name self.old.paths (file_of file.entry).path) }
    {
        if !self.added.has(file) {
            self.files.push(file.number())?;
            self.added.insert(file);
        }
        Ok(())
    }

    /// Appends files, except those that the list has already.
    pub(crate) fn add_all(&mut self, files: Files<'_>) -> Result<(), AllocError>
        requires { All (λ file. file.graph ≡ self.old.graph) files }
        ensures graph { self.new.graph ≡ self.old.graph }
        ensures paths { OnOk result
            (self.new.paths ≡ with_paths self.old.paths (map (λ file. file.path) files.entry)) }
    {
        'files: for file in files {
            self.add(file)?;
        }
        Ok(())
    }

    /// The files.
    pub(crate) fn files(&self) -> Files<'_>
        ensures { result ≡ files_in self.now.graph self.now.paths }
    {
        self.added.graph.files_at(&self.files)
    }
}
