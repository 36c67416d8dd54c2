//! The edges that files need, and the edges that a change of files affects.

ghost use Rattle.std.specs.Prelude.{◌≡◌, ◌∷◌, [], IfOk};
ghost use Rattle.nj_graph.specs.Cited.{ListsAffected, ListsNeeded, file_of};

use crate::file_lists::{EdgeList, FileList};
use crate::handles::File;
use std::alloc::{AllocError, Global};

impl<'g> File<'g> {
    /// The edges that a change of the file affects: the edges with the file as an input, and the
    /// edges that need their outputs through any chain of inputs. In reading order.
    ///
    /// Takes time in proportion to the affected edges, apart from a flag for each edge of the
    /// graph. Fails only if an allocation fails.
    pub fn affected_edges(self, alloc: Global) -> Result<EdgeList<'g>, AllocError>
        ensures { IfOk result (ListsAffected (file_of self.entry).graph
            ((file_of self.entry).path ∷ [])) }
    {
        let numbers = self.graph.affected_by(alloc, &[self.number])?;
        Ok(EdgeList {
            graph: self.graph,
            numbers,
        })
    }

    /// The edges that the file needs through any chain of inputs, phony edges among them, without
    /// duplicates, nearest first.
    ///
    /// Takes time in proportion to the needed edges and their inputs, apart from a flag for each
    /// edge of the graph. Fails only if an allocation fails.
    pub fn needed_edges(self, alloc: Global) -> Result<EdgeList<'g>, AllocError>
        ensures { IfOk result (ListsNeeded (file_of self.entry).graph
            ((file_of self.entry).path ∷ [])) }
    {
        let numbers = self.graph.needed_by(alloc, &[self.number])?;
        Ok(EdgeList {
            graph: self.graph,
            numbers,
        })
    }
}

impl<'g> FileList<'g> {
    /// The edges that a change of the files affects, as for a single file
    /// ([`File::affected_edges`]).
    pub fn affected_edges(&self, alloc: Global) -> Result<EdgeList<'g>, AllocError>
        ensures { IfOk result (ListsAffected self.now.graph self.now.paths) }
    {
        let numbers = self.graph.affected_by(alloc, &self.numbers)?;
        Ok(EdgeList {
            graph: self.graph,
            numbers,
        })
    }

    /// The edges that the files need, as for a single file ([`File::needed_edges`]).
    pub fn needed_edges(&self, alloc: Global) -> Result<EdgeList<'g>, AllocError>
        ensures { IfOk result (ListsNeeded self.now.graph self.now.paths) }
    {
        let numbers = self.graph.needed_by(alloc, &self.numbers)?;
        Ok(EdgeList {
            graph: self.graph,
            numbers,
        })
    }
}
