//! A graph's files and edges, as values that know it.

ghost use Rattle.std.specs.Prelude.{◌≡◌, ◌<◌, Some, None, All, if◌then◌else◌, length, map, nat_lt, option_map};
ghost use Rattle.nj_graph.specs.Cited.{path_at, edges_of, files_of, defaults_in_force, edge_in, edge_of, edges_in, file_in, file_of, files_in, is_named, roots_of};

use crate::graph::Graph;
use crate::handle_lists::{Edges, Files};
use crate::handles::{Edge, File};
use nj_edges::{EdgeNo, FileNo};

impl Graph {
    /// The file at the given path, which must be clean; `None` if no edge names it.
    pub fn file(&self, path: &[u8]) -> Option<File<'_>>
        ensures { option_map file_of result ≡ (if is_named (edges_of self.now) path.now
            then Some (file_in self.now path.now) else None) }
    {
        match self.file_named(path) {
            Some(number) => Some(self.file_at(number)),
            None => None,
        }
    }

    /// The edge with the given number; `None` past the last edge.
    pub fn edge(&self, number: EdgeNo) -> Option<Edge<'_>>
        ensures { option_map edge_of result ≡ (if nat_lt number.0 (length (edges_of self.now))
            then Some (edge_in self.now number.0) else None) }
    {
        if number.0 < self.edge_count() {
            Some(self.edge_at(number))
        } else {
            None
        }
    }

    /// The roots: the outputs that no edge has as an input, by edge and then by output.
    pub fn root_files(&self) -> Files<'_>
        ensures { result ≡ files_in self.now (roots_of (edges_of self.now)) }
    {
        Files::new(self, self.roots())
    }

    /// The defaults in force: the files of the `default` lines in their order, or the roots if
    /// there is no `default` line ("Default target statements" in the Ninja manual).
    pub fn default_files(&self) -> Files<'_>
        ensures { result ≡ files_in self.now
            (defaults_in_force self.now.built.defaults (edges_of self.now)) }
    {
        Files::new(self, self.defaults())
    }

    // ---- by numbers, for this library's own crates

    /// The file with the given number.
    pub fn file_at(&self, number: FileNo) -> File<'_>
        requires { number.0 < length (files_of self.now) }
        ensures { file_of result ≡ file_in self.now (path_at (files_of self.now) number) }
    {
        File {
            graph: self,
            number,
        }
    }

    /// The edge with the given number.
    pub fn edge_at(&self, number: EdgeNo) -> Edge<'_>
        requires { number.0 < length (edges_of self.now) }
        ensures { edge_of result ≡ edge_in self.now number.0 }
    {
        Edge {
            graph: self,
            number,
        }
    }

    /// The files with the given numbers.
    pub fn files_at<'g>(&'g self, numbers: &'g [FileNo]) -> Files<'g>
        requires { All (λ file. file.0 < length (files_of self.now)) numbers.now }
        ensures { result
            ≡ files_in self.entry.now (map (path_at (files_of self.entry.now)) numbers.entry.now) }
    {
        Files::new(self, numbers)
    }

    /// The edges with the given numbers.
    pub fn edges_at<'g>(&'g self, numbers: &'g [EdgeNo]) -> Edges<'g>
        requires { All (λ edge. edge.0 < length (edges_of self.now)) numbers.now }
        ensures { result ≡ edges_in self.entry.now (map (λ edge. edge.0) numbers.entry.now) }
    {
        Edges::new(self, numbers)
    }
}
