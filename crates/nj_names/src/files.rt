//! The files that build statements name, by their numbers.

ghost use Rattle.std.specs.Prelude.{◌≡◌, ◌<◌, [], length, Some, option_map, position, slice_get, is_some, bytes_eq, IfOk, OnOk, OnErr};
ghost use Rattle.nj_names.specs.Cited.{IsDistinct, list_any, with_name};

use crate::hash_keys::HashKeys;
use crate::table::Names;
use std::alloc::{AllocError, Global};
use std::marker::Model;

/// The number of a file in its graph.
#[derive(Clone, Copy, Debug, PartialEq, Eq)]
pub struct FileNo(pub usize);

/// The named paths, without duplicates. The number of a file is that of its path.
#[derive(Drop)]
pub struct Files {
    names: Names,
}

impl Model for Files {
    ghost use Rattle.std.specs.Prelude.{List, ℕ};

    ghost Value = { List (List ℕ) };

    ghost view = { λ f. f.names };

    ghost inverse = { λ names. record { names = names } };
}

impl Files {
    /// No files yet. Paths are hashed by the given keys. Allocates nothing.
    pub fn new(alloc: Global, keys: HashKeys) -> Files
        ensures { result ≡ [] }
    {
        Files {
            names: Names::new(alloc, keys),
        }
    }

    /// The number of files.
    pub fn count(&self) -> usize
        ensures count { result ≡ length self.now }
        ensures each_path_once { IsDistinct bytes_eq self.now }
    {
        self.names.count()
    }

    /// Returns the number of the file at the given path, or `None` if the path was not named.
    pub fn number(&self, path: &[u8]) -> Option<FileNo>
        ensures index { option_map (λ file. file.0) result ≡ position (bytes_eq path.now) self.now }
        ensures known { is_some result ≡ list_any (bytes_eq path.now) self.now }
    {
        match self.names.number(path) {
            Some(number) => Some(FileNo(number)),
            None => None,
        }
    }

    /// The path of the file with the given number.
    pub fn path(&self, file: FileNo) -> &[u8]
        requires { file.0 < length self.now }
        ensures { slice_get self.now file.0 ≡ Some result.now }
    {
        self.names.name(file.0)
    }

    /// The number of the file at this path, which is named from now on.
    pub fn name(&mut self, path: &[u8]) -> Result<FileNo, AllocError>
        ensures named { OnOk result (self.new ≡ with_name self.old path.now) }
        ensures number { IfOk result (λ file. slice_get self.new file.0 ≡ Some path.now) }
        ensures refused { OnErr result (self.new ≡ self.old) }
        ensures each_path_once { IsDistinct bytes_eq self.new }
    {
        Ok(FileNo(self.names.add(path)?))
    }
}
