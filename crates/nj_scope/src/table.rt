//! The files that a run has read.

ghost use Rattle.std.specs.Prelude.{◌≡◌, List, [], ◌∷◌, ◌++◌, true, false, length, slice_get, option_copied, option_map, IfOk, OnOk, OnErr};
ghost use Rattle.nj_scope.specs.Cited.{OpensFile, shared_bytes, EachPathOnce, paths_of, reading_of, is_read, bytes_in, outcome_bytes};

use crate::source::{FileSource, SourceFault};
use indexmap::IndexMap;
use nj_names::HashKeys;
use std::alloc::{AllocError, Global};
use std::marker::Model;
use std::rc::RcSlice;

/// The files of a run: each path is read once, and its bytes are shared by all that read them.
#[derive(Drop)]
pub struct FileTable {
    files: IndexMap<Vec<u8>, Option<RcSlice<u8>>, HashKeys>,
}

impl Model for FileTable {
    ghost use Rattle.std.specs.Prelude.{List, map};
    ghost use Rattle.nj_scope.specs.Readings.{Reading, EachPathOnce};
    ghost use Rattle.nj_scope.specs.Inside.TableHeld.{kept_reading};

    ghost Value = { List Reading };

    ghost view = { λ t. map kept_reading t.files.entries };

    ghost invariant = { λ t. EachPathOnce (map kept_reading t.files.entries) };
}

impl FileTable {
    /// An empty table. Paths are hashed by the given keys. Allocates nothing.
    pub fn new(alloc: Global, keys: HashKeys) -> FileTable
        ensures { result ≡ [] }
    {
        FileTable {
            files: IndexMap::with_hasher(alloc, keys),
        }
    }

    /// The number of paths that were read.
    pub fn count(&self) -> usize
        ensures count { result ≡ length self.now }
        ensures each_path_once { EachPathOnce self.now }
    {
        self.files.len()
    }

    /// Returns the path at the given index, in the order in which the paths were first read, or
    /// `None` past the last path.
    pub fn path(&self, index: usize) -> Option<&[u8]>
        ensures { option_copied result ≡ slice_get (paths_of self.now) index }
    {
        match self.files.get_index(index) {
            Some((path, _)) => Some(path.as_slice()),
            None => None,
        }
    }

    /// Whether the path was read.
    pub fn has(&self, path: &str) -> bool
        ensures read { result ≡ is_read self.now path.now }
        ensures each_path_once { EachPathOnce self.now }
    {
        self.files.contains_key(path.as_bytes())
    }

    /// Returns the bytes of the file at the path; `None` if it was not read, or no file was there.
    pub fn get(&self, path: &str) -> Option<&[u8]>
        ensures { option_copied result ≡ bytes_in self.now path.now }
    {
        match self.reading_of(path) {
            Some(Some(bytes)) => Some(bytes.as_slice()),
            _ => None,
        }
    }

    /// Returns the bytes of the file at the path, shared with the table, or `None` if no file is
    /// there. The source is read once for each path; the table remembers a missing file too.
    ///
    /// # Errors
    ///
    /// The faults of the source, and `OutOfMemory` where the table cannot grow. The table is then
    /// unchanged, though the source may have read the file.
    pub fn open<S: FileSource>(
        &mut self,
        alloc: Global,
        source: &mut S,
        path: &str,
    ) -> Result<Option<RcSlice<u8>>, SourceFault>
        ensures opens { OpensFile (S.state source.old) (S.state source.new) self.old self.new
            path.now result }
        ensures known_is_not_asked { is_read self.old path.now ≡ true → source.new ≡ source.old }
        ensures each_path_once { EachPathOnce self.new }
    {
        if let Some(bytes) = self.reading_of(path) {
            return Ok(share(bytes)?);
        }
        self.read_new(alloc, source, path)
    }

    // Reads a path that was not read, and keeps the result.
    fn read_new<S: FileSource>(
        &mut self,
        alloc: Global,
        source: &mut S,
        path: &str,
    ) -> Result<Option<RcSlice<u8>>, SourceFault>
        requires new { is_read self.old path.now ≡ false }
        requires each_path_once { EachPathOnce self.old }
        ensures opens { OpensFile (S.state source.old) (S.state source.new) self.old self.new
            path.now result }
        ensures each_path_once { EachPathOnce self.new }
    {
        let key = Vec::from_slice(alloc, path.as_bytes())?;
        let outcome = source.read(alloc, path)?;
        let bytes = share_outcome(outcome)?;
        let shared = share(&bytes)?;
        self.keep(key, bytes)?;
        Ok(shared)
    }

    // Keeps the reading of a path that was not read.
    fn keep(&mut self, path: Vec<u8>, bytes: Option<RcSlice<u8>>) -> Result<(), AllocError>
        requires { is_read self.old path.items ≡ false }
        ensures kept { OnOk result (self.new
            ≡ self.old ++ record { path = path.items; bytes = shared_bytes bytes } ∷ []) }
        ensures refused { OnErr result (self.new ≡ self.old) }
        ensures each_path_once { EachPathOnce self.new }
    {
        self.files.insert(path, bytes)?;
        Ok(())
    }

    // The reading of the path, if it was read.
    fn reading_of(&self, path: &str) -> Option<&Option<RcSlice<u8>>>
        ensures found { option_map shared_bytes (option_copied result)
            ≡ option_map (λ r. r.bytes) (reading_of self.now path.now) }
        ensures each_path_once { EachPathOnce self.now }
    {
        self.files.get(path.as_bytes())
    }
}

fn share_outcome(outcome: Option<Vec<u8>>) -> Result<Option<RcSlice<u8>>, AllocError>
    ensures { IfOk result (λ shared. shared_bytes shared ≡ outcome_bytes outcome) }
{
    match outcome {
        Some(mut bytes) => {
            bytes.shrink_to_fit();
            Ok(Some(RcSlice::from_vec(bytes)?))
        }
        None => Ok(None),
    }
}

fn share(bytes: &Option<RcSlice<u8>>) -> Result<Option<RcSlice<u8>>, AllocError>
    ensures { IfOk result (λ handle. shared_bytes handle ≡ shared_bytes bytes.now) }
{
    match bytes {
        Some(bytes) => Ok(Some(bytes.clone()?)),
        None => Ok(None),
    }
}
