//! The files that C supplies.

ghost use Rattle.std.specs.Prelude.{◌≡◌, ◌<◌, ◌++◌, [], ◌∷◌, false, is_some, length, map, set, position, bytes_eq, IfOk, IfSome, OnOk, OnErr};
ghost use Rattle.nj_c.specs.Cited.{flat_map, list_any, outcome_bytes, supplied_for, wanted_paths, ReadsAsSupplied, SetsFile, read_bytes, wanted_of};

use nj_edges::{FileNo, Files};
use nj_scope::{FileSource, HashKeys, SourceFault};
use std::alloc::{AllocError, Global};
use std::marker::Model;

// One reading: the path, and the number of its file; `None` if the file was not supplied.
#[derive(Drop)]
struct NumberedReading {
    path: Vec<u8>,
    number: Option<usize>,
}

/// The supplied files. A file that was not supplied reads as an empty file, and is then wanted.
#[derive(Drop)]
pub struct SuppliedFiles {
    keys: HashKeys,
    paths: Files,
    // For each path its bytes; `None` if no file is there.
    files: Vec<Option<Vec<u8>>>,
    // The readings since the last load began.
    read: Vec<NumberedReading>,
}

impl Model for SuppliedFiles {
    ghost use Rattle.std.specs.Prelude.{map};
    ghost use Rattle.nj_scope.specs.Sources.{outcome_bytes};
    ghost use Rattle.nj_c.specs.SuppliedFiles.{Supplied};
    ghost use Rattle.nj_c.specs.Inside.SuppliedHeld.{reading_held, AreSupplied};

    ghost Value = { Supplied };

    ghost view = { λ h. record {
      paths = h.paths;
      files = map outcome_bytes h.files.items;
      read = map (reading_held (map outcome_bytes h.files.items)) h.read.items;
    } };

    ghost invariant = { λ h. AreSupplied h.paths h.files.items h.read.items };
}

impl SuppliedFiles {
    /// No files, whose paths are hashed with the given keys. It allocates nothing.
    pub(crate) fn new(alloc: Global, keys: HashKeys) -> SuppliedFiles
        ensures { result ≡ record { paths = []; files = []; read = [] } }
    {
        SuppliedFiles {
            keys,
            paths: Files::new(alloc, keys),
            files: Vec::new(alloc),
            read: Vec::new(alloc),
        }
    }

    /// Sets the file at a path: its bytes, or that no file is there. Earlier readings are
    /// forgotten.
    pub(crate) fn set(&mut self, path: &[u8], file: Option<Vec<u8>>) -> Result<(), AllocError>
        ensures set { OnOk result (SetsFile self.old self.new path.now (outcome_bytes file)) }
        ensures refused { OnErr result (self.new ≡ self.old) }
    {
        match self.number(path) {
            Some(number) => {
                self.replace(number, file);
                Ok(())
            }
            None => self.add(path, file),
        }
    }

    // Sets the file with the given number.
    fn replace(&mut self, number: usize, file: Option<Vec<u8>>)
        requires { number < length self.old.files }
        ensures { self.new ≡ record {
          paths = self.old.paths;
          files = set self.old.files number (outcome_bytes file);
          read = [];
        } }
    {
        self.read.clear();
        self.files[number] = file;
    }

    // Adds a file at a path that is not known yet.
    fn add(&mut self, path: &[u8], file: Option<Vec<u8>>) -> Result<(), AllocError>
        requires { list_any (bytes_eq path.now) self.old.paths ≡ false }
        ensures aligned { length self.old.files ≡ length self.old.paths }
        ensures added { OnOk result (self.new ≡ record {
          paths = self.old.paths ++ path.now ∷ [];
          files = self.old.files ++ outcome_bytes file ∷ [];
          read = [];
        }) }
        ensures refused { OnErr result (self.new ≡ self.old) }
    {
        self.files.reserve(1)?;
        self.paths.name(path)?;
        self.files.push_reserved(file);
        self.read.clear();
        Ok(())
    }

    /// Forgets the readings.
    pub(crate) fn begin(&mut self)
        ensures { self.new ≡ record self.old { read = [] } }
    {
        self.read.clear();
    }

    /// The paths that were read and not supplied, in the order in which they were read.
    pub(crate) fn wanted(&self, alloc: Global) -> Result<Vec<Vec<u8>>, AllocError>
        ensures paths { IfOk result (λ paths.
            map (λ p. p.items) paths.items ≡ wanted_paths self.now) }
        ensures found { ReadsAsSupplied self.now }
    {
        wanted_in(alloc, &self.read)
    }

    /// Whether something was supplied for a path: bytes, or that no file is there.
    pub(crate) fn has(&self, path: &[u8]) -> bool
        ensures { result ≡ is_some (supplied_for self.now path.now) }
    {
        self.paths.number(path).is_some()
    }

    // The number of the file at a path.
    fn number(&self, path: &[u8]) -> Option<usize>
        ensures index { result ≡ position (bytes_eq path.now) self.now.paths }
        ensures known { is_some result ≡ list_any (bytes_eq path.now) self.now.paths }
        ensures there { IfSome result (λ number. number < length self.now.files) }
    {
        match self.paths.number(path) {
            Some(file) => Some(file.0),
            None => None,
        }
    }
}

impl FileSource for SuppliedFiles {
    ghost use Rattle.nj_c.specs.SuppliedFiles.{supplied_state};

    ghost state = { λ h. supplied_state h };

    fn read(&mut self, alloc: Global, path: &str) -> Result<Option<Vec<u8>>, SourceFault> {
        let path = path.as_bytes();
        let number = self.number(path);
        let bytes = copy_at(alloc, &self.files, number)?;
        let path = Vec::from_slice(alloc, path)?;
        self.read.push(NumberedReading { path, number })?;
        Ok(bytes)
    }

    fn hash_keys(&self) -> HashKeys {
        self.keys
    }
}

// The paths of readings that were not supplied.
fn wanted_in(alloc: Global, read: &[NumberedReading]) -> Result<Vec<Vec<u8>>, AllocError>
    ensures { IfOk result (λ paths. map (λ p. p.items) paths.items
        ≡ flat_map wanted_of read.now) }
{
    let mut paths = Vec::new(alloc);
    'read: for reading in read {
        push_wanted(alloc, &mut paths, reading)?;
    }
    Ok(paths)
}

// Appends the path of a reading if it was not supplied.
fn push_wanted(
    alloc: Global,
    paths: &mut Vec<Vec<u8>>,
    reading: &NumberedReading,
) -> Result<(), AllocError>
    ensures { OnOk result (map (λ p. p.items) paths.new.items
        ≡ map (λ p. p.items) paths.old.items ++ wanted_of reading.now) }
{
    if reading.number.is_none() {
        let path = Vec::from_slice(alloc, &reading.path)?;
        paths.push(path)?;
    }
    Ok(())
}

// The reading of the file with the given number.
fn copy_at(
    alloc: Global,
    files: &[Option<Vec<u8>>],
    number: Option<usize>,
) -> Result<Option<Vec<u8>>, AllocError>
    ensures { IfOk result (λ copy. outcome_bytes copy
        ≡ read_bytes (map outcome_bytes files.now) number) }
{
    let Some(number) = number else {
        return Ok(Some(Vec::new(alloc)));
    };
    match files.get(number) {
        Some(Some(bytes)) => Ok(Some(Vec::from_slice(alloc, bytes)?)),
        _ => Ok(None),
    }
}
